// The dispatches that stand behind a place of a history.

ghost use Rattle.std.specs.Prelude.{◌≡◌, ◌==◌, ℕ, IfOk, OnOk, cond};
ghost use Rattle.fate_ledger.specs.Dispatches.{dispatch_at};

use loop_model::NoMemory;
use std::alloc::Global;
use std::collections::BTreeMap;

/// For each number the place of the first dispatch of it: in a list for the numbers that the history posts, in a map for all others.
/// `end` stands for none.
#[derive(Drop)]
pub struct Dispatches {
    /// The place of the dispatch of each number that is below the number of posts.
    pub list: Vec<usize>,
    /// The places of dispatches of other numbers.
    pub others: BTreeMap<u64, usize>,
    /// The place that stands for none.
    pub end: usize,
}

impl Dispatches {
    /// No dispatch, in a history that posts so many messages.
    pub(crate) fn new(alloc: Global, posts: u64, end: usize) -> Result<Dispatches, NoMemory>
        ensures { IfOk result (λ d. (n : ℕ) → dispatch_at d n ≡ end) }
    {
        let list = vec![in alloc; end; posts as usize]?;
        Ok(Dispatches {
            list,
            others: BTreeMap::new(alloc),
            end,
        })
    }

    /// Adds a dispatch of this number, which stands in front of all the others.
    pub(crate) fn add(&mut self, number: u64, place: usize) -> Result<(), NoMemory>
        ensures { OnOk result ((n : ℕ) → dispatch_at self.new n ≡ cond (n == number) place (dispatch_at self.old n)) }
    {
        let index = number as usize;
        if index < self.list.len() {
            self.list[index] = place;
            return Ok(());
        }
        let Ok(_) = self.others.insert(number, place) else {
            return Err(NoMemory);
        };
        Ok(())
    }

    /// The place of the first dispatch of this number, or `end`.
    pub(crate) fn first(&self, number: u64) -> usize
        ensures { result ≡ dispatch_at self.now number }
    {
        let index = number as usize;
        if index < self.list.len() {
            return self.list[index];
        }
        match self.others.get(&number) {
            Some(place) => *place,
            None => self.end,
        }
    }
}
