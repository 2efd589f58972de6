// What the entries behind a place of a history end.

ghost use Rattle.std.specs.Prelude.{◌≡◌, ◌+◌, ℕ, List, [], ◌∷◌, IfOk, OnOk, min};
ghost use Rattle.fate_ledger.specs.Behind.{Tells, first_at, is_dispatch, ends_post, names, removes, removes_with};
ghost use Rattle.fate_ledger.specs.Quits.{AreQuitsRising};
ghost use Rattle.fate_ledger.specs.declared.ending.Ending.{Ending};

use crate::dispatches::Dispatches;
use crate::ending::Ending;
use crate::keys::{RemovalKey, key_of};
use crate::quits::SafeQuits;
use loop_model::{NoMemory, Post};
use std::alloc::Global;
use std::collections::BTreeMap;

/// For each way to end a message the place of the first entry that ends messages so, among those behind a place of a
/// history. `end` is the length of the history, and stands where there is no such entry.
#[derive(Drop)]
pub struct Behind {
    /// The first removal, by what it names.
    pub removals: BTreeMap<RemovalKey, usize>,
    /// The first dispatch, by the number of the message.
    pub dispatches: Dispatches,
    /// The first entry that ends all messages: a quit that is not safe, or a disposal.
    pub everything: usize,
    /// The safe quits.
    pub safe_quits: SafeQuits,
    /// The length of the history.
    pub end: usize,
}

impl Behind {
    /// Nothing stands behind the end, in a history that posts so many messages.
    pub(crate) fn new(alloc: Global, posts: u64, end: usize) -> Result<Behind, NoMemory>
        ensures tells { IfOk result (λ b. Tells b end []) }
        ensures rising { IfOk result (λ b. AreQuitsRising b.safe_quits.list.items) }
    {
        let dispatches = Dispatches::new(alloc, posts, end)?;
        Ok(Behind {
            removals: BTreeMap::new(alloc),
            dispatches,
            everything: end,
            safe_quits: SafeQuits::new(alloc),
            end,
        })
    }

    /// Goes on to the entry in front, which stands at this place.
    pub(crate) fn add(&mut self, place: usize, ending: Ending) -> Result<(), NoMemory>
        requires { AreQuitsRising self.old.safe_quits.list.items }
        ensures tells { (endings : List Ending) → Tells self.old (place + 1) endings → OnOk result (Tells self.new place (ending ∷ endings)) }
        ensures rising { OnOk result (AreQuitsRising self.new.safe_quits.list.items) }
    {
        match ending {
            Ending::Removal(filter) => {
                let Ok(_) = self.removals.insert(key_of(&filter), place) else {
                    return Err(NoMemory);
                };
            }
            Ending::Dispatch(number) => self.dispatches.add(number, place)?,
            Ending::Everything => self.everything = place,
            Ending::SafeQuit(now) => self.safe_quits.add(now, place)?,
            Ending::Nothing => {}
        }
        Ok(())
    }

    /// The place of the first removal that names just this.
    fn removal_of(&self, key: &RemovalKey) -> usize
        ensures { (place : ℕ) (endings : List Ending) → Tells self.now place endings → result ≡ first_at (names key.now) place endings }
    {
        match self.removals.get(key) {
            Some(place) => *place,
            None => self.end,
        }
    }

    /// The place of the first removal that takes the post and names just this object, or just no object.
    fn removal_with(&self, post: &Post, obj: Option<u64>) -> usize
        ensures { (place : ℕ) (endings : List Ending) → Tells self.now place endings → result ≡ first_at (removes_with obj post.now) place endings }
    {
        let all = RemovalKey {
            handler: post.handler,
            what: None,
            callback: None,
            obj,
        };
        let what = RemovalKey {
            what: Some(post.what),
            ..all
        };
        let first = earlier(self.removal_of(&all), self.removal_of(&what));
        if post.callback.is_none() {
            return first;
        }
        let callback = RemovalKey {
            callback: post.callback,
            ..all
        };
        earlier(first, self.removal_of(&callback))
    }

    /// The place of the first removal that takes the post.
    fn removal(&self, post: &Post) -> usize
        ensures { (place : ℕ) (endings : List Ending) → Tells self.now place endings → result ≡ first_at (removes post.now) place endings }
    {
        let any_object = self.removal_with(post, None);
        if post.obj.is_none() {
            return any_object;
        }
        earlier(any_object, self.removal_with(post, post.obj))
    }

    /// The place of the dispatch of this number.
    fn dispatch(&self, number: u64) -> usize
        ensures { (place : ℕ) (endings : List Ending) → Tells self.now place endings → result ≡ first_at (is_dispatch number) place endings }
    {
        self.dispatches.first(number)
    }

    /// The place of the first entry that ends the post of this number, or the end where none does.
    pub(crate) fn first_end(&self, number: u64, post: &Post) -> usize
        requires { AreQuitsRising self.now.safe_quits.list.items }
        ensures { (place : ℕ) (endings : List Ending) → Tells self.now place endings → result ≡ first_at (ends_post number post.now) place endings }
    {
        let one = earlier(self.removal(post), self.dispatch(number));
        let many = earlier(
            self.everything,
            self.safe_quits.first_before(post.when, self.end),
        );
        earlier(one, many)
    }
}

/// The lesser of two places.
fn earlier(one: usize, other: usize) -> usize
    ensures { result ≡ min one other }
{
    if other < one { other } else { one }
}
