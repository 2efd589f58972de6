//! What the entries so far have left.
ghost use Rattle.std.specs.Prelude.{◌≡◌, ◌+◌, ◌<◌, ◌≤◌, ◌^◌, IfOk, OnOk};
ghost use Rattle.loop_model.specs.Base.{empty_base};
ghost use Rattle.loop_model.specs.Counters.{setting};
ghost use Rattle.loop_model.specs.Listed.{insert_made, listed_answer, next_base};
ghost use Rattle.trace_check.specs.Checking.{past_base};
ghost use Rattle.trace_check.specs.Ranks.{AreApart, AreIndexed, AreRanked, listed};

use crate::items::Items;
use loop_model::{Call, Counters, Entry, Item, NoMemory, Reply};
use std::alloc::Global;

/// What a history has left for its continuation.
#[derive(Drop)]
pub(crate) struct Past {
    length: u64,
    counters: Counters,
    items: Items,
}

impl Past {
    /// Nothing went before. These are the entries that are to come.
    pub(crate) fn new(alloc: Global, entries: &[Entry]) -> Result<Past, NoMemory>
        ensures base { IfOk result (λ p. past_base p ≡ empty_base 0) }
        ensures length { IfOk result (λ p. p.length ≡ 0) }
        ensures ranked { IfOk result (λ p. AreRanked p.length p.items) }
        ensures indexed { IfOk result (λ p. AreIndexed p.items) }
    {
        let items = Items::new(alloc, entries)?;
        Ok(Past {
            length: 0,
            counters: Counters::new(),
            items,
        })
    }

    /// Puts a new item into its place.
    fn insert(&mut self, made: Option<Item>) -> Result<(), NoMemory>
        requires ranked { AreRanked self.old.length self.old.items }
        requires indexed { AreIndexed self.old.items }
        ensures others { OnOk result (self.new ≡ record self.old { items = self.new.items }) }
        ensures items { OnOk result (listed self.new.items ≡ insert_made made (listed self.old.items)) }
        ensures ranked { OnOk result (AreRanked (self.old.length + 1) self.new.items) }
        ensures indexed { OnOk result (AreIndexed self.new.items) }
    {
        let Some(item) = made else { return Ok(()) };
        self.items.insert(self.length, item)
    }

    /// The state after one more entry. After running out of memory the state is not to be used.
    #[tactic(auto, unfolding(loop_model::specs::Listed::next_base))]
    pub(crate) fn add(&mut self, entry: &Entry) -> Result<(), NoMemory>
        requires length { self.old.length + 1 < 2 ^ 64 }
        requires posts { self.old.counters.accepted ≤ self.old.length }
        requires barriers { self.old.counters.barriers ≤ self.old.length }
        requires ranked { AreRanked self.old.length self.old.items }
        requires apart { AreApart (listed self.old.items) }
        requires indexed { AreIndexed self.old.items }
        ensures base { OnOk result (past_base self.new ≡ next_base (past_base self.old) entry.now) }
        ensures length { OnOk result (self.new.length ≡ self.old.length + 1) }
        ensures posts { OnOk result (self.new.counters.accepted ≤ self.new.length) }
        ensures barriers { OnOk result (self.new.counters.barriers ≤ self.new.length) }
        ensures ranked { OnOk result (AreRanked self.new.length self.new.items) }
        ensures indexed { OnOk result (AreIndexed self.new.items) }
    {
        self.items.remove(entry);
        self.insert(entry.made(self.counters.accepted, self.counters.barriers))?;
        self.counters.note(self.length, entry);
        self.length += 1;
        Ok(())
    }

    /// The time of the queue.
    pub(crate) fn time(&self) -> u64
        ensures { result ≡ (past_base self.now).time }
    {
        self.counters.time
    }

    /// The reply to a call, or none.
    pub(crate) fn answer(&self, main: bool, lockstep: bool, call: &Call) -> Option<Reply>
        requires { AreIndexed self.now.items }
        ensures { result ≡ listed_answer (setting main lockstep) (past_base self.now) call.now }
    {
        self.counters.answer(main, lockstep, &self.items, call)
    }
}
