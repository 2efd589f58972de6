// Counts of the messages that stand in a queue, by which a removal that matches nothing answers without a walk.

ghost use Rattle.std.specs.Prelude.{◌≡◌, true, []};
ghost use Rattle.when_queue.specs.Tally.{place_of, what_place, callback_place, with_more, with_fewer, counts_none, rules_out};

use loop_model::{Filter, Kind, NoMemory};
use message_slot::{Claim, Message};
use std::alloc::Global;

/// So many places a table of counts has.
const PLACES: usize = 256;

/// How many messages stand at each place, which is that of their handler and `what`, and of their handler and callback. Without memory
/// it counts nothing.
#[derive(Drop)]
pub(crate) struct Tally {
    pub(crate) whats: Vec<u64>,
    pub(crate) callbacks: Vec<u64>,
}

/// The place of a handler with a `what` or a callback.
fn place_of(handler: u32, kind: u64) -> usize
    ensures { result ≡ place_of handler kind }
{
    (handler % 16) as usize * 16 + (kind % 16) as usize
}

/// The place of a message by its `what`. A barrier has none.
fn what_place<K: Claim>(message: &Message<K>) -> Option<usize>
    ensures { result ≡ what_place message.now.item }
{
    match message.handler() {
        Some(handler) => Some(place_of(handler, message.what() as u64)),
        None => None,
    }
}

/// The place of a message by its callback, where it has one.
fn callback_place<K: Claim>(message: &Message<K>) -> Option<usize>
    ensures { result ≡ callback_place message.now.item }
{
    match message.callback() {
        Some(callback) => match message.handler() {
            Some(handler) => Some(place_of(handler, callback)),
            None => None,
        },
        None => None,
    }
}

/// Counts one more at this place.
fn count_more(counts: &mut Vec<u64>, place: Option<usize>)
    ensures { counts.new.items ≡ with_more place counts.old.items }
{
    if let Some(place) = place {
        if place < counts.len() {
            counts[place] = counts[place].saturating_add(1);
        }
    }
}

/// Counts one less at this place.
fn count_fewer(counts: &mut Vec<u64>, place: Option<usize>)
    ensures { counts.new.items ≡ with_fewer place counts.old.items }
{
    if let Some(place) = place {
        if place < counts.len() {
            counts[place] = counts[place].saturating_sub(1);
        }
    }
}

/// Whether the count at this place is 0.
fn counts_none(counts: &[u64], place: usize) -> bool
    ensures { result ≡ counts_none counts.now place }
{
    if place >= counts.len() {
        return false;
    }
    counts[place] == 0
}

impl Tally {
    /// It counts nothing.
    pub(crate) fn without_memory(alloc: Global) -> Tally
        ensures whats { result.whats.items ≡ [] }
        ensures callbacks { result.callbacks.items ≡ [] }
    {
        Tally {
            whats: Vec::new(alloc),
            callbacks: Vec::new(alloc),
        }
    }

    /// Each count is 0.
    pub(crate) fn zero(alloc: Global) -> Result<Tally, NoMemory> {
        Ok(Tally {
            whats: vec![in alloc; 0; PLACES]?,
            callbacks: vec![in alloc; 0; PLACES]?,
        })
    }

    /// Whether it counts nothing.
    #[inline]
    fn is_off(&self) -> bool
        ensures whats { result ≡ true → self.now.whats.items ≡ [] }
        ensures callbacks { result ≡ true → self.now.callbacks.items ≡ [] }
    {
        if self.whats.len() > 0 {
            return false;
        }
        self.callbacks.len() == 0
    }

    /// Counts a message that comes.
    #[inline]
    pub(crate) fn add<K: Claim>(&mut self, message: &Message<K>)
        ensures whats { self.new.whats.items ≡ with_more (what_place message.now.item) self.old.whats.items }
        ensures callbacks { self.new.callbacks.items ≡ with_more (callback_place message.now.item) self.old.callbacks.items }
    {
        if self.is_off() {
            return;
        }
        self.count_in(message);
    }

    #[inline(never)]
    fn count_in<K: Claim>(&mut self, message: &Message<K>)
        ensures whats { self.new.whats.items ≡ with_more (what_place message.now.item) self.old.whats.items }
        ensures callbacks { self.new.callbacks.items ≡ with_more (callback_place message.now.item) self.old.callbacks.items }
    {
        count_more(&mut self.whats, what_place(message));
        count_more(&mut self.callbacks, callback_place(message));
    }

    /// Counts a message that goes.
    #[inline]
    pub(crate) fn take_off<K: Claim>(&mut self, message: &Message<K>)
        ensures whats { self.new.whats.items ≡ with_fewer (what_place message.now.item) self.old.whats.items }
        ensures callbacks { self.new.callbacks.items ≡ with_fewer (callback_place message.now.item) self.old.callbacks.items }
    {
        if self.is_off() {
            return;
        }
        self.count_out(message);
    }

    #[inline(never)]
    fn count_out<K: Claim>(&mut self, message: &Message<K>)
        ensures whats { self.new.whats.items ≡ with_fewer (what_place message.now.item) self.old.whats.items }
        ensures callbacks { self.new.callbacks.items ≡ with_fewer (callback_place message.now.item) self.old.callbacks.items }
    {
        count_fewer(&mut self.whats, what_place(message));
        count_fewer(&mut self.callbacks, callback_place(message));
    }

    /// Whether by these counts no message stands there that the filter names.
    pub(crate) fn rules_out(&self, filter: &Filter) -> bool
        ensures { result ≡ rules_out self.now.whats.items self.now.callbacks.items filter.now }
    {
        match filter.kind {
            Kind::What(what) => counts_none(&self.whats, place_of(filter.handler, what as u64)),
            Kind::Callback(callback) => {
                counts_none(&self.callbacks, place_of(filter.handler, callback))
            }
            Kind::All => false,
        }
    }
}
