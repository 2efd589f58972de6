// Where the entries of a queue go.
ghost use Rattle.std.specs.Prelude.{◌≡◌, ◌+◌, ◌≤◌, ◌<◌, ◌++◌, ◌∷◌, [], List, ℕ, length, true, IfOk, vec_capacity};
ghost use Rattle.loop_model.specs.declared.entry.Entry.{Entry};

use crate::trail::{Start, Step, Trail};
use loop_model::{Entry, NoMemory};
use std::alloc::Global;
use std::marker::Model;
use std::mem;

/// Where the entries of a queue go (this project's profile).
pub trait Recorder: Drop {
    /// The entries so far.
    ghost entries: { Self → List Entry };

    /// How many it can take.
    ghost room: { Self → ℕ };

    /// One without entries, with room for three.
    fn none(alloc: Global) -> Result<Self, NoMemory>
        ensures { IfOk result (λ r. (entries r ≡ []) × (3 ≤ room r)) };

    /// How many entries it has.
    fn len(&self) -> usize
        ensures { result ≡ length (entries self.now) };

    /// Whether there is room for so many more, which is made where it can be.
    fn reserve(&mut self, more: usize) -> bool
        ensures same { entries self.new ≡ entries self.old }
        ensures kept { room self.old ≤ room self.new }
        ensures made { (result ≡ true) → length (entries self.old) + more ≤ room self.new };

    /// Takes the next entry.
    fn push(&mut self, entry: Entry)
        requires { length (entries self.old) < room self.old }
        ensures entries { entries self.new ≡ entries self.old ++ entry ∷ [] }
        ensures room { room self.new ≡ room self.old };
}

/// Entries that are kept in memory, and can be read.
#[derive(Drop)]
pub struct Kept {
    pub(crate) list: Vec<Entry>,
}

impl Recorder for Kept {
    ghost use Rattle.std.specs.Prelude.{vec_capacity};

    ghost entries = { λ k. k.list.items };

    ghost room = { λ k. vec_capacity k.list };

    fn none(alloc: Global) -> Result<Kept, NoMemory> {
        let list = Vec::with_capacity(alloc, 3)?;
        Ok(Kept { list })
    }

    fn len(&self) -> usize {
        self.list.len()
    }

    fn reserve(&mut self, more: usize) -> bool {
        self.list.reserve(more).is_ok()
    }

    fn push(&mut self, entry: Entry) {
        self.list.push_reserved(entry);
    }
}

/// Entries that only contracts see: no memory keeps them, and how many there are is counted.
#[derive(Drop)]
pub struct Unkept {
    count: usize,
    trail: Trail,
}

impl Model for Unkept {
    ghost use Rattle.std.specs.Prelude.{◌≡◌, List, length};
    ghost use Rattle.loop_model.specs.declared.entry.Entry.{Entry};

    ghost Value = { List Entry };

    ghost view = { λ u. u.trail.items };

    ghost invariant = { λ u. length u.trail.items ≡ u.count };
}

impl Recorder for Unkept {
    ghost entries = { λ u. u };

    ghost room = { λ _. 18446744073709551615 };

    fn none(_alloc: Global) -> Result<Unkept, NoMemory> {
        Ok(Unkept {
            count: 0,
            trail: Trail::none(&Start { length: 0 }),
        })
    }

    fn len(&self) -> usize {
        self.count
    }

    fn reserve(&mut self, more: usize) -> bool {
        self.count.checked_add(more).is_some()
    }

    fn push(&mut self, entry: Entry) {
        let trail = mem::replace(&mut self.trail, Trail::none(&Start { length: 0 }));
        let step = Step { trail, entry };
        self.trail = step.taken();
        self.count += 1;
    }
}

/// What a queue records, as contracts see it.
#[derive(Drop)]
pub(crate) struct Record<R: Recorder> {
    pub(crate) by: R,
}

impl<R: Recorder> Model for Record<R> {
    ghost use Rattle.queue_state.specs.Recording.{Recording};

    ghost Value = { Recording };

    ghost view = { λ r. record { items = R.entries r.by; capacity = R.room r.by } };
}

impl<R: Recorder> Record<R> {
    pub(crate) fn none(alloc: Global) -> Result<Record<R>, NoMemory>
        ensures { IfOk result (λ r. (r.items ≡ []) × (3 ≤ r.capacity)) }
    {
        let by = R::none(alloc)?;
        Ok(Record { by })
    }

    pub(crate) fn len(&self) -> usize
        ensures { result ≡ length self.now.items }
    {
        self.by.len()
    }

    /// Whether there is room for so many more.
    pub(crate) fn reserve(&mut self, more: usize) -> bool
        ensures same { self.new.items ≡ self.old.items }
        ensures kept { self.old.capacity ≤ self.new.capacity }
        ensures made { (result ≡ true) → length self.old.items + more ≤ self.new.capacity }
    {
        self.by.reserve(more)
    }

    pub(crate) fn push(&mut self, entry: Entry)
        requires { length self.old.items < self.old.capacity }
        ensures entries { self.new.items ≡ self.old.items ++ entry ∷ [] }
        ensures room { self.new.capacity ≡ self.old.capacity }
    {
        self.by.push(entry);
    }
}

impl Record<Kept> {
    /// Another one with room for so many.
    pub(crate) fn fresh(&self, needed: usize) -> Result<Record<Kept>, NoMemory>
        ensures { IfOk result (λ r. (r.items ≡ []) × (needed ≤ r.capacity)) }
    {
        let list = Vec::with_capacity(*self.by.list.allocator(), needed)?;
        Ok(Record { by: Kept { list } })
    }

    pub(crate) fn as_slice(&self) -> &[Entry]
        ensures { result.now ≡ self.now.items }
    {
        self.by.list.as_slice()
    }

    pub(crate) fn into_list(self) -> Vec<Entry>
        ensures { result.items ≡ self.items }
    {
        let Record { by } = self;
        by.list
    }

    /// How many entries more there is room for.
    pub(crate) fn room(&self) -> usize
        ensures { length self.now.items + result ≡ self.now.capacity }
    {
        self.by.list.capacity() - self.by.list.len()
    }
}
