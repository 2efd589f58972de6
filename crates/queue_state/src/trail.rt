// A list of entries without bytes, which contracts alone see.
ghost use Rattle.std.specs.Prelude.{◌≡◌, ◌++◌, ◌∷◌, [], List};
ghost use base.Fml.{ftrue};
ghost use Rattle.loop_model.specs.declared.entry.Entry.{Entry};

use loop_model::Entry;
use std::marker::{Model, PhantomData, Send, Sync};

/// A list of entries without bytes, which contracts alone see. No memory ties it to anything by itself: the state's invariant says that
/// what it has left is what the state keeps.
pub(crate) struct Trail {
    marker: PhantomData<u8>,
    pub(crate) ghost items: { List Entry },
}

impl Model for Trail {
    ghost also_owns = { λ _. ftrue };
}

/// What a trail begins with.
#[derive(Drop)]
pub(crate) struct Start {
    pub(crate) length: u64,
}

/// A trail, and the entry that goes behind it.
#[derive(Drop)]
pub(crate) struct Step {
    pub(crate) trail: Trail,
    pub(crate) entry: Entry,
}

impl Trail {
    pub(crate) fn none(_start: &Start) -> Trail
        ensures { result.items ≡ [] }
    {
        Trail {
            marker: PhantomData,
        }
    }
}

impl Step {
    pub(crate) fn taken(&self) -> Trail
        ensures { result.items ≡ self.now.trail.items ++ self.now.entry ∷ [] }
    {
        Trail {
            marker: PhantomData,
        }
    }
}

impl Drop for Trail {
    fn drop(self) {
        let Trail { marker: _ } = self;
    }
}

unsafe impl Send for Trail {}

unsafe impl Sync for Trail {}
