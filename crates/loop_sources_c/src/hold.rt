// What a handle keeps is taken out of it for a call, and put back.
ghost use Rattle.std.specs.Prelude.{◌≡◌, true, false, None, Some, is_some, MatchOption, IfOk};
ghost use Rattle.loop_sources_c.specs.Contents.{just_opened};
ghost use Rattle.loop_sources_c.specs.Handed.{inside};

use crate::handle::{Nowhere, SourceLoop};
use crate::kept::Kept;
use heap_value::Lone;
use loop_model::NoMemory;
use std::alloc::Global;
use std::mem;
use std_alloc::room::Vacant;

impl SourceLoop {
    /// What a live handle keeps; the handle is left closed.
    pub(crate) fn take(&mut self) -> Option<Lone<Kept>>
        ensures taken { MatchOption result (inside self.old ≡ None) (λ k. inside self.old ≡ Some k.value) }
        ensures live { is_some result ≡ self.old.live }
        ensures closed { self.new.live ≡ false }
    {
        let (live, handle) = mem::replace(self, SourceLoop::closed(Nowhere::new())).told();
        if live {
            return Some(handle.into_kept());
        }
        handle.done();
        None
    }

    /// Makes a closed handle keep this.
    pub(crate) fn put(&mut self, kept: Lone<Kept>)
        requires { self.old.live ≡ false }
        ensures kept { inside self.new ≡ Some kept.value }
        ensures live { self.new.live ≡ true }
    {
        mem::replace(self, SourceLoop::of(kept)).done();
    }
}

/// Lets go of what a handle kept, and of its memory.
pub(crate) fn free(alloc: Global, kept: Lone<Kept>) {
    let (kept, room) = kept.take(alloc);
    drop(kept);
    room.free();
}

/// Neither handlers nor descriptors, on the heap.
pub(crate) fn open(alloc: Global) -> Result<Lone<Kept>, NoMemory>
    ensures { IfOk result (λ k. k.value ≡ just_opened) }
{
    match Vacant::take(alloc) {
        Ok(room) => Ok(Lone::put(room, Kept::new(alloc))),
        Err(_) => Err(NoMemory),
    }
}
