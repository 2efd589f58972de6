// What a handle keeps is taken out of it for a call, and put back.
ghost use Rattle.std.specs.Prelude.{◌≡◌, ◌<◌, true, false, None, Some, is_some, MatchOption, IfOk};
ghost use Rattle.frame_phases_c.specs.Contents.{just_opened};
ghost use Rattle.frame_phases_c.specs.Handed.{inside};

use crate::handle::{FrameLoop, Nowhere};
use crate::kept::Kept;
use heap_value::Lone;
use loop_model::NoMemory;
use std::alloc::Global;
use std::mem;
use std_alloc::room::Vacant;

impl FrameLoop {
    /// What a live handle keeps; the handle is left closed.
    pub(crate) fn take(&mut self) -> Option<Lone<Kept>>
        ensures taken { MatchOption result (inside self.old ≡ None) (λ k. inside self.old ≡ Some k.value) }
        ensures live { is_some result ≡ self.old.live }
        ensures closed { self.new.live ≡ false }
    {
        let (live, handle) = mem::replace(self, FrameLoop::closed(Nowhere::new())).told();
        if live {
            return Some(handle.into_kept());
        }
        handle.done();
        None
    }

    /// Makes a closed handle keep this.
    pub(crate) fn put(&mut self, kept: Lone<Kept>)
        requires { self.old.live ≡ false }
        ensures kept { inside self.new ≡ Some kept.value }
        ensures live { self.new.live ≡ true }
    {
        mem::replace(self, FrameLoop::of(kept)).done();
    }
}

/// Lets go of what a handle kept, and of its memory.
pub(crate) fn free(alloc: Global, kept: Lone<Kept>) {
    let (kept, room) = kept.take(alloc);
    drop(kept);
    room.free();
}

/// A choreographer in which nothing has happened, on the heap.
pub(crate) fn open(alloc: Global, interval: u64, phases: u32) -> Result<Lone<Kept>, NoMemory>
    requires interval_above_0 { 0 < interval }
    requires phases_above_0 { 0 < phases }
    ensures { IfOk result (λ k. k.value ≡ just_opened interval phases) }
{
    let kept = Kept::new(alloc, interval, phases)?;
    match Vacant::take(alloc) {
        Ok(room) => Ok(Lone::put(room, kept)),
        Err(_) => Err(NoMemory),
    }
}
