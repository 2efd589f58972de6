// What a handle keeps is taken out of it for a call, and put back.
ghost use Rattle.std.specs.Prelude.{◌≡◌, true, false, not, is_some, MatchOption, IfOk};
ghost use Rattle.message_queue_c.specs.Contents.{nothing_in, just_opened, holds_nothing};
ghost use Rattle.message_queue_c.specs.Handed.{inside};

use crate::calls;
use crate::handle::{MqQueue, Nowhere};
use crate::kept::Kept;
use heap_value::Lone;
use loop_model::NoMemory;
use std::alloc::Global;
use std::mem;
use std_alloc::room::Vacant;

impl MqQueue {
    /// What a live handle keeps; the handle is left closed.
    pub(crate) fn take(&mut self) -> Option<Lone<Kept>>
        ensures taken { MatchOption result (inside self.old ≡ nothing_in) (λ k. inside self.old ≡ k.value) }
        ensures live { is_some result ≡ self.old.live }
        ensures closed { self.new.live ≡ false }
    {
        let (live, handle) = mem::replace(self, MqQueue::closed(Nowhere::new())).told();
        if live {
            return Some(handle.into_kept());
        }
        handle.done();
        None
    }

    /// Makes a closed handle keep this.
    pub(crate) fn put(&mut self, kept: Lone<Kept>)
        requires { self.old.live ≡ false }
        ensures kept { inside self.new ≡ kept.value }
        ensures live { self.new.live ≡ true }
    {
        mem::replace(self, MqQueue::of(kept)).done();
    }

    /// The same, and where nothing is left in it its memory is freed.
    pub(crate) fn put_or_free(&mut self, alloc: Global, mut kept: Lone<Kept>)
        requires { self.old.live ≡ false }
        ensures kept { inside self.new ≡ kept.value }
        ensures freed { self.new.live ≡ not (holds_nothing kept.value) }
    {
        if kept.get_mut().is_spent() {
            free(alloc, kept);
            return;
        }
        self.put(kept);
    }
}

fn free(alloc: Global, kept: Lone<Kept>) {
    let (kept, room) = kept.take(alloc);
    drop(kept);
    room.free();
}

/// A queue in which nothing has happened, on the heap.
pub(crate) fn open(alloc: Global) -> Result<Lone<Kept>, NoMemory>
    ensures { IfOk result (λ k. k.value ≡ just_opened) }
{
    let queue = calls::open(alloc)?;
    match Vacant::take(alloc) {
        Ok(room) => Ok(Lone::put(room, Kept::new(alloc, queue))),
        Err(_) => Err(NoMemory),
    }
}
