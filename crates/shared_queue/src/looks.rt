// How the looper's poster looks for a message.
ghost use Rattle.queue_state.specs.Calls.{LooksAtHome};
ghost use Rattle.shared_queue.specs.Claims.{LooksAsAccepted};
ghost use Rattle.shared_queue.specs.Known.{IsOf};
ghost use Rattle.shared_queue.specs.Calls.{NextedBy};

use crate::poster::Poster;
use crate::queue::SharedQueue;
use message_slot::Claim;
use queue_state::{Nexted, Recorder};
use std::sync::Wait;

impl<K: Claim, E: Recorder> Poster<K, E> {
    /// Takes the first message that is due at `now`, in milliseconds; in lockstep at the queue's time. Over where the queue
    /// was disposed or halted. Else End, with what is left, where nothing is due and the queue is quitting. Else Idle where
    /// nothing is due, an idle turn is owed, and the head is later or missing. Else Wait, until the first message that is not
    /// held back by a barrier is due. It takes no memory. As `next` of AOSP's `MessageQueue`.
    pub fn next<R: Wait>(
        &mut self,
        rt: &R,
        queue: &SharedQueue<K, E>,
        now: u64,
        idle_owed: bool,
    ) -> Nexted<K>
        requires queue { IsOf self.old queue.now }
        ensures done { NextedBy self.old self.new now idle_owed result }
        ensures claims { LooksAsAccepted self.new.view.claims result }
        ensures home { LooksAtHome K.home queue.now.constants.home result }
    {
        let mut state = self.desk.begin(rt, queue);
        let answer = state.value_mut().next(self.desk.sender, now, idle_owed);
        self.desk.end(queue, state);
        answer
    }
}
