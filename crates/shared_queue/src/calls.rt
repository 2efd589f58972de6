// The calls of a poster: each takes the turn, makes one call on the queue's state and gives it back.
ghost use Rattle.std.specs.Prelude.{◌≡◌, ◌+◌, true, false};
ghost use Rattle.loop_model.specs.Items.{is_barrier};
ghost use Rattle.message_slot.specs.Letter.{IsAtHome};
ghost use Rattle.queue_state.specs.Calls.{UnbarsAtHome, TakesAtHome, QuitsAtHome};
ghost use Rattle.shared_queue.specs.Claims.{TakesAsAccepted, QuitsAsAccepted};
ghost use Rattle.shared_queue.specs.Known.{IsOf};
ghost use Rattle.shared_queue.specs.Calls.{PostedBy, BarrierPostedBy, BarrierGoneBy, RemovedBy, QuitBy, AdvancedBy, HaltedBy, HasBy, IdledBy, TimedBy, CountedBy, SealedBy};

use crate::poster::Poster;
use crate::queue::SharedQueue;
use loop_model::{Filter, NoMemory, Segment};
use message_slot::Claim;
use queue_state::{
    Advancing, BarrierGone, BarrierPosted, Halting, Kept, Posted, Quitting, Recorder, Taking,
};
use std::sync::Wait;
use when_queue::MsgNode;

impl<K: Claim, E: Recorder> Poster<K, E> {
    /// Posts a message that has a target, for the time that stands in it, in milliseconds: its number among the posts, and
    /// whether it wakes the looper. Refused, with the place of the quit, where the queue is quitting; the message comes back.
    /// NoMemory where its entries find no room. As `enqueueMessage` of AOSP's `MessageQueue`.
    pub fn post<R: Wait>(
        &mut self,
        rt: &R,
        queue: &SharedQueue<K, E>,
        node: MsgNode<K>,
    ) -> Posted<K>
        requires queue { IsOf self.old queue.now }
        requires target { is_barrier node.item ≡ false }
        requires home { IsAtHome K.home queue.now.constants.home node }
        ensures { PostedBy self.old self.new node result }
    {
        let mut state = self.desk.begin(rt, queue);
        let answer = state.value_mut().post(self.desk.sender, node);
        let owing = self.desk.end_owing(queue, state, answer);
        queue.settle(rt, owing)
    }

    /// Posts a barrier at the moment `now`, in milliseconds, in place of what the message was, and answers its token. In lockstep
    /// the moment is the queue's time. NoMemory where its entries find no room; the message comes back. As `postSyncBarrier` of
    /// AOSP's `MessageQueue`.
    pub fn post_barrier<R: Wait>(
        &mut self,
        rt: &R,
        queue: &SharedQueue<K, E>,
        now: u64,
        node: MsgNode<K>,
    ) -> BarrierPosted<K>
        requires queue { IsOf self.old queue.now }
        requires home { IsAtHome K.home queue.now.constants.home node }
        ensures { BarrierPostedBy self.old self.new now node result }
    {
        let mut state = self.desk.begin(rt, queue);
        let answer = state.value_mut().post_barrier(self.desk.sender, now, node);
        self.desk.end(queue, state);
        answer
    }

    /// Removes the barrier of the token, hands its message out, and answers whether that wakes the looper. NotPosted where no
    /// barrier of it stands, NoMemory where its entry finds no room. As `removeSyncBarrier` of AOSP's `MessageQueue`.
    pub fn remove_barrier<R: Wait>(
        &mut self,
        rt: &R,
        queue: &SharedQueue<K, E>,
        token: u64,
    ) -> BarrierGone<K>
        requires queue { IsOf self.old queue.now }
        ensures done { BarrierGoneBy self.old self.new token result }
        ensures home { UnbarsAtHome K.home queue.now.constants.home result }
    {
        let mut state = self.desk.begin(rt, queue);
        let answer = state.value_mut().remove_barrier(self.desk.sender, token);
        let owing = self.desk.end_owing(queue, state, answer);
        queue.settle(rt, owing)
    }

    /// Removes the messages that the filter matches, and hands them out in order. NoMemory where its entry finds no room. As
    /// `removeMessages`, `removeCallbacks` and `removeCallbacksAndMessages` of the Android API reference's `Handler`.
    pub fn remove<R: Wait>(
        &mut self,
        rt: &R,
        queue: &SharedQueue<K, E>,
        filter: &Filter,
    ) -> Taking<K>
        requires queue { IsOf self.old queue.now }
        ensures done { RemovedBy self.old self.new filter.now result }
        ensures claims { TakesAsAccepted self.new.view.claims result }
        ensures home { TakesAtHome K.home queue.now.constants.home result }
    {
        let mut state = self.desk.begin(rt, queue);
        let answer = state.value_mut().remove(self.desk.sender, filter);
        self.desk.end(queue, state);
        answer
    }

    /// Quits: drops every message, or safely those that are due later than `now`, in milliseconds, and hands them out. NotAllowed
    /// for the queue of the main looper, AlreadyQuit, with its place, where a quit was done, and NoMemory only in place of one of
    /// these two. As `quit` of AOSP's `MessageQueue`.
    pub fn quit<R: Wait>(
        &mut self,
        rt: &R,
        queue: &SharedQueue<K, E>,
        safe: bool,
        now: u64,
    ) -> Quitting<K>
        requires queue { IsOf self.old queue.now }
        ensures done { QuitBy self.old self.new safe now result }
        ensures claims { QuitsAsAccepted self.new.view.claims result }
        ensures home { QuitsAtHome K.home queue.now.constants.home result }
    {
        let mut state = self.desk.begin(rt, queue);
        let answer = state.value_mut().quit(self.desk.sender, safe, now);
        let owing = self.desk.end_owing(queue, state, answer);
        queue.settle(rt, owing)
    }

    /// Moves the time of a queue in lockstep on to `now`, in milliseconds. The last sender alone does. Over where the queue was
    /// disposed of or halted, else Reached where `now` is not later than its time, else NotDrained where a message is due, else
    /// NoMemory where its entry finds no room. A rule of this project's profile.
    pub fn advance<R: Wait>(&mut self, rt: &R, queue: &SharedQueue<K, E>, now: u64) -> Advancing
        requires queue { IsOf self.old queue.now }
        requires sender { self.old.sender + 1 ≡ queue.now.constants.setting.senders }
        requires lockstep { queue.now.constants.setting.lockstep ≡ true }
        ensures { AdvancedBy self.old self.new now result }
    {
        let mut state = self.desk.begin(rt, queue);
        let answer = state.value_mut().advance(self.desk.sender, now);
        self.desk.end(queue, state);
        answer
    }

    /// Stops the main looper at `now`, in milliseconds. The last sender alone does. Over where that was done, else NotDrained
    /// where a message is due. A rule of this project's profile.
    pub fn halt<R: Wait>(&mut self, rt: &R, queue: &SharedQueue<K, E>, now: u64) -> Halting
        requires queue { IsOf self.old queue.now }
        requires sender { self.old.sender + 1 ≡ queue.now.constants.setting.senders }
        requires main { queue.now.constants.setting.main ≡ true }
        ensures { HaltedBy self.old self.new now result }
    {
        let mut state = self.desk.begin(rt, queue);
        let answer = state.value_mut().halt(self.desk.sender, now);
        self.desk.end(queue, state);
        answer
    }

    /// Whether a message stands in the queue that the filter matches. It makes no entry. As `hasMessages` of the Android API
    /// reference's `Handler`.
    pub fn has<R: Wait>(&mut self, rt: &R, queue: &SharedQueue<K, E>, filter: &Filter) -> bool
        requires queue { IsOf self.old queue.now }
        ensures { HasBy self.old self.new filter.now result }
    {
        let state = self.desk.begin(rt, queue);
        let answer = state.value().has(filter);
        self.desk.end(queue, state);
        answer
    }

    /// Whether nothing stands at the head of the list, or the head is later than `now`, in milliseconds; in lockstep than the queue's
    /// time. It makes no entry. As `isIdle` of the Android API reference's `MessageQueue`.
    pub fn is_idle<R: Wait>(&mut self, rt: &R, queue: &SharedQueue<K, E>, now: u64) -> bool
        requires queue { IsOf self.old queue.now }
        ensures { IdledBy self.old self.new now result }
    {
        let state = self.desk.begin(rt, queue);
        let answer = state.value().is_idle(now);
        self.desk.end(queue, state);
        answer
    }

    /// The time of the queue, in milliseconds: the latest moment of its history. It makes no entry. A rule of this project's
    /// profile.
    pub fn time<R: Wait>(&mut self, rt: &R, queue: &SharedQueue<K, E>) -> u64
        requires queue { IsOf self.old queue.now }
        ensures { TimedBy self.old self.new result }
    {
        let state = self.desk.begin(rt, queue);
        let answer = state.value().time();
        self.desk.end(queue, state);
        answer
    }

    /// How many entries the history has since its base. It takes no memory (this project's profile).
    pub fn since<R: Wait>(&mut self, rt: &R, queue: &SharedQueue<K, E>) -> u64
        requires { IsOf self.old queue.now }
        ensures { CountedBy self.old self.new result }
    {
        let state = self.desk.begin(rt, queue);
        let answer = state.value().since() as u64;
        self.desk.end(queue, state);
        answer
    }
}

impl<K: Claim> Poster<K, Kept> {
    /// Hands out the base with the entries since, so that the queue keeps only what they have left. The last sender alone does. It
    /// leaves the whole history as it is. At NoMemory nothing is handed out (this project's profile).
    pub fn seal<R: Wait>(&mut self, rt: &R, queue: &SharedQueue<K>) -> Result<Segment, NoMemory>
        requires queue { IsOf self.old queue.now }
        requires last { self.old.sender + 1 ≡ queue.now.constants.setting.senders }
        ensures { SealedBy self.old self.new result }
    {
        let mut state = self.desk.begin(rt, queue);
        match state.value_mut().seal() {
            Ok(part) => {
                self.desk.end_sealed(queue, state);
                Ok(part)
            }
            Err(error) => {
                self.desk.end(queue, state);
                Err(error)
            }
        }
    }
}
