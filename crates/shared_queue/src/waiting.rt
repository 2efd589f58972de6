// How the looper's poster waits for a message by a clock.
ghost use Rattle.std.specs.Prelude.{◌≡◌, true, false};
ghost use Rattle.shared_queue.specs.Known.{IsOf};
ghost use Rattle.shared_queue.specs.Waiting.{IsBeforeCap, IsCap, limit_of, HasStayed, Stays, LooksOnce, LooksOnceAtHome, LooksOnceAsAccepted, WaitedBy, WaitsAtHome, WaitsAsAccepted};

use crate::poster::Poster;
use crate::queue::SharedQueue;
use loop_io::Clock;
use message_slot::Claim;
use queue_state::{Nexted, Recorder};
use std::sync::Wait;
use std::time;
use when_queue::{MsgList, MsgNode};

/// What a wait for a message answers.
#[derive(Drop)]
pub enum Waited<K: Claim> {
    /// The message that is due, its number and the moment that was used, in milliseconds.
    Taken {
        number: u64,
        now: u64,
        node: MsgNode<K>,
    },
    /// Nothing is due, an idle turn is owed, and the head is later or missing.
    Idle,
    /// Nothing is due and the queue has quit: what was left in it, in order.
    End(MsgList<K>),
    /// The queue was disposed of or halted before.
    Over,
    /// Nothing was due at this moment, in milliseconds, which is no earlier than the cap.
    Cap {
        now: u64,
    },
    /// Nothing was due, the cap had not come, and the bell was rung since the poster read it last.
    Nudged,
}

/// What comes of one look.
#[derive(Drop)]
pub(crate) enum Look<K: Claim> {
    Ends(Waited<K>),
    /// It is to wait, at most so many milliseconds or without limit.
    Sleeps { limit: Option<u64> },
}

// Whether the cap has come.
fn has_come(cap: Option<u64>, now: u64) -> bool
    ensures come { result ≡ true → IsCap cap now }
    ensures not_yet { result ≡ false → IsBeforeCap cap now }
{
    match cap {
        Some(cap) => cap <= now,
        None => false,
    }
}

// How long it is until the earlier of the two.
fn until_earlier(now: u64, until: Option<u64>, cap: Option<u64>) -> Option<u64>
    ensures { result ≡ limit_of now until cap }
{
    match (until, cap) {
        (Some(until), Some(cap)) => Some(until.min(cap).saturating_sub(now)),
        (Some(until), None) => Some(until.saturating_sub(now)),
        (None, Some(cap)) => Some(cap.saturating_sub(now)),
        (None, None) => None,
    }
}

impl<K: Claim, E: Recorder> Poster<K, E> {
    /// Waits for the first message that is due by the clock: looks, and sleeps as long as the answer is to wait, until the
    /// message that it waits for is due, a call on the queue wakes it, or another poster rings the bell. A moment is the
    /// clock's reading less `start`, in milliseconds. Where nothing is due at a look's moment, Cap if it is no earlier than
    /// `cap`, else Nudged if the bell was rung since it was read last; the other answers are those of `next`. It takes no
    /// memory. As `next` of AOSP's `MessageQueue`; the cap and the nudge are this project's profile.
    pub fn wait_next<R: Wait + time::Clock, C: Clock>(
        &mut self,
        rt: &R,
        queue: &SharedQueue<K, E>,
        clock: &C,
        start: u64,
        idle_owed: bool,
        cap: Option<u64>,
    ) -> Waited<K>
        requires queue { IsOf self.old queue.now }
        requires free { queue.now.constants.setting.lockstep ≡ false }
        ensures same { HasStayed self.old self.new }
        ensures done { WaitedBy (C.shows clock.now) start idle_owed cap self.old self.new result }
        ensures home { WaitsAtHome K.home queue.now.constants.home result }
        ensures claims { WaitsAsAccepted self.new.view.claims result }
    {
        for _ in rt.forever() {
            let heard = queue.rings.heard(rt, &*self, cap);
            match self.look(rt, queue, clock, start, idle_owed, cap) {
                Look::Ends(waited) => return waited,
                Look::Sleeps { limit } => queue.rings.wait(rt, &*self, heard, limit),
            }
        }
        unreachable!()
    }

    // One look at a moment of the clock.
    fn look<R: Wait, C: Clock>(
        &mut self,
        rt: &R,
        queue: &SharedQueue<K, E>,
        clock: &C,
        start: u64,
        idle_owed: bool,
        cap: Option<u64>,
    ) -> Look<K>
        requires queue { IsOf self.old queue.now }
        ensures queue { IsOf self.new queue.now }
        ensures done { LooksOnce (C.shows clock.now) start idle_owed cap self.old self.new result }
        ensures home { LooksOnceAtHome K.home queue.now.constants.home result }
        ensures claims { LooksOnceAsAccepted self.new.view.claims result }
    {
        let now = clock.uptime_millis().saturating_sub(start);
        match self.next(rt, queue, now, idle_owed) {
            Nexted::Taken { number, now, node } => Look::Ends(Waited::Taken { number, now, node }),
            Nexted::Idle => Look::Ends(Waited::Idle),
            Nexted::Wait { until } => self.stay(queue, now, until, cap),
            Nexted::End(left) => Look::Ends(Waited::End(left)),
            Nexted::Over => Look::Ends(Waited::Over),
        }
    }

    // After a look that is to wait: the cap, or else what the bell says.
    fn stay(
        &mut self,
        queue: &SharedQueue<K, E>,
        now: u64,
        until: Option<u64>,
        cap: Option<u64>,
    ) -> Look<K>
        requires queue { IsOf self.old queue.now }
        ensures { Stays cap now until self.old self.new result }
    {
        if has_come(cap, now) {
            return Look::Ends(Waited::Cap { now });
        }
        let before = self.heard();
        if self.listen(queue) != before {
            return Look::Ends(Waited::Nudged);
        }
        Look::Sleeps {
            limit: until_earlier(now, until, cap),
        }
    }
}
