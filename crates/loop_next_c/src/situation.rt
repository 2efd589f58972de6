// What a loop is asked about.
ghost use Rattle.std.specs.Prelude.{◌≡◌, ◌==◌, not};
ghost use Rattle.loop_next_c.specs.Actions.{next_action, has_stopped, is_pulse_due, is_to_look, not_looked, owes_idle};
ghost use Rattle.loop_next_c.specs.Waits.{until, queue_wake, pulse_wake};

use crate::action::{EVENTS, FRAME, IDLE_TURN, LOOK, MESSAGE, STOP, VSYNC, WAIT, owes_idle};
use crate::{NANOS_PER_MILLI, NEVER};

/// The queue was not looked at yet.
const NOT_LOOKED: u32 = 0;

/// A message was taken out.
const TAKEN: u32 = 16;

/// An idle turn is to run.
const IDLE: u32 = 17;

/// The queue waits until a time.
const WAITS: u32 = 18;

/// The queue waits without limit.
const WAITS_FOREVER: u32 = 19;

/// How a loop stands, as its thread sees it under its lock.
#[repr(C)]
#[derive(Clone, Copy, Debug, PartialEq, Eq)]
pub struct Situation {
    /// The moment of the loop's clock, in nanoseconds.
    pub moment: u64,
    /// Until when the queue waits, in milliseconds of that clock; counts only where the look says so.
    pub time: u64,
    /// The pulse that is asked for, in nanoseconds; counts only where `has_pulse` is set.
    pub pulse: u64,
    /// The kind of what the queue answered to a look, or 0 where something was done since.
    pub look: u32,
    /// Whether a pulse is asked for that the loop delivers by its own timer.
    pub has_pulse: bool,
    /// Whether a frame is to run, or to go on, that has no message.
    pub frame_owed: bool,
    /// Whether events of watched descriptors wait to be handled.
    pub events: bool,
    /// Whether the next look is told that an idle turn is owed.
    pub idle_owed: bool,
}

impl Situation {
    // The queue has ended, or answers no look any more.
    fn has_stopped(&self) -> bool
        ensures { result ≡ has_stopped self.now.look }
    {
        let stands = (self.look == NOT_LOOKED) | (self.look == TAKEN) | (self.look == IDLE);
        !(stands | (self.look == WAITS) | (self.look == WAITS_FOREVER))
    }

    fn is_pulse_due(&self) -> bool
        ensures { result ≡ is_pulse_due self.now }
    {
        self.has_pulse & (self.pulse <= self.moment)
    }

    // When the queue's time comes, or never.
    fn queue_wake(&self) -> u64
        ensures { result ≡ queue_wake self.now }
    {
        if self.look == WAITS {
            return self.time.saturating_mul(NANOS_PER_MILLI);
        }
        NEVER
    }

    // When the pulse comes, or never.
    fn pulse_wake(&self) -> u64
        ensures { result ≡ pulse_wake self.now }
    {
        if self.has_pulse {
            return self.pulse;
        }
        NEVER
    }

    // The queue is to be looked at: it was not yet, or its time has come.
    fn is_to_look(&self) -> bool
        ensures { result ≡ is_to_look self.now }
    {
        let due = (self.look == WAITS) & (self.time <= self.moment / NANOS_PER_MILLI);
        (self.look == NOT_LOOKED) | due
    }

    /// The action that comes next.
    pub(crate) fn kind(&self) -> u32
        ensures { result ≡ next_action self.now }
    {
        if self.look == TAKEN {
            return MESSAGE;
        }
        if self.look == IDLE {
            return IDLE_TURN;
        }
        if self.has_stopped() {
            return STOP;
        }
        if self.events {
            return EVENTS;
        }
        if self.is_pulse_due() {
            return VSYNC;
        }
        if self.frame_owed {
            return FRAME;
        }
        if self.is_to_look() {
            return LOOK;
        }
        WAIT
    }

    /// Leaves it as it is once this action is taken: no look stands any more.
    pub(crate) fn go_on(&mut self, kind: u32)
        ensures { self.new ≡ record self.old { look = not_looked; idle_owed = owes_idle kind self.old.idle_owed } }
    {
        self.look = NOT_LOOKED;
        self.idle_owed = owes_idle(kind, self.idle_owed);
    }

    /// Until when the action waits: 0 but for a wait.
    pub(crate) fn until(&self, kind: u32) -> u64
        ensures { result ≡ until kind self.now }
    {
        if kind == WAIT {
            return self.queue_wake().min(self.pulse_wake());
        }
        0
    }
}
