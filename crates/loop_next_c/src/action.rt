// What a loop is to do.
ghost use Rattle.std.specs.Prelude.{◌≡◌};
ghost use Rattle.loop_next_c.specs.Actions.{owes_idle};

/// The events that wait are handled.
pub(crate) const EVENTS: u32 = 1;

/// The pulse is delivered.
pub(crate) const VSYNC: u32 = 2;

/// The frame runs that has no message.
pub(crate) const FRAME: u32 = 3;

/// The queue is looked at.
pub(crate) const LOOK: u32 = 4;

/// The message that was taken is handled.
pub(crate) const MESSAGE: u32 = 5;

/// The idle handlers run.
pub(crate) const IDLE_TURN: u32 = 6;

/// The loop waits.
pub(crate) const WAIT: u32 = 7;

/// The loop stops.
pub(crate) const STOP: u32 = 8;

/// What a message loop does next.
#[repr(C)]
#[derive(Clone, Copy, Debug, PartialEq, Eq)]
pub struct Action {
    /// Until when it waits, in nanoseconds of its clock; `u64::MAX` without limit, and 0 where it doesn't wait.
    pub until: u64,
    /// Which action it is.
    pub kind: u32,
}

/// A message makes an idle turn owed, and such a turn ends that (`pendingIdleHandlerCount` of AOSP's `MessageQueue.next`).
pub(crate) fn owes_idle(kind: u32, before: bool) -> bool
    ensures { result ≡ owes_idle kind before }
{
    if kind == MESSAGE {
        return true;
    }
    if kind == IDLE_TURN {
        return false;
    }
    before
}
