// What a countdown tells, as C has it.
ghost use Rattle.std.specs.Prelude.{◌≡◌};
ghost use Rattle.countdown_c.specs.Shown.{shown, no_interval};

use countdown::Ticked;

/// So many milliseconds are left.
const TICK: u32 = 0;

/// The frame is in the same interval as the one before.
const QUIET: u32 = 1;

/// No time is left any more.
const FINISHED: u32 = 2;

/// The end was told before.
const OVER: u32 = 3;

/// The countdown's interval is 0.
const NO_INTERVAL: u32 = 4;

/// What a countdown tells at a frame: its kind, and how many milliseconds are left where it is a tick.
#[repr(C)]
#[derive(Clone, Copy, Debug, PartialEq, Eq)]
pub struct TickAnswer {
    /// How many milliseconds are left, or 0.
    pub left: u64,
    /// Which answer it is.
    pub kind: u32,
}

pub(crate) fn no_interval() -> TickAnswer
    ensures { result ≡ no_interval }
{
    TickAnswer {
        left: 0,
        kind: NO_INTERVAL,
    }
}

pub(crate) fn shown(ticked: Ticked) -> TickAnswer
    ensures { result ≡ shown ticked }
{
    match ticked {
        Ticked::Tick { left } => TickAnswer { left, kind: TICK },
        Ticked::Quiet => TickAnswer {
            left: 0,
            kind: QUIET,
        },
        Ticked::Finished => TickAnswer {
            left: 0,
            kind: FINISHED,
        },
        Ticked::Over => TickAnswer {
            left: 0,
            kind: OVER,
        },
    }
}
