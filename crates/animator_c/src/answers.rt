// What an animator tells, as C has it.
ghost use Rattle.std.specs.Prelude.{◌≡◌};
ghost use Rattle.animator_c.specs.Shown.{shown, no_plan};

use animator::Valued;

/// The value at this frame.
const VALUE: u32 = 0;

/// All ways are done; the value stays.
const END: u32 = 1;

/// The end was told before.
const OVER: u32 = 2;

/// The animator's plan is out of its limits.
const NO_PLAN: u32 = 3;

/// What an animator tells at a frame: its kind, and the value where it has one.
#[repr(C)]
#[derive(Clone, Copy, Debug, PartialEq, Eq)]
pub struct ValueAnswer {
    /// The value, or 0.
    pub value: u32,
    /// Which answer it is.
    pub kind: u32,
}

pub(crate) fn no_plan() -> ValueAnswer
    ensures { result ≡ no_plan }
{
    ValueAnswer {
        value: 0,
        kind: NO_PLAN,
    }
}

pub(crate) fn shown(valued: Valued) -> ValueAnswer
    ensures { result ≡ shown valued }
{
    match valued {
        Valued::Value { value } => ValueAnswer { value, kind: VALUE },
        Valued::End { value } => ValueAnswer { value, kind: END },
        Valued::Over => ValueAnswer {
            value: 0,
            kind: OVER,
        },
    }
}
