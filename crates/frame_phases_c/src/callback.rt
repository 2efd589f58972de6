// A callback as C has it.
ghost use Rattle.std.specs.Prelude.{◌≡◌, Option};
ghost use Rattle.frame_phases_c.specs.Shown.{fields_of, token_where, number_or_0, no_callback};

use frame_phases::Callback;

/// A callback of a frame.
#[repr(C)]
#[derive(Clone, Copy, Debug, PartialEq, Eq)]
pub struct FrameCallback {
    /// The millisecond from which on it may run.
    pub due: u64,
    /// The user's code.
    pub id: u64,
    /// The token, where `has_token` is set.
    pub token: u64,
    /// The phase that it runs in.
    pub phase: u32,
    /// Whether it has a token.
    pub has_token: bool,
}

fn number_or_0(number: Option<u64>) -> u64
    ensures { result ≡ number_or_0 number }
{
    match number {
        Some(number) => number,
        None => 0,
    }
}

impl FrameCallback {
    pub(crate) fn nothing() -> FrameCallback
        ensures { result ≡ no_callback }
    {
        FrameCallback {
            due: 0,
            id: 0,
            token: 0,
            phase: 0,
            has_token: false,
        }
    }

    pub(crate) fn of(callback: &Callback) -> FrameCallback
        ensures { result ≡ fields_of callback.now }
    {
        FrameCallback {
            due: callback.due,
            id: callback.id,
            token: number_or_0(callback.token),
            phase: callback.phase,
            has_token: callback.token.is_some(),
        }
    }

    pub(crate) fn token(&self) -> Option<u64>
        ensures { result ≡ token_where self.now.has_token self.now.token }
    {
        if self.has_token {
            return Some(self.token);
        }
        None
    }
}
