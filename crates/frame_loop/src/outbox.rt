//! What a choreographer is to send its looper.
ghost use Rattle.std.specs.Prelude.{◌≡◌, IsTrue, true};
ghost use Rattle.frame_loop.specs.Screens.{shows_nanos};

use choreographer::{FrameHost, HostSent, NANOS_PER_MILLI, Sending, keep_sent};
use loop_io::Clock;

/// A looper as its choreographer sees it: a clock, and the messages that the looper is to be sent, in order. They are sent once the
/// dispatch is over in which they came up.
#[derive(Drop)]
pub struct FrameOutbox<'a, C: Clock> {
    /// The clock.
    pub clock: &'a C,
    /// What is to be sent.
    pub sent: Vec<Sending>,
}

impl<'a, C: Clock> FrameHost for FrameOutbox<'a, C> {
    ghost Ready = { λ h. IsTrue true };

    ghost Origin = { C };

    ghost origin = { λ h. h.clock.now };

    ghost is_moment = { λ h. shows_nanos (C.shows h.clock.now) };

    ghost sends = { λ h. h.sent.items };

    ghost Reads = { λ h n k. k ≡ h };

    fn now_nanos(&mut self) -> u64 {
        nanos(self.clock.uptime_millis())
    }

    fn send(&mut self, what: u32, arg: u32, when: u64) -> HostSent {
        keep_sent(&mut self.sent, what, arg, when)
    }
}

// This moment in nanoseconds, or the last one where it lies behind it.
fn nanos(millis: u64) -> u64
    ensures { (shows : _) → IsTrue (shows millis) → shows_nanos shows result ≡ true }
{
    millis.saturating_mul(NANOS_PER_MILLI)
}
