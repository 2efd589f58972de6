//! What a host's clock shows.
ghost use Rattle.std.specs.Prelude.{◌≡◌, ◌==◌, ℕ, Bool, true};
ghost use Rattle.run_model.specs.FrameRecords.{nanos_of};

/// The uptime of a host, which it reads anew each time that it is asked for.
pub trait Uptime {
    /// A test that each uptime which it answers passes, in nanoseconds. Nothing else is known of an answer.
    ghost is_moment: { Self → ℕ → Bool };

    /// The uptime now, in milliseconds.
    fn now_millis(&self) -> u64
        ensures { is_moment self.now (nanos_of result) ≡ true };
}

/// An uptime that stands still, as that of a dispatch in lockstep does: it is always this millisecond.
#[derive(Drop)]
pub struct Still {
    /// The millisecond.
    pub now: u64,
}

impl Uptime for Still {
    ghost is_moment = { λ still n. n == nanos_of still.now };

    fn now_millis(&self) -> u64 {
        self.now
    }
}
