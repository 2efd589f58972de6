// A countdown in the caller's memory.
ghost use Rattle.std.specs.Prelude.{◌≡◌, ◌<◌, List, ℕ};
ghost use Rattle.countdown.specs.Given.{WasGiven};
ghost use Rattle.countdown_c.specs.Shown.{counting, Takes};

use countdown::Countdown;

/// A countdown: what it was made with, and the first and the greatest of the frame times that it was given.
#[repr(C)]
#[derive(Clone, Copy, Debug, PartialEq, Eq)]
pub struct FrameTimer {
    /// How long it counts, in milliseconds.
    pub total: u64,
    /// How long an interval is, in milliseconds.
    pub interval: u64,
    /// The first frame time, in nanoseconds; counts only where `begun` is set.
    pub first: u64,
    /// The greatest frame time, in nanoseconds; counts only where `begun` is set.
    pub latest: u64,
    /// Whether it was given a frame time.
    pub begun: bool,
}

impl FrameTimer {
    /// A countdown that was given the same times: those two tell all that it keeps of them.
    pub(crate) fn countdown(&self) -> Countdown
        requires { 0 < self.now.interval }
        ensures total { result.total ≡ self.now.total }
        ensures interval { result.interval ≡ self.now.interval }
        ensures given { (times : List ℕ) → WasGiven (counting self.now) times → WasGiven result times }
    {
        let mut countdown = Countdown::new(self.total, self.interval);
        if self.begun {
            countdown.on_frame(self.first);
            countdown.on_frame(self.latest);
        }
        countdown
    }

    /// Takes one time more.
    pub(crate) fn give(&mut self, time: u64)
        ensures given { Takes self.old time self.new }
        ensures total { self.new.total ≡ self.old.total }
        ensures interval { self.new.interval ≡ self.old.interval }
    {
        if self.begun {
            self.latest = self.latest.max(time);
            return;
        }
        self.first = time;
        self.latest = time;
        self.begun = true;
    }
}
