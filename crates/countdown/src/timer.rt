//! The countdown.
ghost use Rattle.std.specs.Prelude.{◌≡◌, ◌<◌, ◌++◌, ◌∷◌, [], List, ℕ};
ghost use Rattle.countdown.specs.Given.{WasGiven};
ghost use Rattle.countdown.specs.Ticking.{countdown_answer};

use crate::span::Span;
use std::marker::Model;

/// What a countdown tells at a frame.
#[derive(Clone, Copy, Debug, PartialEq, Eq)]
pub enum Ticked {
    /// The first frame, or one that is in a later interval than the frame before: so many milliseconds are left (`onTick`).
    Tick { left: u64 },
    /// The frame is in the same interval as the one before.
    Quiet,
    /// The first frame at which no time is left (`onFinish`).
    Finished,
    /// The end was told at a frame before.
    Over,
}

/// A countdown of so many milliseconds from its first frame on, with a tick in each interval, after Android's `CountDownTimer`.
/// It runs over frame times in place of messages of its own (this project's profile).
#[derive(Debug, Drop)]
pub struct Countdown {
    total: u64,
    interval: u64,
    span: Span,
}

impl Model for Countdown {
    ghost use Rattle.std.specs.Prelude.{◌<◌};
    ghost use Rattle.countdown.specs.Given.{Counting};

    ghost Value = { Counting };

    ghost view = { λ s. record { total = s.total; interval = s.interval; span = s.span } };

    ghost invariant = { λ s. 0 < s.interval };
}

impl Countdown {
    /// A countdown that was given no frame yet, of `total` milliseconds, with a tick each `interval` milliseconds, which is not 0.
    pub fn new(total: u64, interval: u64) -> Countdown
        requires { 0 < interval }
        ensures total { result.total ≡ total }
        ensures interval { result.interval ≡ interval }
        ensures given { WasGiven result [] }
    {
        Countdown {
            total,
            interval,
            span: Span::new(),
        }
    }

    /// What the countdown tells at a frame of this time, in nanoseconds of uptime. The time that has elapsed is counted in whole
    /// milliseconds from the first frame time to the greatest. `Finished` comes at the first frame at which all of the total has
    /// elapsed, and `Over` at each frame after it. Before that `Tick` comes at the first frame, and at each frame that has
    /// more whole intervals behind it than the frame before; else `Quiet`. Takes no memory.
    pub fn on_frame(&mut self, time: u64) -> Ticked
        ensures answer { (times : List ℕ) → WasGiven self.old times → result ≡ countdown_answer self.old.total self.old.interval times time }
        ensures given { (times : List ℕ) → WasGiven self.old times → WasGiven self.new (times ++ time ∷ []) }
        ensures total { self.new.total ≡ self.old.total }
        ensures interval { self.new.interval ≡ self.old.interval }
    {
        let before = self.span.elapsed();
        let now = self.span.give(time);
        if let Some(elapsed) = before {
            if elapsed >= self.total {
                return Ticked::Over;
            }
        }
        if now >= self.total {
            return Ticked::Finished;
        }
        let left = self.total - now;
        match before {
            None => Ticked::Tick { left },
            Some(elapsed) => {
                if elapsed / self.interval < now / self.interval {
                    Ticked::Tick { left }
                } else {
                    Ticked::Quiet
                }
            }
        }
    }
}
