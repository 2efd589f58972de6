//! The time that frames span.
ghost use Rattle.std.specs.Prelude.{◌≡◌, ◌++◌, ◌∷◌, [], List, ℕ, Some};
ghost use Rattle.std.specs.Option.{option_map};
ghost use Rattle.countdown.specs.Given.{milliseconds, span_of};

use std::marker::Model;

const NANOS_PER_MILLI: u64 = 1_000_000;

/// The first and the greatest of the frame times that were given, in nanoseconds, or nothing before the first. A frame time
/// that is earlier than another before it changes nothing (this project's profile).
#[derive(Debug, Drop)]
pub struct Span {
    ends: Option<(u64, u64)>,
}

impl Model for Span {
    ghost use Rattle.std.specs.Prelude.{Option, ℕ};

    ghost Value = { Option (ℕ × ℕ) };

    ghost view = { λ s. s.ends };
}

impl Span {
    /// No time was given yet.
    pub fn new() -> Self
        ensures { result ≡ span_of [] }
    {
        Span { ends: None }
    }

    /// Whole milliseconds from the first time to the greatest, the rest dropped. None before the first.
    pub fn elapsed(&self) -> Option<u64>
        ensures { result ≡ option_map milliseconds self.now }
    {
        match self.ends {
            None => None,
            Some((first, latest)) => Some(latest.saturating_sub(first) / NANOS_PER_MILLI),
        }
    }

    /// Takes one time more, in nanoseconds, and answers what then has elapsed, in whole milliseconds.
    pub fn give(&mut self, time: u64) -> u64
        ensures given { (times : List ℕ) → self.old ≡ span_of times → self.new ≡ span_of (times ++ time ∷ []) }
        ensures elapsed { option_map milliseconds self.new ≡ Some result }
    {
        let (first, latest) = match self.ends {
            None => (time, time),
            Some((first, latest)) => (first, latest.max(time)),
        };
        self.ends = Some((first, latest));
        latest.saturating_sub(first) / NANOS_PER_MILLI
    }
}
