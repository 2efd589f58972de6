//! What runs over frames. Times are whole milliseconds of frame time, the period between frames is nanoseconds.
use animator::Plan;
use loop_model::Sequence;

/// What runs over frames.
#[derive(Debug, Drop)]
pub enum Thing {
    /// An animator with its plan.
    Animator(Plan),
    /// A countdown of `total` milliseconds, 0 to 60,000, with a tick each `interval` milliseconds, 1 to 60,000.
    Countdown { total: u64, interval: u64 },
}

/// A plan of values: at most 16 things, and how often frames come.
#[derive(Debug, Drop)]
pub struct Values {
    /// Nanoseconds between frames, 1,000,000 to 1,000,000,000.
    pub period: u64,
    /// At most 16 things. Thing `k` is the `k`-th, counted from 0.
    pub things: Sequence<Thing>,
}
