//! What was done, and how long the longest call took.

use std::sync::{Condvar, Mutex, Wait};
use std::time::{Clock, Instant};

/// What was done.
#[derive(Clone, Copy)]
pub struct Soaked {
    /// How many messages were handled, or frame callbacks run.
    pub handled: u64,
    /// How many posts were refused.
    pub refused: u64,
    /// How many removals were made, which matched nothing.
    pub removals: u64,
    /// How long the longest call took, in nanoseconds of the monotonic clock.
    pub longest: u64,
}

impl Soaked {
    /// Nothing was done.
    pub fn none() -> Soaked {
        Soaked {
            handled: 0,
            refused: 0,
            removals: 0,
            longest: 0,
        }
    }

    /// A call that began then has ended.
    pub fn hear<R: Clock>(&mut self, rt: &R, began: Option<Instant>) {
        let (Some(began), Ok(now)) = (began, Instant::now(rt)) else {
            return;
        };
        let nanos = u64::try_from(now.duration_since(began).as_nanos()).unwrap_or(u64::MAX);
        self.longest = self.longest.max(nanos);
    }

    /// What both did.
    pub fn and(self, other: Soaked) -> Soaked {
        Soaked {
            handled: self.handled.saturating_add(other.handled),
            refused: self.refused.saturating_add(other.refused),
            removals: self.removals.saturating_add(other.removals),
            longest: self.longest.max(other.longest),
        }
    }
}

/// The time now, where the system tells it.
pub fn begin<R: Clock>(rt: &R) -> Option<Instant> {
    Instant::now(rt).ok()
}

/// How many of the threads' messages may wait at a time.
const MOST_WAITING: u64 = 64;

/// How many messages of the threads wait, so that the queue stays short.
#[derive(Drop)]
pub struct Window {
    waiting: Mutex<u64>,
    room: Condvar,
}

impl Window {
    /// Nothing waits.
    pub fn new() -> Window {
        Window {
            waiting: Mutex::new(0),
            room: Condvar::new(),
        }
    }

    /// One more waits, as soon as there is room.
    pub fn enter<R: Wait>(&self, rt: &R) {
        let mut waiting = self.room.wait_while(
            rt,
            self.waiting.lock(rt),
            |waiting| MOST_WAITING <= *waiting,
        );
        *waiting = waiting.saturating_add(1);
    }

    /// One less waits.
    pub fn leave<R: Wait>(&self, rt: &R) {
        let mut waiting = self.waiting.lock(rt);
        *waiting = waiting.saturating_sub(1);
        drop(waiting);
        self.room.notify_one();
    }
}
