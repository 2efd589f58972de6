//! The flag by which a run is given up.
ghost use Rattle.std.specs.Prelude.{◌≡◌, Bool};

use std::marker::Model;
use std::sync::{Condvar, Mutex, Wait};
use std::time::{Clock, Duration};

/// Whether a run is given up, and who waits while it isn't. Once it is, it stays so. The flag stands behind a lock, so contracts see what a
/// look found and not the flag.
#[derive(Drop)]
pub struct Stop {
    stopped: Mutex<bool>,
    woken: Condvar,
}

impl Stop {
    /// The flag of a run that goes on.
    pub fn new() -> Stop {
        Stop {
            stopped: Mutex::new(false),
            woken: Condvar::new(),
        }
    }

    /// Gives the run up, which ends all waits.
    pub fn stop<R: Wait>(&self, rt: &R) {
        let mut stopped = self.stopped.lock(rt);
        *stopped = true;
        drop(stopped);
        self.woken.notify_all();
    }

    /// Waits while the run goes on, at most so many milliseconds. It may end for no reason.
    pub(crate) fn wait<R: Wait + Clock>(&self, rt: &R, millis: u64) {
        let stopped = self.stopped.lock(rt);
        if *stopped {
            return;
        }
        self.woken
            .wait_timeout(rt, stopped, Duration::from_millis(millis));
    }

    /// A look at the flag.
    pub fn look<R: Wait>(&self, rt: &R) -> Look {
        Look {
            stopped: *self.stopped.lock(rt),
        }
    }

    /// Whether the run is given up.
    pub fn is_stopped<R: Wait>(&self, rt: &R) -> bool {
        self.look(rt).is_stopped()
    }
}

/// One look at the flag of a run, good for one command: whether the run was given up. Only a look makes one.
#[derive(Drop)]
pub struct Look {
    stopped: bool,
}

impl Model for Look {
    ghost Value = { Bool };

    ghost view = { λ l. l.stopped };
}

impl Look {
    /// Whether the run was given up.
    pub fn is_stopped(&self) -> bool
        ensures { result ≡ self.now }
    {
        self.stopped
    }
}
