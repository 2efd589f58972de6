//! The uptime of a run by a clock.
ghost use Rattle.std.specs.Prelude.{◌≡◌, ◌≤◌, true, IfOk, IfErr};
ghost use Rattle.loop_io.specs.Moments.{IsMoment};
ghost use Rattle.dash_hall.specs.Uptimes.{is_shown};

use crate::stop::{Look, Stop};
use crate::uptime::Uptime;
use loop_io::Clock;
use std::sync::Wait;
use std::time;

/// A clock with its reading at the start of the run. A moment is a reading less that one, in milliseconds.
#[derive(Drop)]
pub struct Timer<'a, C: Clock> {
    /// The clock.
    pub clock: &'a C,
    /// Its reading at the start of the run, in milliseconds.
    pub start: u64,
}

impl<'a, C: Clock> Timer<'a, C> {
    /// It reads the clock once, for the start.
    pub fn new(clock: &'a C) -> Timer<'a, C>
        ensures clock { result.clock.now ≡ clock.now }
        ensures start { C.shows clock.now result.start ≡ true }
    {
        Timer {
            clock,
            start: clock.uptime_millis(),
        }
    }

    /// A moment now.
    pub fn now(&self) -> u64
        ensures { IsMoment (C.shows self.now.clock.now) self.now.start result }
    {
        self.clock.uptime_millis().saturating_sub(self.start)
    }

    /// Waits for this time, in milliseconds, and answers a moment that is no earlier, or the look that found the run given up.
    pub fn wait_until<R: Wait + time::Clock>(
        &self,
        rt: &R,
        stop: &Stop,
        time: u64,
    ) -> Result<u64, Look>
        ensures moment { IfOk result (IsMoment (C.shows self.now.clock.now) self.now.start) }
        ensures late { IfOk result (λ now. time ≤ now) }
        ensures given_up { IfErr result (λ look. look ≡ true) }
    {
        for _ in rt.forever() {
            let look = stop.look(rt);
            if look.is_stopped() {
                return Err(look);
            }
            let now = self.now();
            if time <= now {
                return Ok(now);
            }
            stop.wait(rt, time - now);
        }
        unreachable!()
    }
}

impl<'a, C: Clock> Uptime for Timer<'a, C> {
    ghost is_moment = { λ timer. is_shown (C.shows timer.clock.now) timer.start };

    fn now_millis(&self) -> u64 {
        self.clock.uptime_millis().saturating_sub(self.start)
    }
}
