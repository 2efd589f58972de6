//! How a run is given up.
ghost use Rattle.dash_stage.specs.Controllers.{IsControllerIn, CanTurn, Controls, TurnsAlone};
ghost use Rattle.dash_stage.specs.GivingUp.{AreRung, IsRung, GivesRunUp, QuitsNow};
ghost use Rattle.dash_stage.specs.Stages.{IsStage};
ghost use Rattle.dash_stage.specs.Steps.{HasGivenUp};

use crate::control::{Controller, quit_by};
use crate::means::Means;
use crate::side::{Turn, run_loopers};
use crate::stage::Stage;
use dash_hall::Hall;
use dash_script::Script;
use loop_io::Gate;
use loop_model::NoMemory;
use std::sync::Wait;
use std::thread::Threads;

impl Stage {
    /// Gives the run up, since a sender found no memory: the flag is set, main is nudged, and the controller quits each other looper
    /// plainly, whatever comes of it. These run a round, which ends with their disposal, when out of memory, or at the flag. Answers
    /// false where a quit found no memory.
    pub(crate) fn give_up<R: Threads + Wait + Sync, G: Gate + Sync>(
        &mut self,
        means: &Means<R, G>,
        script: &Script,
    ) -> bool
        requires stage { IsStage script.now self.old }
        ensures { HasGivenUp script.now self.old self.new result }
    {
        let quit = self
            .controller
            .give_up(means.rt, &self.hall, script, self.time);
        let _ = run_loopers(
            means,
            &self.hall,
            script,
            self.time,
            Turn::Others,
            1,
            self.loopers.as_mut_slice(),
        );
        quit
    }
}

impl Controller {
    /// Sets the flag by which the run is given up, nudges main, and quits each other looper plainly at this time, in milliseconds.
    /// Answers false where a quit found no memory; the others are made all the same.
    pub(crate) fn give_up<R: Wait>(
        &mut self,
        rt: &R,
        hall: &Hall,
        script: &Script,
        now: u64,
    ) -> bool
        requires at { CanTurn hall.now.lockstep script.now hall.now 0 self.old }
        ensures { GivesRunUp now script.now hall.now self.old self.new result }
    {
        hall.stop.stop(rt);
        self.ring(rt, hall, script, 0);
        let mut done = true;
        for looper in 1..script.loopers {
            done &= self.quit_now(rt, hall, script, looper as usize, false, now);
        }
        done
    }

    /// Rings the bell of each looper, which looks at the flag then.
    pub(crate) fn ring_all<R: Wait>(&mut self, rt: &R, hall: &Hall, script: &Script)
        requires { Controls hall.now.lockstep script.now hall.now self.old }
        ensures controller { IsControllerIn hall.now.lockstep script.now hall.now self.new }
        ensures rung { AreRung script.now.loopers self.old self.new }
    {
        for looper in 0..script.loopers {
            self.ring(rt, hall, script, looper as usize);
        }
    }

    /// Rings the bell of a looper.
    fn ring<R: Wait>(&mut self, rt: &R, hall: &Hall, script: &Script, place: usize)
        requires at { CanTurn hall.now.lockstep script.now hall.now place self.old }
        ensures alone { TurnsAlone hall.now.lockstep script.now hall.now place self.old self.new }
        ensures rung { IsRung place self.old self.new }
    {
        self.kit.posters[place].nudge(rt, &hall.queues[place]);
    }

    /// Quits a looper at this moment, in milliseconds, safely or plainly. Answers false where it found no memory.
    pub(crate) fn quit_now<R: Wait>(
        &mut self,
        rt: &R,
        hall: &Hall,
        script: &Script,
        place: usize,
        safe: bool,
        now: u64,
    ) -> bool
        requires at { CanTurn hall.now.lockstep script.now hall.now place self.old }
        ensures { QuitsNow safe now script.now hall.now place self.old self.new result }
    {
        let Ok(()) = quit_by(
            rt,
            &hall.queues[place],
            &mut self.kit.posters[place],
            &hall.pool,
            &mut self.kit.pass,
            safe,
            now,
        ) else {
            return false;
        };
        true
    }
}
