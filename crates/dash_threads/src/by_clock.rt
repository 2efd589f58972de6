//! A thread that runs its blocks by a clock.
ghost use Rattle.std.specs.Prelude.{◌≡◌, true, false, IfOk, IfErr};
ghost use Rattle.run_model.specs.Moments.{IsUptime};
ghost use Rattle.run_model.specs.Planned.{lines_of};
ghost use Rattle.dash_threads.specs.AtWork.{IsAtWork, StaysAtWork, RunsUnlessGivenUp, RunsLines, RingsBells};
ghost use Rattle.dash_threads.specs.Threads.{RunsLine, TakesAt, Continues, RunsAll, one_pass_more};
ghost use Rattle.run_model.specs.ByClock.{in_free_mode};
ghost use Rattle.run_model.specs.Parts.{lines_in};
ghost use Rattle.dash_threads.specs.Threads.{rungs_of, one_more_at, more_for, looper_woken};

use crate::thread::{PostingThread, Timed};
use dash_hall::{Hall, Look, Timer};
use dash_script::{Block, Command, Script};
use loop_io::{Clock, Gate};
use std::alloc::Global;
use std::sync::Wait;
use std::time;

/// How a run by a clock is paced.
#[derive(Drop)]
struct Pace<'a, G: Gate, C: Clock> {
    gate: &'a G,
    timer: &'a Timer<'a, C>,
}

impl PostingThread {
    /// Runs all its commands, those of a block in the order of their lines and none before the block's time in milliseconds. Each waits
    /// for that time, passes the gate, and goes by a moment of the clock. Where the run is given up, or one finds no memory, the thread
    /// gives up. One that has given up stays as it is.
    pub fn run_by_clock<R: Wait + time::Clock, C: Clock, G: Gate>(
        &mut self,
        rt: &R,
        alloc: Global,
        hall: &Hall,
        script: &Script,
        gate: &G,
        timer: &Timer<C>,
    )
        requires at_work { IsAtWork script.now hall.now self.old }
        requires mode { hall.now.lockstep ≡ false }
        ensures { RunsLines script.now hall.now (lines_of self.old.number script.now.blocks)
            (RunsAll (in_free_mode (C.shows timer.now.clock.now) timer.now.start) script.now) self.old self.new }
    {
        let pace = Pace { gate, timer };
        for block in script.blocks.as_slice() {
            self.run_block_by_clock(rt, alloc, hall, script, &pace, block);
        }
    }

    /// Runs its commands of a block, each at the block's time or later.
    fn run_block_by_clock<R: Wait + time::Clock, C: Clock, G: Gate>(
        &mut self,
        rt: &R,
        alloc: Global,
        hall: &Hall,
        script: &Script,
        pace: &Pace<G, C>,
        block: &Block,
    )
        requires at_work { IsAtWork script.now hall.now self.old }
        requires mode { hall.now.lockstep ≡ false }
        ensures { RunsLines script.now hall.now (lines_in self.old.number block.now)
            (Continues (in_free_mode (C.shows pace.now.timer.now.clock.now) pace.now.timer.now.start) script.now block.now) self.old self.new }
    {
        for line in block.lines.as_slice() {
            if line.thread == self.number {
                let timed = Timed {
                    now: block.time,
                    command: line.command,
                };
                self.run_line_by_clock(rt, alloc, hall, script, pace, timed);
            }
        }
    }

    /// Runs a command at this time, in milliseconds, or later, unless it has given up. Where the run is given up it gives up too.
    fn run_line_by_clock<R: Wait + time::Clock, C: Clock, G: Gate>(
        &mut self,
        rt: &R,
        alloc: Global,
        hall: &Hall,
        script: &Script,
        pace: &Pace<G, C>,
        timed: Timed,
    )
        requires at_work { IsAtWork script.now hall.now self.old }
        requires mode { hall.now.lockstep ≡ false }
        ensures runs { RunsUnlessGivenUp script.now hall.now self.old self.new }
        ensures passed { self.new.gave_up ≡ false → self.new.passed ≡ one_pass_more self.old.passed }
        ensures made { self.new.gave_up ≡ false → RunsLine (in_free_mode (C.shows pace.now.timer.now.clock.now) pace.now.timer.now.start) script.now
            (record { time = timed.now; command = timed.command }) self.old self.new }
        ensures rung { self.new.gave_up ≡ false → rungs_of self.new ≡ more_for (looper_woken timed.command) (rungs_of self.old) }
    {
        if self.gave_up {
            return;
        }
        let Ok(now) = self.wait_for(rt, hall, pace, timed.now) else {
            self.gave_up = true;
            return;
        };
        let command = timed.command;
        self.run_at(rt, alloc, hall, script, Timed { now, command });
    }

    /// Waits for this time, in milliseconds, passes the gate, and answers a moment of the clock that is no earlier, or the look that found
    /// the run given up.
    fn wait_for<R: Wait + time::Clock, C: Clock, G: Gate>(
        &mut self,
        rt: &R,
        hall: &Hall,
        pace: &Pace<G, C>,
        time: u64,
    ) -> Result<u64, Look>
        ensures same { self.new ≡ record self.old { passed = self.new.passed } }
        ensures passed { IfOk result (λ now. self.new.passed ≡ one_pass_more self.old.passed) }
        ensures moment { IfOk result (IsUptime (in_free_mode (C.shows pace.now.timer.now.clock.now) pace.now.timer.now.start) time) }
        ensures given_up { IfErr result (λ look. look ≡ true) }
    {
        pace.timer.wait_until(rt, &hall.stop, time)?;
        pace.gate.pass(self.number, self.passed);
        self.passed = self.passed.saturating_add(1);
        pace.timer.wait_until(rt, &hall.stop, time)
    }

    /// Runs a command at this moment, in milliseconds, unless the run is given up, and rings the bell of the looper that it asks for a frame
    /// or hands an event.
    fn run_at<R: Wait>(&mut self, rt: &R, alloc: Global, hall: &Hall, script: &Script, timed: Timed)
        requires at_work { IsAtWork script.now hall.now self.old }
        ensures same { StaysAtWork script.now hall.now self.old self.new }
        ensures made { self.new.gave_up ≡ false → TakesAt hall.now.lockstep script.now timed.now timed.command self.old self.new }
        ensures rung { self.new.gave_up ≡ false → rungs_of self.new ≡ more_for (looper_woken timed.command) (rungs_of self.old) }
    {
        let look = hall.stop.look(rt);
        let command = timed.command;
        self.run_unless_stopped(rt, alloc, hall, script, timed, look);
        self.nudge_for(rt, hall, script, command);
    }

    /// Rings the bell of the looper that a command asks for a frame, or hands an event.
    fn nudge_for<R: Wait>(&mut self, rt: &R, hall: &Hall, script: &Script, command: Command)
        requires at_work { IsAtWork script.now hall.now self.old }
        ensures { RingsBells script.now hall.now (more_for (looper_woken command) (rungs_of self.old)) self.old self.new }
    {
        match woken_by(command) {
            Some(looper) => self.nudge(rt, hall, script, looper),
            None => {}
        }
    }

    /// Rings the bell of this looper.
    pub(crate) fn nudge<R: Wait>(&mut self, rt: &R, hall: &Hall, script: &Script, looper: u32)
        requires at_work { IsAtWork script.now hall.now self.old }
        ensures { RingsBells script.now hall.now (one_more_at looper (rungs_of self.old)) self.old self.new }
    {
        let place = looper as usize;
        if place >= self.kit.posters.len() {
            return;
        }
        if place >= hall.queues.len() {
            return;
        }
        self.kit.posters[place].nudge(rt, &hall.queues[place]);
    }
}

/// The looper that has to look again: that which a command asks for a frame, or hands an event.
fn woken_by(command: Command) -> Option<u32>
    ensures { result ≡ looper_woken command }
{
    match command {
        Command::Frame { looper, .. } => Some(looper),
        Command::Event { looper, .. } => Some(looper),
        Command::Post { .. } | Command::PostAsync { .. } | Command::Front { .. } => None,
        Command::Callback { .. } | Command::Set { .. } | Command::Remove { .. } => None,
        Command::RemoveCallback { .. } | Command::RemoveAll { .. } => None,
        Command::Barrier { .. } | Command::Unbarrier { .. } => None,
        Command::Quit { .. } | Command::QuitSafely { .. } => None,
        Command::Idle { .. } | Command::Watch { .. } | Command::Unframe { .. } => None,
    }
}
