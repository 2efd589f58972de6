//! The parts of one frame.
ghost use Rattle.std.specs.Prelude.{◌≡◌, ◌<◌, map, OnOk};
ghost use Rattle.choreographer.specs.Known.{MayBegin};
ghost use Rattle.choreographer.specs.Within.{MayTake};
ghost use Rattle.dash_loopers.specs.FrameParts.{ShowsBatch, ShowsPhase, ShowsPhases};
ghost use Rattle.dash_loopers.specs.Places.{RootRuns};
ghost use Rattle.dash_loopers.specs.Steps.{ShowsBy, PostsByHost, LeavesHost};

use crate::view_root::ViewRoot;
use choreographer::{Choreographer, FramePass};
use dash_hall::{Host, Uptime};
use frame_phases::{Beginning, Callback, Took};
use loop_model::NoMemory;
use std::sync::Wait;

impl ViewRoot {
    /// Begins the frame that is to begin, unless it would go back, and takes each of its phases and runs its callbacks, which post by
    /// the same pass. A frame that is in progress is one that found no memory.
    pub(crate) fn do_frame<R: Wait, U: Uptime>(
        &mut self,
        c: &Choreographer,
        pass: &mut FramePass,
        host: &mut Host<R, U>,
        phases: u32,
    ) -> Result<(), NoMemory>
        requires by { ShowsBy c.now host.old pass.old }
        requires begins { MayBegin pass.old c.now }
        requires phases { phases ≡ c.now.constants.phases }
        ensures keeps { LeavesHost host.old host.new pass.old pass.new }
        ensures ran { OnOk result (RootRuns c.now (U.is_moment host.old.uptime.now) pass.old pass.new host.old host.new self.old self.new) }
    {
        match host.begin_frame(c, pass) {
            Beginning::Began { time: _ } => self.run_phases(c, pass, host, phases),
            Beginning::Running { next: _ } => Err(NoMemory),
            Beginning::Unscheduled => Ok(()),
            Beginning::Backwards { last: _ } => Ok(()),
            Beginning::NoMemory => Err(NoMemory),
        }
    }

    /// Takes each phase of the frame that the pass has begun, and runs what it took.
    fn run_phases<R: Wait, U: Uptime>(
        &mut self,
        c: &Choreographer,
        pass: &mut FramePass,
        host: &mut Host<R, U>,
        phases: u32,
    ) -> Result<(), NoMemory>
        requires by { ShowsBy c.now host.old pass.old }
        requires takes { MayTake c.now 0 pass.old }
        requires phases { phases ≡ c.now.constants.phases }
        ensures keeps { LeavesHost host.old host.new pass.old pass.new }
        ensures ran { OnOk result (ShowsPhases c.now (U.is_moment host.old.uptime.now) phases pass.old pass.new host.old host.new self.old self.new) }
    {
        for phase in 0..phases {
            self.run_phase(c, pass, host, phase)?;
        }
        Ok(())
    }

    /// Takes this phase, and runs what it took.
    fn run_phase<R: Wait, U: Uptime>(
        &mut self,
        c: &Choreographer,
        pass: &mut FramePass,
        host: &mut Host<R, U>,
        phase: u32,
    ) -> Result<(), NoMemory>
        requires by { ShowsBy c.now host.old pass.old }
        requires takes { MayTake c.now phase pass.old × (phase < c.now.constants.phases) }
        ensures keeps { LeavesHost host.old host.new pass.old pass.new }
        ensures ran { OnOk result (ShowsPhase c.now (U.is_moment host.old.uptime.now) phase pass.old pass.new host.old host.new self.old self.new) }
    {
        match host.take_phase(c, pass, phase) {
            Took::Batch { time: _, callbacks } => {
                self.run_batch(c, pass, host, callbacks.as_slice())
            }
            Took::Elsewhere { next: _ } => unreachable!(),
            Took::NoMemory => Err(NoMemory),
        }
    }

    /// Runs the callbacks that a phase took.
    fn run_batch<R: Wait, U: Uptime>(
        &mut self,
        c: &Choreographer,
        pass: &mut FramePass,
        host: &mut Host<R, U>,
        callbacks: &[Callback],
    ) -> Result<(), NoMemory>
        requires by { ShowsBy c.now host.old pass.old }
        ensures keeps { PostsByHost host.old host.new pass.old pass.new }
        ensures ran { OnOk result (ShowsBatch (map (λ d. d.id) callbacks.now) host.old host.new pass.old pass.new self.old self.new) }
    {
        for callback in callbacks {
            self.run_callback(c, pass, host, callback.id)?;
        }
        Ok(())
    }
}
