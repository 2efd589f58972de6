//! A run of values.
ghost use Rattle.std.specs.Prelude.{IfOk, string_bytes};
ghost use Rattle.value_animator.specs.Plans.{AreValues};
ghost use Rattle.value_animator.specs.Run.{IsRunOf};
ghost use Rattle.value_animator.specs.Going.{FramesHaveRun, RunsTo};

use crate::frames::{ANIMATION, PHASES, run_frame};
use crate::plan::Values;
use crate::runner::runners;
use frame_phases::{FrameRecord, FrameState};
use loop_model::NoMemory;
use std::alloc::Global;
use std::fmt::Write;

/// All things have ended by then, since frames are a millisecond apart at least.
const MOST_FRAMES: u64 = 60_001;

/// What a run gives.
#[derive(Debug, Drop)]
pub enum ValuesRan {
    /// What was told, and the frames in which it was told.
    Ok { text: Vec<u8>, frames: FrameRecord },
    /// There was no memory.
    NoMemory,
}

/// Runs frames until all things have ended, and writes what they tell.
fn run_frames(alloc: Global, out: &mut String, values: &Values) -> Result<FrameState, NoMemory>
    requires { AreValues values.now }
    ensures { IfOk result (λ frames. FramesHaveRun values.now (string_bytes out.old) (string_bytes out.new) frames) }
{
    let mut things = runners(alloc, values.things.as_slice())?;
    let mut frames = FrameState::new(alloc, 0, values.period, PHASES)?;
    if values.things.is_empty() {
        return Ok(frames);
    }
    frames.post(ANIMATION, 0, 0, None, 0)?;
    for _number in 0..MOST_FRAMES {
        let Some(pulse) = frames.asked() else {
            unreachable!()
        };
        if run_frame(&mut frames, &mut things, out, pulse)? {
            return Ok(frames);
        }
    }
    unreachable!()
}

fn run(alloc: Global, values: &Values) -> Result<(Vec<u8>, FrameRecord), NoMemory>
    requires { AreValues values.now }
    ensures { IfOk result (λ made. IsRunOf values.now made.0.items made.1) }
{
    let mut out = String::new(alloc);
    writeln!(out, "values 1")?;
    let frames = run_frames(alloc, &mut out, values)?;
    writeln!(out, "end")?;
    Ok((out.into_bytes(), frames.into_kept()))
}

/// Runs all things over frames at each multiple of the period, the first at the period itself, until all have ended, and
/// gives the text of what they tell. Each frame's time, in nanoseconds, is its vsync stamp, its start and the moment of its
/// takes. Its one callback runs in the animation phase, asks the things by rising number, and posts itself again while one has not
/// ended. Without things there is no frame. `NoMemory` where there was none.
pub fn run_values(alloc: Global, values: &Values) -> ValuesRan
    requires { AreValues values.now }
    ensures { RunsTo result values.now }
{
    match run(alloc, values) {
        Ok((text, frames)) => ValuesRan::Ok { text, frames },
        Err(NoMemory) => ValuesRan::NoMemory,
    }
}
