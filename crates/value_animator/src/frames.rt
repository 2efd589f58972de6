//! The frames of a choreographer of its own, in which all things are asked.
ghost use Rattle.std.specs.Prelude.{◌≡◌, ◌<◌, OnOk, IfOk, Some, string_bytes};
ghost use Rattle.std.specs.List.{list_all};
ghost use Rattle.frame_phases.specs.Frames.{next_phase};
ghost use Rattle.frame_phases.specs.State.{past};
ghost use Rattle.value_animator.specs.Framing.{after_frame, begun, CanBegin, IsFrameReady, posted_again, taken_at};
ghost use Rattle.value_animator.specs.Runners.{is_ended, AreAsked, RunnersHaveTold};

use crate::runner::{Runner, ask_all, have_ended};
use frame_phases::{Beginning, FrameState, Took};
use loop_model::NoMemory;

const NANOS_PER_MILLI: u64 = 1_000_000;

const INPUT: u32 = 0;

pub(crate) const ANIMATION: u32 = 1;

const TRAVERSAL: u32 = 2;

const COMMIT: u32 = 3;

/// How many phases a frame has.
pub(crate) const PHASES: u32 = 4;

/// Begins the frame of this pulse, at its very moment.
fn begin(frames: &mut FrameState, pulse: u64) -> Result<(), NoMemory>
    requires { CanBegin frames.old pulse }
    ensures { OnOk result (frames.new ≡ begun frames.old pulse) }
{
    match frames.begin_frame(pulse, pulse) {
        Beginning::Began { .. } => Ok(()),
        Beginning::NoMemory => Err(NoMemory),
        Beginning::Running { .. } => unreachable!(),
        Beginning::Unscheduled => unreachable!(),
        Beginning::Backwards { .. } => unreachable!(),
    }
}

/// Takes out what is due in the frame's next phase.
fn take(frames: &mut FrameState, phase: u32, now: u64) -> Result<(), NoMemory>
    requires phase { phase < frames.old.phases }
    requires next { next_phase frames.old.phases (past frames.old) ≡ Some phase }
    ensures { OnOk result (frames.new ≡ taken_at frames.old phase now) }
{
    match frames.take(phase, now) {
        Took::Batch { .. } => Ok(()),
        Took::NoMemory => Err(NoMemory),
        Took::Elsewhere { .. } => unreachable!(),
    }
}

/// Posts the callback again, unless all things have ended. It is due at once.
fn post_again(frames: &mut FrameState, ended: bool, now: u64) -> Result<(), NoMemory>
    requires { 1 < frames.old.phases }
    ensures { OnOk result (frames.new ≡ posted_again frames.old ended now) }
{
    if ended {
        return Ok(());
    }
    frames.post(ANIMATION, now / NANOS_PER_MILLI, 0, None, now)?;
    Ok(())
}

/// One frame at a pulse: the callback runs in the animation phase and asks all things. Answers whether all have ended.
pub(crate) fn run_frame(
    frames: &mut FrameState,
    things: &mut [Runner],
    out: &mut String,
    pulse: u64,
) -> Result<bool, NoMemory>
    requires { IsFrameReady frames.old pulse }
    ensures told { OnOk result (RunnersHaveTold things.old pulse (string_bytes out.old) (string_bytes out.new)) }
    ensures asked { OnOk result (AreAsked things.old pulse things.new) }
    ensures ended { IfOk result (λ ended. ended ≡ list_all is_ended things.new) }
    ensures frames { IfOk result (λ ended. frames.new ≡ after_frame frames.old pulse ended) }
{
    frames.deliver(pulse);
    begin(frames, pulse)?;
    take(frames, INPUT, pulse)?;
    take(frames, ANIMATION, pulse)?;
    ask_all(out, things, pulse)?;
    let ended = have_ended(things);
    post_again(frames, ended, pulse)?;
    take(frames, TRAVERSAL, pulse)?;
    take(frames, COMMIT, pulse)?;
    Ok(ended)
}
