//! A choreographer's frames for C: `frame_phases.h` says how each call is made, and looks at pointers before one.
#![tactic(auto)]

ghost use Rattle.std.specs.Prelude.{◌≡◌, ◌||◌, true, false, None, Some, MatchOption};
ghost use Rattle.frame_phases.specs.State.{scheduled_at};
ghost use Rattle.frame_phases_c.specs.Handed.{inside, Does};
ghost use Rattle.frame_phases_c.specs.Contents.{just_opened};
ghost use Rattle.frame_phases_c.specs.Shown.{ChangesFrames, PostShown, RemoveShown, PulseShown, StartShown, StepShown, IsNotOpen, HasNotOpen, schedule_answer, shown_pulse, due_answer, due_left, answer_as, closed_kind};

mod answers;
mod callback;
mod handle;
mod hold;
mod kept;
mod steps;

use crate::answers::{closed, not_open, not_open_look};
pub use answers::{FrameAnswer, FrameLook};
pub use callback::FrameCallback;
pub use handle::FrameLoop;
use std::alloc::Global;

/// Opens a handle for a choreographer in which nothing has happened, with pulses at the multiples of `interval` nanoseconds and
/// frames of so many phases, of which the last is commit. False, and nothing changes, where it is open, where a number is 0 and
/// where there is no memory.
#[unsafe(no_mangle)]
pub extern "C" fn mloop_core_frame_open(
    alloc: Global,
    frames: &mut FrameLoop,
    interval: u64,
    phases: u32,
) -> bool
    ensures opened { (result ≡ true) → (inside frames.old ≡ None) × (inside frames.new ≡ Some (just_opened interval phases)) }
    ensures refused { (result ≡ false) → inside frames.new ≡ inside frames.old }
    ensures live { frames.new.live ≡ (frames.old.live || result) }
{
    if let Some(kept) = frames.take() {
        frames.put(kept);
        return false;
    }
    if interval == 0 || phases == 0 {
        return false;
    }
    match hold::open(alloc, interval, phases) {
        Ok(kept) => {
            frames.put(kept);
            true
        }
        Err(_) => false,
    }
}

/// Closes the handle, with all that stands behind it.
#[unsafe(no_mangle)]
pub extern "C" fn mloop_core_frame_close(alloc: Global, frames: &mut FrameLoop) -> FrameAnswer
    ensures answer { MatchOption (inside frames.old) (IsNotOpen result) (λ _. result ≡ answer_as closed_kind 0 0) }
    ensures closed { frames.new.live ≡ false }
{
    let Some(kept) = frames.take() else {
        return not_open();
    };
    hold::free(alloc, kept);
    closed()
}

/// Posts a callback, and schedules a frame where it is due at the moment `now`, in nanoseconds.
#[unsafe(no_mangle)]
pub extern "C" fn mloop_core_frame_post(
    frames: &mut FrameLoop,
    callback: &FrameCallback,
    now: u64,
) -> FrameAnswer
    ensures done { Does (inside frames.old) (inside frames.new) (IsNotOpen result) (ChangesFrames (λ x y. PostShown callback.now now result x y)) }
    ensures live { frames.new.live ≡ frames.old.live }
{
    let Some(mut kept) = frames.take() else {
        return not_open();
    };
    let answer = kept.get_mut().post(callback, now);
    frames.put(kept);
    answer
}

/// Removes the callbacks of its phase with its id, and with its token where it has one.
#[unsafe(no_mangle)]
pub extern "C" fn mloop_core_frame_remove(
    frames: &mut FrameLoop,
    callback: &FrameCallback,
) -> FrameAnswer
    ensures done { Does (inside frames.old) (inside frames.new) (IsNotOpen result) (ChangesFrames (λ x y. RemoveShown callback.now result x y)) }
    ensures live { frames.new.live ≡ frames.old.live }
{
    let Some(mut kept) = frames.take() else {
        return not_open();
    };
    let answer = kept.get_mut().remove(callback);
    frames.put(kept);
    answer
}

/// Schedules a frame where the phase has a callback that is due at the moment `now`, in nanoseconds.
#[unsafe(no_mangle)]
pub extern "C" fn mloop_core_frame_due(frames: &mut FrameLoop, phase: u32, now: u64) -> FrameAnswer
    ensures done { Does (inside frames.old) (inside frames.new) (IsNotOpen result) (ChangesFrames (λ x y. (result ≡ due_answer x phase now) × (y ≡ due_left x phase now))) }
    ensures live { frames.new.live ≡ frames.old.live }
{
    let Some(mut kept) = frames.take() else {
        return not_open();
    };
    let answer = kept.get_mut().due(phase, now);
    frames.put(kept);
    answer
}

/// Schedules a frame, with the first pulse after the moment `now`, in nanoseconds.
#[unsafe(no_mangle)]
pub extern "C" fn mloop_core_frame_schedule(frames: &mut FrameLoop, now: u64) -> FrameAnswer
    ensures done { Does (inside frames.old) (inside frames.new) (IsNotOpen result) (ChangesFrames (λ x y. (result ≡ schedule_answer x now) × (y ≡ scheduled_at x now))) }
    ensures live { frames.new.live ≡ frames.old.live }
{
    let Some(mut kept) = frames.take() else {
        return not_open();
    };
    let answer = kept.get_mut().schedule(now);
    frames.put(kept);
    answer
}

/// The pulse that is asked for.
#[unsafe(no_mangle)]
pub extern "C" fn mloop_core_frame_asked(frames: &mut FrameLoop) -> FrameAnswer
    ensures answer { MatchOption (inside frames.old) (IsNotOpen result) (λ x. result ≡ shown_pulse x.frames.asked) }
    ensures same { inside frames.new ≡ inside frames.old }
    ensures live { frames.new.live ≡ frames.old.live }
{
    let Some(mut kept) = frames.take() else {
        return not_open();
    };
    let answer = kept.get_mut().asked();
    frames.put(kept);
    answer
}

/// Delivers the pulse that is asked for, if it is not after the moment `now`, in nanoseconds.
#[unsafe(no_mangle)]
pub extern "C" fn mloop_core_frame_vsync(frames: &mut FrameLoop, now: u64) -> FrameAnswer
    ensures done { Does (inside frames.old) (inside frames.new) (IsNotOpen result) (ChangesFrames (PulseShown now result)) }
    ensures live { frames.new.live ≡ frames.old.live }
{
    let Some(mut kept) = frames.take() else {
        return not_open();
    };
    let answer = kept.get_mut().deliver(now);
    frames.put(kept);
    answer
}

/// Begins the scheduled frame, with its vsync stamp and the moment at which it starts, in nanoseconds.
#[unsafe(no_mangle)]
pub extern "C" fn mloop_core_frame_begin(frames: &mut FrameLoop, vsync: u64, at: u64) -> FrameAnswer
    ensures done { Does (inside frames.old) (inside frames.new) (IsNotOpen result) (StartShown vsync at result) }
    ensures live { frames.new.live ≡ frames.old.live }
{
    let Some(mut kept) = frames.take() else {
        return not_open();
    };
    let answer = kept.get_mut().begin(vsync, at);
    frames.put(kept);
    answer
}

/// Hands out the next callback that is to run; where none is left of a phase the next phase takes its own, those that are due at
/// the moment `now`, in nanoseconds.
#[unsafe(no_mangle)]
pub extern "C" fn mloop_core_frame_next(frames: &mut FrameLoop, now: u64) -> FrameLook
    ensures done { Does (inside frames.old) (inside frames.new) (HasNotOpen result) (StepShown now result) }
    ensures live { frames.new.live ≡ frames.old.live }
{
    let Some(mut kept) = frames.take() else {
        return not_open_look();
    };
    let answer = kept.get_mut().next(now);
    frames.put(kept);
    answer
}

/// The number of this interface, which changes where a struct of it does.
#[unsafe(no_mangle)]
pub extern "C" fn mloop_core_frame_interface() -> u32
    ensures { result ≡ 1 }
{
    1
}
