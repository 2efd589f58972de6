// Answers as C has them.
ghost use Rattle.std.specs.Prelude.{◌≡◌};
ghost use Rattle.frame_phases_c.specs.Shown.{answer_as, IsNotOpen, HasNotOpen, shown, shown_scheduling, shown_pulse, shown_schedule, shown_start, shown_beginning, shown_step, removed_kind, no_phase_kind, nothing_kind, closed_kind};

use crate::callback::FrameCallback;
use crate::steps::{Start, Step};
use frame_phases::{Beginning, Scheduling};
use loop_model::NoMemory;

/// A frame was asked for at a pulse, or such a pulse.
const ASKED: u32 = 0;

/// The callback is not due yet.
const LATER: u32 = 1;

/// A frame is scheduled already.
const ALREADY: u32 = 2;

/// So many callbacks were removed.
const REMOVED: u32 = 3;

/// A frame began.
const BEGAN: u32 = 4;

/// A frame is in progress.
const RUNNING: u32 = 5;

/// No frame is scheduled.
const UNSCHEDULED: u32 = 6;

/// The frame would be earlier than the last one.
const BACKWARDS: u32 = 7;

/// A callback is to run.
const RUN: u32 = 8;

/// A phase took its callbacks.
const PHASE: u32 = 9;

/// No phase is left.
const ENDED: u32 = 10;

/// There is none.
const NOTHING: u32 = 11;

/// There was no memory, and all is as before.
const NO_MEMORY: u32 = 12;

/// There is no such phase.
const NO_PHASE: u32 = 13;

/// The handle is not open.
const NOT_OPEN: u32 = 14;

/// The handle was closed.
const CLOSED: u32 = 15;

/// What a call answers: its kind, and what goes with it.
#[repr(C)]
#[derive(Clone, Copy, Debug, PartialEq, Eq)]
pub struct FrameAnswer {
    /// How many callbacks were removed, or 0.
    pub number: u64,
    /// A moment, by the kind: nanoseconds, but milliseconds of a due time.
    pub time: u64,
    /// Which answer it is.
    pub kind: u32,
}

/// What a step of a frame answers.
#[repr(C)]
#[derive(Clone, Copy, Debug, PartialEq, Eq)]
pub struct FrameLook {
    /// The callback that is to run; of a phase its number alone.
    pub callback: FrameCallback,
    /// The callback's number, or how many callbacks a phase took.
    pub number: u64,
    /// The frame time, in nanoseconds.
    pub time: u64,
    /// Which answer it is.
    pub kind: u32,
}

fn answer(kind: u32, number: u64, time: u64) -> FrameAnswer
    ensures { result ≡ answer_as kind number time }
{
    FrameAnswer { number, time, kind }
}

pub(crate) fn not_open() -> FrameAnswer
    ensures { IsNotOpen result }
{
    answer(NOT_OPEN, 0, 0)
}

pub(crate) fn closed() -> FrameAnswer
    ensures { result ≡ answer_as closed_kind 0 0 }
{
    answer(CLOSED, 0, 0)
}

pub(crate) fn no_phase() -> FrameAnswer
    ensures { result ≡ answer_as no_phase_kind 0 0 }
{
    answer(NO_PHASE, 0, 0)
}

pub(crate) fn nothing() -> FrameAnswer
    ensures { result ≡ answer_as nothing_kind 0 0 }
{
    answer(NOTHING, 0, 0)
}

pub(crate) fn removed(count: u64) -> FrameAnswer
    ensures { result ≡ answer_as removed_kind count 0 }
{
    answer(REMOVED, count, 0)
}

pub(crate) fn shown(answered: Result<FrameAnswer, NoMemory>) -> FrameAnswer
    ensures { result ≡ shown answered }
{
    match answered {
        Ok(answer) => answer,
        Err(_) => answer(NO_MEMORY, 0, 0),
    }
}

pub(crate) fn shown_scheduling(scheduling: Scheduling) -> FrameAnswer
    ensures { result ≡ shown_scheduling scheduling }
{
    match scheduling {
        Scheduling::Asked { pulse } => answer(ASKED, 0, pulse),
        Scheduling::Later { due } => answer(LATER, 0, due),
        Scheduling::Already => answer(ALREADY, 0, 0),
    }
}

pub(crate) fn shown_pulse(pulse: Option<u64>) -> FrameAnswer
    ensures { result ≡ shown_pulse pulse }
{
    match pulse {
        Some(pulse) => answer(ASKED, 0, pulse),
        None => answer(NOTHING, 0, 0),
    }
}

/// The pulse that a frame was asked for at, or that one is scheduled already.
pub(crate) fn shown_schedule(pulse: Option<u64>) -> FrameAnswer
    ensures { result ≡ shown_schedule pulse }
{
    match pulse {
        Some(pulse) => answer(ASKED, 0, pulse),
        None => answer(ALREADY, 0, 0),
    }
}

fn shown_beginning(beginning: Beginning) -> FrameAnswer
    ensures { result ≡ shown_beginning beginning }
{
    match beginning {
        Beginning::Began { time } => answer(BEGAN, 0, time),
        Beginning::Running { next: _ } => answer(RUNNING, 0, 0),
        Beginning::Unscheduled => answer(UNSCHEDULED, 0, 0),
        Beginning::Backwards { last } => answer(BACKWARDS, 0, last),
        Beginning::NoMemory => answer(NO_MEMORY, 0, 0),
    }
}

pub(crate) fn shown_start(start: Start) -> FrameAnswer
    ensures { result ≡ shown_start start }
{
    match start {
        Start::Waits => answer(RUNNING, 0, 0),
        Start::NoMemory => answer(NO_MEMORY, 0, 0),
        Start::Begins(beginning) => shown_beginning(beginning),
    }
}

fn look(kind: u32, callback: FrameCallback, number: u64, time: u64) -> FrameLook
    ensures { result ≡ record { callback = callback; number = number; time = time; kind = kind } }
{
    FrameLook {
        callback,
        number,
        time,
        kind,
    }
}

pub(crate) fn not_open_look() -> FrameLook
    ensures { HasNotOpen result }
{
    look(NOT_OPEN, FrameCallback::nothing(), 0, 0)
}

pub(crate) fn shown_step(step: Step) -> FrameLook
    ensures { result ≡ shown_step step }
{
    match step {
        Step::Run { callback, time } => {
            look(RUN, FrameCallback::of(&callback), callback.number, time)
        }
        Step::Phase { phase, time, count } => {
            let mut taken = FrameCallback::nothing();
            taken.phase = phase;
            look(PHASE, taken, count, time)
        }
        Step::Ended => look(ENDED, FrameCallback::nothing(), 0, 0),
        Step::NoMemory => look(NO_MEMORY, FrameCallback::nothing(), 0, 0),
    }
}
