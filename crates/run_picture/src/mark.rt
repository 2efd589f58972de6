//! The marks of a report's picture.
ghost use Rattle.std.specs.Prelude.{◌≡◌, ◌+◌, ◌-◌, ◌<◌, ◌≤◌, ◌^◌, ◌++◌, IfOk, OnOk};
ghost use Rattle.std.specs.List.{flat_map};
ghost use Rattle.run_picture.specs.Marks.{MarksGoOn, frame_mark, frame_marks, is_painting, joined, looper_marks, marks, marks_from, split_moment, no_paint, paint_marks, painting_times, past_marks, run_mark};

use crate::report::{Act, Frame, Looper, Past, Report, Run, Subject};
use loop_model::NoMemory;
use std::alloc::Global;

/// What a mark shows.
#[derive(Clone, Copy, Debug, PartialEq, Eq)]
pub enum MarkKind {
    /// The message of this number was taken for its handler.
    Dispatch {
        number: u64,
        handler: u32,
        subject: Subject,
    },
    /// A frame began.
    Frame,
    /// A frame callback ran in the frame of this time.
    Run(Run),
    /// A gauge was painted with a value.
    Paint {
        gauge: u32,
        value: u32,
    },
}

/// A moment of uptime: milliseconds, and nanoseconds beyond them.
#[derive(Clone, Copy, Debug, PartialEq, Eq)]
pub struct Moment {
    /// Whole milliseconds.
    pub millis: u64,
    /// Nanoseconds on top of them.
    pub nanos: u64,
}

/// One mark of the picture: the looper's lane, its time, and what it shows.
#[derive(Clone, Copy, Debug, PartialEq, Eq)]
pub struct Mark {
    /// The place of its looper among the loopers.
    pub lane: u64,
    /// When it was.
    pub time: Moment,
    /// What was done.
    pub kind: MarkKind,
}

/// The identity of the callback that paints a looper's gauges (this project's profile).
pub const TRAVERSAL: u64 = 1_000_016;

/// So many nanoseconds are a millisecond.
pub const NANOS_PER_MILLI: u64 = 1_000_000;

/// The paints that one traversal made: the frame time where it stands, how many such times came up to it, and its last
/// gauge.
#[derive(Clone, Copy)]
pub(crate) struct Painted {
    time: u64,
    place: usize,
    last: Option<u32>,
}

const NO_PAINT: Painted = Painted {
    time: 0,
    place: 0,
    last: None,
};

/// The moment of a time in nanoseconds.
pub(crate) fn moment_of(time: u64) -> Moment
    ensures { result ≡ split_moment time }
{
    Moment {
        millis: time / NANOS_PER_MILLI,
        nanos: time % NANOS_PER_MILLI,
    }
}

fn frame_mark(lane: u64, time: u64, kind: MarkKind) -> Mark
    ensures { result ≡ frame_mark lane time kind }
{
    Mark {
        lane,
        time: moment_of(time),
        kind,
    }
}

/// A line of a looper's history: a dispatch has a mark.
fn push_past(out: &mut Vec<Mark>, lane: u64, past: Past) -> Result<(), NoMemory>
    ensures { OnOk result (out.new.items ≡ out.old.items ++ past_marks lane past) }
{
    match past {
        Past::Dispatch {
            now,
            number,
            handler,
            subject,
        } => out.push(Mark {
            lane,
            time: Moment {
                millis: now,
                nanos: 0,
            },
            kind: MarkKind::Dispatch {
                number,
                handler,
                subject,
            },
        })?,
        Past::Refused { .. } => {}
        Past::NotPosted { .. } => {}
        Past::NotAllowed => {}
        Past::AlreadyQuit { .. } => {}
    }
    Ok(())
}

/// A looper's dispatches.
fn push_dispatches(out: &mut Vec<Mark>, lane: u64, past: &[Past]) -> Result<(), NoMemory>
    ensures { OnOk result (out.new.items ≡ out.old.items ++ flat_map (past_marks lane) past.now) }
{
    for line in past {
        push_past(out, lane, *line)?;
    }
    Ok(())
}

/// The callbacks that ran in the frame of this time.
fn push_runs(out: &mut Vec<Mark>, lane: u64, time: u64, runs: &[Run]) -> Result<(), NoMemory>
    ensures { OnOk result (out.new.items ≡ out.old.items ++ flat_map (run_mark lane time) runs.now) }
{
    for run in runs {
        out.push(frame_mark(lane, time, MarkKind::Run(*run)))?;
    }
    Ok(())
}

/// A frame, with the callbacks that ran in it.
#[tactic(auto, using(std::proofs::lemmas::List::append_assoc))]
fn push_frame(out: &mut Vec<Mark>, lane: u64, frame: &Frame) -> Result<(), NoMemory>
    ensures { OnOk result (out.new.items ≡ out.old.items ++ frame_marks lane frame.now) }
{
    out.push(frame_mark(lane, frame.time, MarkKind::Frame))?;
    push_runs(out, lane, frame.time, frame.runs.as_slice())
}

/// A looper's frames, each with the callbacks that ran in it.
fn push_frames(out: &mut Vec<Mark>, lane: u64, frames: &[Frame]) -> Result<(), NoMemory>
    ensures { OnOk result (out.new.items ≡ out.old.items ++ flat_map (frame_marks lane) frames.now) }
{
    for frame in frames {
        push_frame(out, lane, frame)?;
    }
    Ok(())
}

/// Whether a traversal ran in the frame.
fn is_painting(frame: &Frame) -> bool
    ensures { result ≡ is_painting frame.now }
{
    frame.runs.as_slice().iter().any(|run| run.id == TRAVERSAL)
}

/// The frame time, where the frame's traversal ran.
fn push_time(times: &mut Vec<u64>, frame: &Frame) -> Result<(), NoMemory>
    ensures { OnOk result (times.new.items ≡ times.old.items ++ painting_times frame.now) }
{
    if is_painting(frame) {
        times.push(frame.time)?;
    }
    Ok(())
}

/// The frame times of the frames whose traversal ran.
fn painting_times(alloc: Global, frames: &[Frame]) -> Result<Vec<u64>, NoMemory>
    ensures { IfOk result (λ times. times.items ≡ flat_map painting_times frames.now) }
{
    let mut times = Vec::new(alloc);
    for frame in frames {
        push_time(&mut times, frame)?;
    }
    Ok(times)
}

/// The group of a painted gauge: the last one where the gauge rises, else the next one, at the next time.
fn joined(group: Painted, times: &[u64], gauge: u32) -> Painted
    requires { group.place < 2 ^ 64 - 1 }
    ensures is { result ≡ joined group times.now gauge }
    ensures near { result.place ≤ group.place + 1 }
{
    if let Some(last) = group.last {
        if last < gauge {
            return Painted {
                time: group.time,
                place: group.place,
                last: Some(gauge),
            };
        }
    }
    Painted {
        time: times.get(group.place).copied().unwrap_or(group.time),
        place: group.place + 1,
        last: Some(gauge),
    }
}

/// A line of a looper's journal: a paint has a mark, in the group that it joins.
fn push_act(
    out: &mut Vec<Mark>,
    lane: u64,
    times: &[u64],
    group: &mut Painted,
    act: Act,
) -> Result<(), NoMemory>
    requires { group.old.place < 2 ^ 64 - 1 }
    ensures near { OnOk result (group.new.place ≤ group.old.place + 1) }
    ensures painted { OnOk result (MarksGoOn lane times.now group.old group.new act out.old.items out.new.items) }
{
    match act {
        Act::Paint { gauge, value } => {
            *group = joined(*group, times, gauge);
            out.push(frame_mark(lane, group.time, MarkKind::Paint { gauge, value }))?;
        }
        Act::Idle { .. } => {}
        Act::Event { .. } => {}
    }
    Ok(())
}

/// A looper's paints, by the frame times of the frames whose traversal ran.
fn push_paints(out: &mut Vec<Mark>, lane: u64, times: &[u64], acts: &[Act]) -> Result<(), NoMemory>
    ensures { OnOk result (out.new.items ≡ out.old.items ++ paint_marks lane times.now no_paint acts.now) }
{
    let mut group = NO_PAINT;
    for act in acts {
        push_act(out, lane, times, &mut group, *act)?;
    }
    Ok(())
}

/// The marks of one looper: its dispatches, its frames, its paints.
fn push_looper(
    alloc: Global,
    out: &mut Vec<Mark>,
    lane: u64,
    looper: &Looper,
) -> Result<(), NoMemory>
    ensures { OnOk result (out.new.items ≡ out.old.items ++ looper_marks lane looper.now) }
{
    let frames = looper.frames.as_slice();
    let times = painting_times(alloc, frames)?;
    push_dispatches(out, lane, looper.past.as_slice())?;
    push_frames(out, lane, frames)?;
    push_paints(out, lane, &times, looper.acts.as_slice())
}

/// The marks of a report's picture: each dispatch, frame, callback that ran and paint once, in its looper's lane and at its
/// time. A dispatch stands at its millisecond, a callback at the time of its frame. A report tells no time of a paint: it
/// stands at the frame whose traversal made it, since each traversal paints gauges in rising order (this project's
/// profile). `NoMemory` where there was none.
pub fn marks(alloc: Global, report: &Report) -> Result<Vec<Mark>, NoMemory>
    ensures { IfOk result (λ found. found.items ≡ marks report.now) }
{
    let mut out = Vec::new(alloc);
    let mut lane = 0;
    for looper in report.loopers.as_slice() {
        push_looper(alloc, &mut out, lane, looper)?;
        lane += 1;
    }
    Ok(out)
}
