//! How a report's time fits the picture's width.
ghost use Rattle.std.specs.Prelude.{◌≡◌, ◌≤◌, ◌-◌, ◌*◌, length};
ghost use Rattle.std.specs.List.{AllByRecursion, fold};
ghost use Rattle.run_picture.specs.Groups.{IsBetween, ShowsTime};
ghost use Rattle.run_picture.specs.View.{HasEdgesOf, IsSeen};
ghost use Rattle.run_picture.specs.Period.{frame_distance, distances, lesser, period};

use crate::group::{Row, Scale, nanos, row_of};
use crate::mark::{Mark, NANOS_PER_MILLI};
use crate::report::{Looper, Report};
use crate::view::{View, Window};

/// A frame's width in nanoseconds where no two frames are told.
const USUAL_PERIOD: u64 = 16_666_667;
/// A picture has about so many places, so that it stays below a megabyte.
const MOST_PLACES: u64 = 4_000;

/// The lesser of two numbers, of which the first may be none.
fn lesser(least: Option<u64>, number: u64) -> Option<u64>
    ensures { result ≡ lesser least number }
{
    match least {
        Some(least) => Some(least.min(number)),
        None => Some(number),
    }
}

/// The least distance so far, with that of a time from the one before it, where it stands behind it.
fn nearer(least: Option<u64>, before: u64, time: u64) -> Option<u64>
    ensures { result ≡ fold lesser least (frame_distance before time) }
{
    if before < time {
        return lesser(least, time - before);
    }
    least
}

/// The least distance so far, with those of a looper's frames.
fn least_distance(least: Option<u64>, looper: &Looper) -> Option<u64>
    ensures { result ≡ fold lesser least (distances looper.now) }
{
    let mut least = least;
    if let Some((first, later)) = looper.frames.as_slice().split_first() {
        let mut before = first.time;
        for frame in later {
            least = nearer(least, before, frame.time);
            before = frame.time;
        }
    }
    least
}

/// The width of a frame in nanoseconds: the least distance of a frame from the one before it in its looper.
pub(crate) fn period_of(report: &Report) -> u64
    ensures { result ≡ period report.now }
{
    let mut least = None;
    for looper in report.loopers.as_slice() {
        least = least_distance(least, looper);
    }
    least.unwrap_or(USUAL_PERIOD)
}

/// The first and the last moment of marks, in nanoseconds.
fn bounds(marks: &[Mark]) -> (u128, u128)
    ensures { AllByRecursion (IsBetween result.0 result.1) marks.now }
{
    let mut first = u128::MAX;
    let mut last = 0u128;
    for mark in marks {
        let time = nanos(mark.time);
        first = first.min(time);
        last = last.max(time);
    }
    (first.min(last), last)
}

/// The bit of a row in a set of rows: those whose numbers differ by a multiple of 64 share one.
fn bit_of(number: u32) -> u64 {
    1u64 << (number % 64)
}

/// How many rows marks have, about. Marks of one lane stand together, and a lane has three rows beside those that its bits
/// tell: a choreographer's messages, the frames, and the callbacks in them.
fn rows_of(marks: &[Mark]) -> u64 {
    let mut rows = 0u64;
    let mut lane = None;
    let mut handlers = 0u64;
    let mut gauges = 0u64;
    for mark in marks {
        if lane != Some(mark.lane) {
            lane = Some(mark.lane);
            handlers = 0;
            gauges = 0;
            rows = rows.saturating_add(3);
        }
        match row_of(mark.kind) {
            Row::Handler(handler) => {
                let bit = bit_of(handler);
                rows = rows.saturating_add(u64::from(handlers & bit == 0));
                handlers |= bit;
            }
            Row::Gauge(gauge) => {
                let bit = bit_of(gauge);
                rows = rows.saturating_add(u64::from(gauges & bit == 0));
                gauges |= bit;
            }
            Row::Frames => {}
            Row::Runs => {}
        }
    }
    rows
}

/// The scale of a window: its edges are the picture's.
fn scale_within(window: Window, width: u32) -> Scale
    ensures first { result.first ≡ window.from * 1000000 }
    ensures span { result.span ≡ (window.to - window.from) * 1000000 }
    ensures width { result.width ≡ width }
{
    let nanos = u128::from(NANOS_PER_MILLI);
    Scale {
        first: u128::from(window.from) * nanos,
        span: u128::from(window.to.saturating_sub(window.from)) * nanos,
        slot: 0,
        step: 1,
        width,
    }
}

/// The scale of a whole run: behind its last mark a frame has its width.
fn scale_around(marks: &[Mark], width: u32, period: u128) -> Scale
    ensures shown { AllByRecursion (ShowsTime result) marks.now }
    ensures width { result.width ≡ width }
{
    let (first, last) = bounds(marks);
    let span = last.saturating_sub(first).saturating_add(period).max(1);
    Scale {
        first,
        span,
        slot: 0,
        step: 1,
        width,
    }
}

/// The edges of a picture, before it is known how wide a place is.
fn edges(marks: &[Mark], view: View, period: u128) -> Scale
    requires { AllByRecursion (IsSeen view.window) marks.now }
    ensures shown { AllByRecursion (ShowsTime result) marks.now }
    ensures edges { HasEdgesOf view.window result }
    ensures wide { result.width ≡ view.width - 174 }
{
    match view.window {
        Some(window) => scale_within(window, view.lane_width()),
        None => scale_around(marks, view.lane_width(), period),
    }
}

/// How many pixels are one place.
fn step_of(marks: &[Mark], width: u32) -> u64
    ensures { length marks.now ≤ 4000 → result ≡ 1 }
{
    if (marks.len() as u64) <= MOST_PLACES {
        return 1;
    }
    rows_of(marks).saturating_mul(u64::from(width)) / MOST_PLACES + 1
}

/// The scale of a picture, by its marks, the width of a frame in nanoseconds, and the number of phases.
pub(crate) fn scale_of(marks: &[Mark], view: View, period: u128, phases: u64) -> Scale
    requires { AllByRecursion (IsSeen view.window) marks.now }
    ensures shown { AllByRecursion (ShowsTime result) marks.now }
    ensures edges { HasEdgesOf view.window result }
    ensures wide { result.width ≡ view.width - 174 }
    ensures fine { length marks.now ≤ 4000 → result.step ≡ 1 }
{
    let scale = edges(marks, view, period);
    let frame = scale.pixels(scale.first.saturating_add(period));
    Scale {
        first: scale.first,
        span: scale.span,
        slot: u32::try_from(frame / phases.max(1)).unwrap_or(0),
        step: step_of(marks, scale.width),
        width: scale.width,
    }
}
