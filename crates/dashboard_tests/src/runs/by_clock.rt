//! Runs by a clock that goes on from reading to reading.
use super::races::has_line;
use super::{Case, Wants, joined};
use dashboard_cli::*;
use frame_phases::FrameEntry;
use std::alloc::{AllocError, Global};

/// Two posts, of which the later line is due first.
const POSTS: &str =
    "dashboard 1\nloopers 1\nthreads 1\nhandler 0 0\nvsync 16666667\nat 10\n0 post 0 7 5\n0 post 0 8 0\nend 20\n";

/// One frame callback in the commit phase.
const COMMIT: &str =
    "dashboard 1\nloopers 1\nthreads 1\nhandler 0 0\nvsync 16666667\nat 0\n0 frame 0 3 7 0\nend 400\n";

/// Adds both scripts. Each reading of the clock is 5 milliseconds later for the posts, which are due by the end then, and 20 for the
/// callback.
pub(super) fn add<'a>(alloc: Global, cases: &mut Vec<Case<'a>>) -> Result<(), AllocError> {
    let input = joined(alloc, POSTS, "")?;
    cases.push(Case::new("run --free", input, Status::Ok, Wants::Dispatched))?;
    let mut late = Case::new(
        "run --free",
        joined(alloc, COMMIT, "")?,
        Status::Ok,
        Wants::MovedOn,
    );
    late.step = 20;
    cases.push(late)?;
    Ok(())
}

/// Whether both posts were dispatched.
pub(super) fn are_dispatched(text: &[u8]) -> bool {
    has_line(
        text,
        b"fates accepted 2 dispatched 2 removed 0 dropped 0 stranded 0 queued 0",
    )
}

/// How far the latest phase's time stands behind its frame's, in nanoseconds.
fn moved(entries: &[FrameEntry]) -> u64 {
    let mut began = 0;
    let mut moved = 0;
    for entry in entries {
        match *entry {
            FrameEntry::Begin { time, .. } => began = time,
            FrameEntry::Take { time, .. } => moved = time.saturating_sub(began),
            _ => {}
        }
    }
    moved
}

/// Whether the commit phase moved the frame's time on: by a clock whose every reading is 20 milliseconds later it comes four readings
/// behind the frame's start, which is more than two periods.
pub(super) fn is_moved_on(report: &Report) -> bool {
    match report.frames.as_slice().first() {
        Some(frames) => moved(frames.entries.as_slice()) > 33_333_334,
        None => false,
    }
}
