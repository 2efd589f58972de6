//! What a picture shows of a run, and how wide it is.
ghost use Rattle.std.specs.Prelude.{◌≡◌, ◌++◌, ◌-◌, ◌*◌, ◌∷◌, [], IfOk, OnOk};
ghost use Rattle.std.specs.List.{AllByRecursion, filter};
ghost use Rattle.run_picture.specs.View.{IsSeen, is_seen};

use crate::group::nanos;
use crate::mark::{Mark, NANOS_PER_MILLI};
use loop_model::NoMemory;
use std::alloc::Global;

/// A window of time, in milliseconds of uptime: from the first one on, and before the last one.
#[derive(Clone, Copy, Debug, PartialEq, Eq)]
pub struct Window {
    /// The millisecond with which it begins.
    pub from: u64,
    /// The millisecond before which it ends.
    pub to: u64,
}

/// What a picture shows, and how wide it is.
#[derive(Clone, Copy, Debug, PartialEq, Eq)]
pub struct View {
    /// The window of time; the whole run where there is none.
    pub window: Option<Window>,
    /// The width in pixels. Of it 174 are no lane's.
    pub width: u32,
}

/// How wide a picture is where nobody says it, in pixels.
pub const USUAL_WIDTH: u32 = 1200;

/// Beside the lanes so many pixels are left: 150 at the left, and 24 at the right.
pub(crate) const BESIDE: u32 = 174;

impl View {
    /// How wide the lanes are, in pixels.
    pub(crate) fn lane_width(&self) -> u32
        ensures { result ≡ self.now.width - 174 }
    {
        self.width.saturating_sub(BESIDE)
    }
}

/// The first moment of a window in nanoseconds, and the one at which it ends.
pub(crate) fn ends_of(window: Window) -> (u128, u128)
    ensures first { result.0 ≡ window.from * 1000000 }
    ensures last { result.1 ≡ window.to * 1000000 }
{
    let nanos = u128::from(NANOS_PER_MILLI);
    (
        u128::from(window.from) * nanos,
        u128::from(window.to) * nanos,
    )
}

/// Whether a mark's time lies in the window.
fn is_seen(window: Option<Window>, mark: &Mark) -> bool
    ensures { result ≡ is_seen window mark.now }
{
    let Some(window) = window else {
        return true;
    };
    let (first, last) = ends_of(window);
    let time = nanos(mark.time);
    if time < first {
        return false;
    }
    time < last
}

/// Adds a mark where its time lies in the window.
fn push_seen(out: &mut Vec<Mark>, window: Option<Window>, mark: &Mark) -> Result<(), NoMemory>
    ensures { OnOk result (out.new.items ≡ out.old.items ++ filter (is_seen window) (mark.now ∷ [])) }
{
    if is_seen(window, mark) {
        out.push(*mark)?;
    }
    Ok(())
}

/// The marks whose time lies in the window, in order.
pub(crate) fn seen(
    alloc: Global,
    window: Option<Window>,
    marks: &[Mark],
) -> Result<Vec<Mark>, NoMemory>
    ensures all { IfOk result (λ found. found.items ≡ filter (is_seen window) marks.now) }
    ensures only { IfOk result (λ found. AllByRecursion (IsSeen window) found.items) }
{
    let mut out = Vec::new(alloc);
    for mark in marks {
        push_seen(&mut out, window, mark)?;
    }
    Ok(out)
}
