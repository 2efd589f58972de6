//! The levels of gauges over time, as steps.
use crate::canvas::Canvas;
use crate::group::{Group, Place, Row, nanos};
use crate::lanes::Lanes;
use crate::mark::{Mark, MarkKind};
use crate::shape::{LEFT, numbered, push_line, push_text};
use crate::shelf::{depth_of, value_of};
use crate::view::{Window, ends_of};
use loop_model::NoMemory;
use std::alloc::Global;

/// What the steps of all gauges share.
#[derive(Clone, Copy)]
pub(crate) struct Gauges<'a> {
    /// All marks of the report, also those outside of the window.
    pub(crate) marks: &'a [Mark],
    /// The window that is shown.
    pub(crate) window: Option<Window>,
    /// The greatest value that a row shows.
    pub(crate) most: u32,
}

/// The least of 1, 2, 5, 10, 20, 50 and so on that is no less than a number.
fn rounded(number: u32) -> u32 {
    let mut unit = 1u32;
    for _ in 0..10u32 {
        for factor in [1u32, 2, 5] {
            let step = unit.saturating_mul(factor);
            if step >= number {
                return step;
            }
        }
        unit = unit.saturating_mul(10);
    }
    number
}

/// The greatest value that each gauge's row shows: no less than that of any group.
pub(crate) fn most_of(groups: &[Group]) -> u32 {
    let mut most = 1;
    for group in groups {
        most = most.max(value_of(group));
    }
    rounded(most)
}

/// The value at which a gauge stands as the window begins.
fn value_before(gauges: &Gauges, lane: u64, row: Row) -> u32 {
    let Some(window) = gauges.window else {
        return 0;
    };
    let (first, _) = ends_of(window);
    let mut found = 0;
    for mark in gauges.marks {
        if let MarkKind::Paint { gauge, value } = mark.kind {
            if mark.lane == lane && row == Row::Gauge(gauge) && nanos(mark.time) < first {
                found = value;
            }
        }
    }
    found
}

/// The steps of one gauge.
#[derive(Clone, Copy)]
struct Steps {
    lane: u64,
    row: Row,
}

fn is_of(steps: Option<Steps>, group: &Group) -> bool {
    match steps {
        Some(steps) => steps.lane == group.place.lane && steps.row == group.place.row,
        None => false,
    }
}

/// The scale at the left of a gauge's row: its greatest value, and 0.
fn push_scale(
    alloc: Global,
    out: &mut Canvas,
    top: u64,
    most: u32,
    width: u64,
) -> Result<(), NoMemory> {
    let high = top.saturating_add(depth_of(most, most));
    let low = top.saturating_add(depth_of(most, 0));
    let right = LEFT.saturating_add(width);
    push_line(out, (LEFT, high), (right, high), b"g")?;
    push_line(out, (LEFT, low), (right, low), b"q")?;
    let text = numbered(alloc, b"", u64::from(most))?;
    push_text(out, LEFT - 4, high.saturating_add(3), b"a", &text)?;
    push_text(out, LEFT - 4, low.saturating_add(3), b"a", b"0")?;
    out.push(b'\n')
}

/// Ends the steps of a gauge at the right edge.
fn push_end(out: &mut Canvas, steps: Option<Steps>, width: u64) -> Result<(), NoMemory> {
    if steps.is_some() {
        out.extend_from_slice(b" H")?;
        out.push_number(LEFT.saturating_add(width))?;
        out.extend_from_slice(b"\"/>\n")?;
    }
    Ok(())
}

/// Begins the steps of a gauge at the left edge.
fn push_begin(out: &mut Canvas, y: u64) -> Result<(), NoMemory> {
    out.extend_from_slice(b"<path class=\"v\" d=\"M")?;
    out.push_number(LEFT)?;
    out.push(b' ')?;
    out.push_number(y)
}

/// One step, to the value that a group paints.
fn push_step(out: &mut Canvas, y: u64, group: &Group) -> Result<(), NoMemory> {
    out.extend_from_slice(b" H")?;
    out.push_number(LEFT.saturating_add(group.place.column))?;
    out.extend_from_slice(b" V")?;
    out.push_number(y)
}

/// The steps of all gauges, each with its scale.
pub(crate) fn push_levels(
    alloc: Global,
    out: &mut Canvas,
    groups: &[Group],
    lanes: &Lanes,
    gauges: &Gauges,
) -> Result<(), NoMemory> {
    let most = gauges.most;
    let width = lanes.width;
    let mut steps: Option<Steps> = None;
    for (index, group) in groups.iter().enumerate() {
        if let Row::Gauge(_) = group.place.row {
            let Place { lane, row, .. } = group.place;
            let top = lanes.top_of(index);
            if !is_of(steps, group) {
                push_end(out, steps, width)?;
                push_scale(alloc, out, top, most, width)?;
                let before = value_before(gauges, lane, row);
                push_begin(out, top.saturating_add(depth_of(most, before)))?;
                steps = Some(Steps { lane, row });
            }
            push_step(
                out,
                top.saturating_add(depth_of(most, value_of(group))),
                group,
            )?;
        }
    }
    push_end(out, steps, width)
}
