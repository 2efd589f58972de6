//! How high the groups of a picture stand.
ghost use Rattle.std.specs.Prelude.{◌≡◌, ◌∷◌};
ghost use Rattle.run_picture.specs.Rows.{IsRowOf, StandsBehind, depth, last_painted, level, shared, value};

use crate::group::{Group, Row};
use crate::mark::{Mark, MarkKind};

/// Where a row stands.
#[derive(Clone, Copy)]
pub(crate) struct Shelf {
    /// The lane of its looper.
    pub(crate) lane: u64,
    /// The row; callbacks stand in that of their frames.
    pub(crate) row: Row,
    /// Its upper edge, in pixels from that of the picture.
    pub(crate) top: u64,
}

/// A row begins at least so many pixels below the one before it.
const LEAST_HEIGHT: u64 = 22;

/// The row in which the marks of a row are drawn.
pub(crate) fn shared(row: Row) -> Row
    ensures { result ≡ shared row }
{
    match row {
        Row::Handler(handler) => Row::Handler(handler),
        Row::Frames => Row::Frames,
        Row::Runs => Row::Frames,
        Row::Gauge(gauge) => Row::Gauge(gauge),
    }
}

/// The upper edge of a row behind another one, where this one is proposed.
fn top_behind(last: Option<Shelf>, lane: u64, row: Row, top: u64) -> u64
    ensures { StandsBehind last (record { lane = lane; row = row; top = result }) }
{
    let Some(last) = last else {
        return top;
    };
    if last.lane == lane {
        if last.row == row {
            return last.top;
        }
    }
    top.max(last.top.saturating_add(LEAST_HEIGHT))
}

/// The row of a group behind that of the group before it, where this upper edge is proposed.
pub(crate) fn shelf_of(last: Option<Shelf>, group: &Group, top: u64) -> Shelf
    ensures row { IsRowOf group.now result }
    ensures behind { StandsBehind last result }
{
    let lane = group.place.lane;
    let row = shared(group.place.row);
    Shelf {
        lane,
        row,
        top: top_behind(last, lane, row, top),
    }
}

/// The value that a mark shows.
fn value(kind: MarkKind) -> u32
    ensures { result ≡ value kind }
{
    match kind {
        MarkKind::Paint { value, .. } => value,
        MarkKind::Dispatch { .. } => 0,
        MarkKind::Frame => 0,
        MarkKind::Run(_) => 0,
    }
}

/// The value that a group paints last, at which its gauge stands from there on.
pub(crate) fn value_of(group: &Group) -> u32
    ensures { result ≡ last_painted 0 group.now.marks }
{
    let mut last = 0;
    for mark in group.marks.as_slice() {
        last = value(mark.kind);
    }
    last
}

/// How far below its row's upper edge a value stands, where this is the greatest that a row shows.
pub(crate) fn depth_of(most: u32, value: u32) -> u64
    ensures { result ≡ depth most value }
{
    40u64.saturating_sub(u64::from(value) * 30 / u64::from(most.max(1)))
}

/// How far a group stands from the picture's upper edge.
pub(crate) fn level_of(most: u32, shelf: Shelf, group: &Group) -> u64
    ensures { result ≡ level most shelf group.now group.now.place.row }
{
    match group.place.row {
        Row::Gauge(_) => shelf.top.saturating_add(depth_of(most, value_of(group))),
        Row::Handler(_) => shelf.top,
        Row::Frames => shelf.top,
        Row::Runs => shelf.top,
    }
}
