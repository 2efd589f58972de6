//! Marks that fall on one place of the picture are one group.
ghost use Rattle.std.specs.Prelude.{◌≡◌, ◌↔◌, ◌<◌, ◌≤◌, ◌^◌, ◌∷◌, IfOk, IsPermutation, IsTrue, OnOk};
ghost use Rattle.std.specs.List.{flat_map, AllByRecursion};
ghost use Rattle.std.specs.List.Sorted.{IsSortedByKey};
ghost use Rattle.run_picture.specs.Groups.{AreCut, HasMarks, IsOfPlace, KeepOrder, GroupsRise, begun, column, key, marks_of, nanos, number, order, pixels, place, rank, mark_row, shift, with_mark};

use crate::mark::{Mark, MarkKind, Moment, NANOS_PER_MILLI};
use loop_model::{NoMemory, Sequence};
use std::alloc::Global;
use std::mem::replace;

/// The rows of a lane, from above.
#[derive(Clone, Copy, Debug, PartialEq, Eq)]
pub enum Row {
    /// The dispatches of a handler.
    Handler(u32),
    /// The frames.
    Frames,
    /// The callbacks that ran in the frames.
    Runs,
    /// The paints of a gauge.
    Gauge(u32),
}

/// Where marks stand: the looper's lane, its row, and how many pixels from the left edge of the lanes.
#[derive(Clone, Copy, Debug, PartialEq, Eq)]
pub struct Place {
    /// The lane of the mark's looper, from above, counted from 0.
    pub lane: u64,
    /// The row in the lane.
    pub row: Row,
    /// How many pixels from the left edge of the lanes.
    pub column: u64,
}

/// The marks of one place, in order.
#[derive(Debug, Drop)]
pub struct Group {
    /// Where they stand.
    pub place: Place,
    /// The marks, in the order of the report.
    pub marks: Sequence<Mark>,
}

/// How time runs from left to right.
#[derive(Clone, Copy, Debug, PartialEq, Eq)]
pub struct Scale {
    /// The moment of the left edge, in nanoseconds.
    pub first: u128,
    /// How many nanoseconds the width shows; 0 stands for 1.
    pub span: u128,
    /// The part of a frame's box that a phase has, in pixels.
    pub slot: u32,
    /// How many pixels are one place; 0 stands for 1.
    pub step: u64,
    /// The width of the lanes in pixels.
    pub width: u32,
}

/// A moment in nanoseconds.
pub(crate) fn nanos(moment: Moment) -> u128
    ensures { result ≡ nanos moment }
{
    u128::from(moment.millis) * u128::from(NANOS_PER_MILLI) + u128::from(moment.nanos)
}

/// The row of a mark.
pub(crate) fn row_of(kind: MarkKind) -> Row
    ensures { result ≡ mark_row kind }
{
    match kind {
        MarkKind::Dispatch { handler, .. } => Row::Handler(handler),
        MarkKind::Frame => Row::Frames,
        MarkKind::Run(_) => Row::Runs,
        MarkKind::Paint { gauge, .. } => Row::Gauge(gauge),
    }
}

impl Scale {
    /// How many pixels a moment lies from the left edge, at most the width.
    pub(crate) fn pixels(&self, time: u128) -> u64
        ensures is { result ≡ pixels self.now time }
        ensures near { result ≤ self.now.width }
    {
        let since = time.saturating_sub(self.first);
        let width = u128::from(self.width);
        let pixels = since.saturating_mul(width) / self.span.max(1);
        pixels.min(width) as u64
    }

    /// How far a mark stands behind its moment, in pixels: a callback by its phase.
    fn shift(&self, kind: MarkKind) -> u64
        ensures is { result ≡ shift self.now kind }
        ensures near { result < 2 ^ 40 }
    {
        match kind {
            MarkKind::Run(run) => u64::from(run.phase.min(4)) * u64::from(self.slot),
            MarkKind::Dispatch { .. } => 0,
            MarkKind::Frame => 0,
            MarkKind::Paint { .. } => 0,
        }
    }

    fn column(&self, mark: &Mark) -> u64
        ensures { result ≡ column self.now mark.now }
    {
        let pixels = self.pixels(nanos(mark.time)) + self.shift(mark.kind);
        let column = pixels.min(u64::from(self.width));
        column - column % self.step.max(1)
    }

    /// Where a mark stands.
    pub(crate) fn place(&self, mark: &Mark) -> Place
        ensures { result ≡ place self.now mark.now }
    {
        Place {
            lane: mark.lane,
            row: row_of(mark.kind),
            column: self.column(mark),
        }
    }
}

/// The kind of a row, from above.
fn rank(row: Row) -> u64
    ensures { result ≡ rank row }
{
    match row {
        Row::Handler(_) => 0,
        Row::Frames => 1,
        Row::Runs => 2,
        Row::Gauge(_) => 3,
    }
}

/// The number of a row among those of its kind.
fn number(row: Row) -> u64
    ensures { result ≡ number row }
{
    match row {
        Row::Handler(handler) => u64::from(handler),
        Row::Frames => 0,
        Row::Runs => 0,
        Row::Gauge(gauge) => u64::from(gauge),
    }
}

/// What orders places: the lane, the row from above, and the pixels from the left.
pub(crate) fn key(place: Place) -> [u64; 4]
    ensures { result ≡ key place }
{
    [place.lane, rank(place.row), number(place.row), place.column]
}

/// What orders marks: their places.
fn key_of(scale: Scale, mark: &Mark) -> [u64; 4]
    ensures { result ≡ key (place scale mark.now) }
{
    key(scale.place(mark))
}

/// The marks by place.
fn sorted(scale: Scale, marks: Vec<Mark>) -> Result<Vec<Mark>, NoMemory>
    ensures all { IfOk result (λ found. IsPermutation marks.items found.items) }
    ensures sorted { IfOk result (λ found. IsSortedByKey (place scale) order found.items) }
    ensures stable { IfOk result (λ found. KeepOrder scale marks.items found.items) }
{
    let mut marks = marks;
    marks.sort_by_key(
        move |mark: &Mark|
            ensures { result ≡ key (place scale mark.now) }
        { key_of(scale, mark) },
    )?;
    Ok(marks)
}

/// A place without marks yet.
fn begun(alloc: Global, place: Place) -> Group
    ensures { result ≡ begun place }
{
    Group {
        place,
        marks: Sequence::from_vec(Vec::new(alloc)),
    }
}

/// Adds a mark to the group of its place.
fn add(group: &mut Group, mark: Mark) -> Result<(), NoMemory>
    ensures { OnOk result (group.new ≡ with_mark group.old mark) }
{
    group.marks.push(mark)
}

/// Whether a group is that of this place.
fn is_at(group: &Group, place: Place) -> bool
    ensures { IsTrue result ↔ group.now.place ≡ place }
{
    group.place == place
}

/// Cuts marks, of which the first is given apart, where the next one stands at another place.
fn cut_behind(
    alloc: Global,
    scale: Scale,
    first: Mark,
    later: &[Mark],
) -> Result<Vec<Group>, NoMemory>
    requires { IsSortedByKey (place scale) order (first ∷ later.now) }
    ensures { IfOk result (λ found. AreCut scale (first ∷ later.now) found.items) }
{
    let mut groups = Vec::new(alloc);
    let mut current = begun(alloc, scale.place(&first));
    add(&mut current, first)?;
    for mark in later {
        let place = scale.place(mark);
        if !is_at(&current, place) {
            let whole = replace(&mut current, begun(alloc, place));
            groups.push(whole)?;
        }
        add(&mut current, *mark)?;
    }
    groups.push(current)?;
    Ok(groups)
}

/// Cuts marks where the next one stands at another place.
fn cut(alloc: Global, scale: Scale, marks: &[Mark]) -> Result<Vec<Group>, NoMemory>
    requires { IsSortedByKey (place scale) order marks.now }
    ensures { IfOk result (λ found. AreCut scale marks.now found.items) }
{
    match marks.split_first() {
        Some((first, later)) => cut_behind(alloc, scale, *first, later),
        None => Ok(Vec::new(alloc)),
    }
}

/// The marks of a picture by the places where they stand: each mark is in one group, that of its place, and the groups are in
/// the order of the lanes, their rows and the pixels. None is without marks, and the marks of one are in the order given. `NoMemory`
/// where there was none.
pub fn groups(alloc: Global, scale: Scale, marks: Vec<Mark>) -> Result<Vec<Group>, NoMemory>
    ensures all { IfOk result (λ found. IsPermutation marks.items (flat_map marks_of found.items)) }
    ensures places { IfOk result (λ found. AllByRecursion (IsOfPlace scale) found.items) }
    ensures marked { IfOk result (λ found. AllByRecursion HasMarks found.items) }
    ensures rising { IfOk result (λ found. GroupsRise found.items) }
    ensures ordered { IfOk result (λ found. KeepOrder scale marks.items (flat_map marks_of found.items)) }
{
    let marks = sorted(scale, marks)?;
    cut(alloc, scale, &marks)
}
