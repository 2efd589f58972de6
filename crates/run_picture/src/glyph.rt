//! The shape of a mark, drawn from its place on.
use crate::canvas::Canvas;
use crate::group::{Group, Place, Row, Scale, key};
use crate::mark::MarkKind;
use crate::report::Subject;
use crate::shape::{Extent, numbered, push_class, push_rect, push_text};
use crate::shelf::value_of;
use line_words::push_number;
use loop_model::NoMemory;
use std::alloc::Global;

/// No text beside a paint is as wide, in pixels.
const WIDEST: usize = 80;

/// What drawing remembers from one group to the next: the sizes, and up to where a row's text reaches.
#[derive(Drop)]
pub(crate) struct Spot {
    frame: u64,
    slot: u64,
    phases: u64,
    width: u64,
    /// The row that was begun last, behind its lane.
    row: Option<(u64, Row)>,
    free: u64,
    /// How many pixels the text of the group at hand may take.
    room: u64,
    /// Whether anything ran in the frames of the group at hand.
    has_runs: bool,
}

/// The letter of a phase, so that it is told without colour.
pub(crate) fn letter(phases: u64, phase: u64) -> &'static [u8] {
    if phase == 0 {
        return b"I";
    }
    if phase == 1 {
        return b"A";
    }
    if phases == 5 && phase == 2 {
        return b"S";
    }
    if phase.saturating_add(1) == phases {
        return b"C";
    }
    b"T"
}

/// Whether two groups stand in one row.
fn is_beside(group: &Group, later: &Group) -> bool {
    group.place.lane == later.place.lane && group.place.row == later.place.row
}

/// Whether a group behind another one in its row stands where its text would: each mark, but no paint of a lower value.
fn is_in_the_way(group: &Group, later: &Group) -> bool {
    match group.place.row {
        Row::Gauge(_) => value_of(later) > value_of(group),
        Row::Handler(_) => true,
        Row::Frames => true,
        Row::Runs => true,
    }
}

/// How many pixels the text of a group may take: up to what is in the way, or the lanes' edge.
fn room_behind(groups: &[Group], index: usize, group: &Group, width: u64) -> u64 {
    for step in 1..WIDEST {
        let Some(later) = groups.get(index.saturating_add(step)) else {
            break;
        };
        if !is_beside(group, later) {
            break;
        }
        if is_in_the_way(group, later) {
            return later.place.column.saturating_sub(group.place.column);
        }
    }
    width.saturating_sub(group.place.column)
}

/// Whether a callback ran in the frames that stand at a place, each as wide as this.
fn has_runs(groups: &[Group], place: Place, frame: u64) -> bool {
    let first = key(Place {
        lane: place.lane,
        row: Row::Runs,
        column: place.column,
    });
    let index = groups.partition_point(|group| key(group.place) < first);
    match groups.get(index) {
        Some(group) => {
            group.place.lane == place.lane
                && group.place.row == Row::Runs
                && group.place.column < place.column.saturating_add(frame.max(1))
        }
        None => false,
    }
}

impl Spot {
    /// Nothing is drawn yet.
    pub(crate) fn new(scale: Scale, frame: u64, phases: u64) -> Spot {
        Spot {
            frame,
            slot: u64::from(scale.slot),
            phases,
            width: u64::from(scale.width),
            row: None,
            free: 0,
            room: 0,
            has_runs: false,
        }
    }

    /// Looks at the group of this number, and at what stands beside it.
    pub(crate) fn see(&mut self, groups: &[Group], index: usize, group: &Group) {
        self.begin(group);
        self.room = room_behind(groups, index, group, self.width);
        self.has_runs = group.place.row == Row::Frames && has_runs(groups, group.place, self.frame);
    }

    /// So many pixels, at most up to the lanes' edge from this column on.
    fn clipped(&self, column: u64, pixels: u64) -> u64 {
        pixels.min(self.width.saturating_sub(column)).max(1)
    }

    /// Begins a row where this group has another one than the last group.
    fn begin(&mut self, group: &Group) {
        let row = Some((group.place.lane, group.place.row));
        if self.row != row {
            self.row = row;
            self.free = 0;
        }
    }

    /// Text beside a mark that stands in this column, from a point on or up to one, where there is room for it.
    fn push_beside(
        &mut self,
        out: &mut Canvas,
        column: u64,
        points: (&[u8], &[u8]),
        text: &[u8],
    ) -> Result<(), NoMemory> {
        let width = 7u64.saturating_mul(text.len() as u64).saturating_add(8);
        if column < self.free || text.is_empty() {
            return Ok(());
        }
        let is_behind = width <= self.room;
        let is_last = self.room == self.width.saturating_sub(column);
        if is_behind {
            push_point(out, b"w", points.0, text)?;
            self.free = column.saturating_add(width);
        } else if is_last && column >= self.free.saturating_add(width) {
            push_point(out, b"w z", points.1, text)?;
        }
        Ok(())
    }
}

/// Text at a point, in a class.
fn push_point(out: &mut Canvas, class: &[u8], point: &[u8], text: &[u8]) -> Result<(), NoMemory> {
    out.extend_from_slice(b"<text")?;
    push_class(out, class)?;
    out.push(b' ')?;
    out.extend_from_slice(point)?;
    out.push(b'>')?;
    out.extend_from_slice(text)?;
    out.extend_from_slice(b"</text>")
}

/// What stands beside a dispatch: its `what` or callback, or how many dispatches there are.
fn beside(alloc: Global, group: &Group) -> Result<Vec<u8>, NoMemory> {
    let marks = group.marks.as_slice();
    if marks.len() > 1 {
        return numbered(alloc, b"x", marks.len() as u64);
    }
    if let Some(mark) = marks.first() {
        if let MarkKind::Dispatch { subject, .. } = mark.kind {
            return match subject {
                Subject::What(what) => numbered(alloc, b"", u64::from(what)),
                Subject::Callback(callback) => numbered(alloc, b"c", callback),
            };
        }
    }
    Ok(Vec::new(alloc))
}

fn push_dispatch(
    alloc: Global,
    out: &mut Canvas,
    spot: &mut Spot,
    handler: u32,
    group: &Group,
) -> Result<(), NoMemory> {
    if handler >= 64 {
        out.extend_from_slice(b"<path class=\"m\" d=\"M0 4l4 6-4 6-4-6z\"/>")?;
        return Ok(());
    }
    out.extend_from_slice(b"<path class=\"d\" d=\"M0 4l4 6-4 6-4-6z\"/>")?;
    let text = beside(alloc, group)?;
    let points: (&[u8], &[u8]) = (b"x=\"6\" y=\"14\"", b"x=\"-6\" y=\"14\"");
    spot.push_beside(out, group.place.column, points, &text)
}

/// A frame's box, dashed where nothing ran in it.
fn push_frame(out: &mut Canvas, spot: &Spot, column: u64) -> Result<(), NoMemory> {
    let extent = Extent {
        x: 0,
        y: 3,
        width: spot.clipped(column, spot.frame.saturating_sub(2)),
        height: 20,
    };
    let class: &[u8] = if spot.has_runs { b"b" } else { b"e" };
    push_rect(out, extent, class)
}

/// The letter of a phase, and how many callbacks ran in it, where there is room.
fn push_letter(
    alloc: Global,
    out: &mut Canvas,
    slot: u64,
    letter: &[u8],
    count: usize,
) -> Result<(), NoMemory> {
    let mut text = Vec::new(alloc);
    text.extend_from_slice(letter)?;
    if count > 1 && slot >= 20 {
        push_number(&mut text, count as u64)?;
    }
    push_text(out, slot / 2, 17, b"c", &text)
}

/// Whether a callback of a group ran in a phase; those behind the fifth count as the fifth.
fn has_phase(group: &Group, phase: u32) -> bool {
    for mark in group.marks.as_slice() {
        if let MarkKind::Run(run) = mark.kind {
            if run.phase.min(4) == phase {
                return true;
            }
        }
    }
    false
}

/// How many phases the callbacks of a group have.
fn count_phases(group: &Group) -> u64 {
    let mut count = 0u64;
    for phase in 0..5u32 {
        count = count.saturating_add(u64::from(has_phase(group, phase)));
    }
    count
}

/// A box in the colour of a phase.
fn push_part(
    alloc: Global,
    out: &mut Canvas,
    letter: &[u8],
    extent: Extent,
) -> Result<(), NoMemory> {
    let mut class = Vec::new(alloc);
    class.push(b'p')?;
    class.extend_from_slice(letter)?;
    push_rect(out, extent, &class)
}

/// The callbacks at one place: the part of a frame that is their phase's. Where they have several phases, as in a frame too
/// narrow for parts, each has a stripe of its own.
fn push_run(alloc: Global, out: &mut Canvas, spot: &Spot, group: &Group) -> Result<(), NoMemory> {
    let count = count_phases(group).max(1);
    let width = spot.clipped(group.place.column, spot.slot.saturating_sub(1));
    let mut y = 4u64;
    for phase in 0..5u32 {
        if has_phase(group, phase) {
            let letter = letter(spot.phases, u64::from(phase));
            let extent = Extent {
                x: 1,
                y,
                width,
                height: 18 / count,
            };
            push_part(alloc, out, letter, extent)?;
            y = y.saturating_add(18 / count);
            if count == 1 && width >= 8 {
                push_letter(
                    alloc,
                    out,
                    width.saturating_add(1),
                    letter,
                    group.marks.len(),
                )?;
            }
        }
    }
    Ok(())
}

fn push_paint(
    alloc: Global,
    out: &mut Canvas,
    spot: &mut Spot,
    group: &Group,
) -> Result<(), NoMemory> {
    out.extend_from_slice(b"<path class=\"o\" d=\"M0-2l2 2-2 2-2-2z\"/>")?;
    let text = numbered(alloc, b"", u64::from(value_of(group)))?;
    let points: (&[u8], &[u8]) = (b"x=\"3\" y=\"-3\"", b"x=\"-3\" y=\"-3\"");
    spot.push_beside(out, group.place.column, points, &text)
}

/// The shape of a group: what its first mark is, and text beside it where that fits.
pub(crate) fn push_glyph(
    alloc: Global,
    out: &mut Canvas,
    spot: &mut Spot,
    group: &Group,
) -> Result<(), NoMemory> {
    let marks = group.marks.as_slice();
    let Some(mark) = marks.first() else {
        return Ok(());
    };
    match mark.kind {
        MarkKind::Dispatch { handler, .. } => push_dispatch(alloc, out, spot, handler, group),
        MarkKind::Frame => push_frame(out, spot, group.place.column),
        MarkKind::Run(_) => push_run(alloc, out, spot, group),
        MarkKind::Paint { .. } => push_paint(alloc, out, spot, group),
    }
}
