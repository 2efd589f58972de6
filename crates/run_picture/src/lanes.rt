//! The background of a picture: lanes, rows, the levels of gauges, and what has no time.
use crate::canvas::Canvas;
use crate::group::{Group, Row};
use crate::label::{push_named, push_subject};
use crate::mark::MarkKind;
use crate::report::{Act, Fates, Looper, Past, Report};
use crate::shape::{LEFT, numbered, push_line, push_text};
use line_words::push_number;
use loop_model::NoMemory;
use std::alloc::Global;

const HEAD_HEIGHT: u64 = 30;

const NOTE_HEIGHT: u64 = 16;

const MOST_NOTES: u64 = 6;

/// The height of a row, and how far below its upper edge its name and its line stand, in pixels.
#[derive(Clone, Copy)]
struct Measures {
    height: u64,
    name: u64,
    line: u64,
}

const HANDLER: Measures = Measures {
    height: 22,
    name: 14,
    line: 17,
};

const FRAMES: Measures = Measures {
    height: 30,
    name: 17,
    line: 24,
};

const GAUGE: Measures = Measures {
    height: 48,
    name: 28,
    line: 40,
};

fn measures_of(row: Row) -> Measures {
    match row {
        Row::Handler(_) => HANDLER,
        Row::Frames => FRAMES,
        Row::Runs => FRAMES,
        Row::Gauge(_) => GAUGE,
    }
}

/// The rows of a picture that are drawn so far: where each group stands, and where the next row begins.
#[derive(Drop)]
pub(crate) struct Lanes {
    /// The upper edge of the row of each group, in the order of the groups.
    tops: Vec<u64>,
    /// Where the next row begins.
    pub(crate) next: u64,
    /// The width of the lanes.
    pub(crate) width: u64,
    /// The row that was begun last, and its upper edge.
    row: Option<Row>,
    top: u64,
}

fn worded(alloc: Global, words: &[u8]) -> Result<Vec<u8>, NoMemory> {
    let mut text = Vec::new(alloc);
    text.extend_from_slice(words)?;
    Ok(text)
}

/// The name of a row; a handler from 64 on is a choreographer's.
fn row_name(alloc: Global, row: Row) -> Result<Vec<u8>, NoMemory> {
    match row {
        Row::Handler(handler) => {
            if handler < 64 {
                numbered(alloc, b"handler ", u64::from(handler))
            } else {
                worded(alloc, b"frame messages")
            }
        }
        Row::Frames => worded(alloc, b"frames"),
        Row::Runs => worded(alloc, b"frames"),
        Row::Gauge(gauge) => numbered(alloc, b"gauge ", u64::from(gauge)),
    }
}

/// One count of fates, where it isn't 0.
fn push_fate(out: &mut Vec<u8>, count: u64, word: &[u8]) -> Result<(), NoMemory> {
    if count > 0 {
        if !out.is_empty() {
            out.extend_from_slice(b", ")?;
        }
        push_number(out, count)?;
        out.push(b' ')?;
        out.extend_from_slice(word)?;
    }
    Ok(())
}

/// The fates of a looper's messages in words.
fn fates_text(alloc: Global, fates: &Fates) -> Result<Vec<u8>, NoMemory> {
    let mut text = Vec::new(alloc);
    push_fate(&mut text, fates.accepted, b"accepted")?;
    push_fate(&mut text, fates.dispatched, b"dispatched")?;
    push_fate(&mut text, fates.removed, b"removed")?;
    push_fate(&mut text, fates.dropped, b"dropped")?;
    push_fate(&mut text, fates.stranded, b"stranded")?;
    push_fate(&mut text, fates.queued, b"queued")?;
    if text.is_empty() {
        text.extend_from_slice(b"nothing posted")?;
    }
    Ok(text)
}

/// A looper's line: its name, and the fates of its messages.
fn push_head(
    alloc: Global,
    out: &mut Canvas,
    y: u64,
    number: u64,
    looper: &Looper,
) -> Result<(), NoMemory> {
    let name = numbered(alloc, b"looper ", number)?;
    push_text(out, 16, y.saturating_add(16), b"n", &name)?;
    let fates = fates_text(alloc, &looper.fates)?;
    push_text(out, LEFT, y.saturating_add(16), b"f", &fates)?;
    out.push(b'\n')?;
    Ok(())
}

/// What a line of a history says that has no time; nothing for a dispatch.
fn past_text(alloc: Global, past: &Past) -> Result<Vec<u8>, NoMemory> {
    let mut text = Vec::new(alloc);
    match *past {
        Past::Dispatch { .. } => {}
        Past::Refused {
            handler,
            subject,
            place,
        } => {
            push_named(&mut text, b"refused: handler ", u64::from(handler))?;
            text.extend_from_slice(b", ")?;
            push_subject(&mut text, subject)?;
            push_named(&mut text, b": the queue quit before, at entry ", place)?;
        }
        Past::NotPosted { token } => push_named(&mut text, b"no barrier with token ", token)?,
        Past::NotAllowed => text.extend_from_slice(b"the main looper may not quit")?,
        Past::AlreadyQuit { place } => {
            push_named(
                &mut text,
                b"quit again: the queue quit before, at entry ",
                place,
            )?;
        }
    }
    Ok(text)
}

/// What a line of a journal says that has no mark; nothing for a paint.
fn act_text(alloc: Global, act: &Act) -> Result<Vec<u8>, NoMemory> {
    let mut text = Vec::new(alloc);
    match *act {
        Act::Paint { .. } => {}
        Act::Idle { id } => {
            push_named(&mut text, b"idle handler ", u64::from(id))?;
            text.extend_from_slice(b" ran")?;
        }
        Act::Event { fd, events } => {
            push_named(&mut text, b"events ", u64::from(events))?;
            push_named(&mut text, b" on descriptor ", u64::from(fd))?;
        }
    }
    Ok(text)
}

/// One line under a lane, up to the most of them.
fn push_note(
    out: &mut Canvas,
    y: u64,
    count: u64,
    class: &[u8],
    text: &[u8],
) -> Result<(u64, u64), NoMemory> {
    if text.is_empty() {
        return Ok((y, count));
    }
    if count < MOST_NOTES {
        push_text(out, LEFT, y.saturating_add(12), class, text)?;
        out.push(b'\n')?;
        return Ok((y.saturating_add(NOTE_HEIGHT), count.saturating_add(1)));
    }
    Ok((y, count.saturating_add(1)))
}

/// The lines under a lane. Answers where the next lane begins.
fn push_notes(alloc: Global, out: &mut Canvas, y: u64, looper: &Looper) -> Result<u64, NoMemory> {
    let mut next = y;
    let mut count = 0;
    for past in looper.past.as_slice() {
        let text = past_text(alloc, past)?;
        (next, count) = push_note(out, next, count, b"r", &text)?;
    }
    for act in looper.acts.as_slice() {
        let text = act_text(alloc, act)?;
        (next, count) = push_note(out, next, count, b"f", &text)?;
    }
    if count > MOST_NOTES {
        let mut text = numbered(alloc, b"and ", count.saturating_sub(MOST_NOTES))?;
        text.extend_from_slice(b" more")?;
        push_text(out, LEFT, next.saturating_add(12), b"f", &text)?;
        next = next.saturating_add(NOTE_HEIGHT);
    }
    Ok(next)
}

impl Lanes {
    /// Nothing is drawn yet, and the first lane begins here.
    pub(crate) fn new(alloc: Global, top: u64, width: u32) -> Lanes {
        Lanes {
            tops: Vec::new(alloc),
            next: top,
            width: u64::from(width),
            row: None,
            top,
        }
    }

    /// The upper edge of the row of a group, by the group's number.
    pub(crate) fn top_of(&self, index: usize) -> u64 {
        self.tops.get(index).copied().unwrap_or(0)
    }

    /// Begins a row where this group has another one than the last group.
    fn begin_row(&mut self, alloc: Global, out: &mut Canvas, row: Row) -> Result<(), NoMemory> {
        if self.row == Some(row) {
            return Ok(());
        }
        let is_runs = row == Row::Runs;
        if is_runs && self.row == Some(Row::Frames) {
            self.row = Some(row);
            return Ok(());
        }
        let measures = measures_of(row);
        self.top = self.next;
        self.next = self.next.saturating_add(measures.height);
        self.row = Some(row);
        let name = row_name(alloc, row)?;
        let name_y = self.top.saturating_add(measures.name);
        push_text(out, LEFT - 10, name_y, b"l", &name)?;
        let line_y = self.top.saturating_add(measures.line);
        let right = LEFT.saturating_add(self.width);
        push_line(out, (LEFT, line_y), (right, line_y), b"q")
    }

    /// The rows of one lane.
    fn push_rows(
        &mut self,
        alloc: Global,
        out: &mut Canvas,
        lane: u64,
        groups: &[Group],
    ) -> Result<(), NoMemory> {
        self.row = None;
        for group in groups {
            if group.place.lane == lane {
                self.begin_row(alloc, out, group.place.row)?;
                self.tops.push(self.top)?;
            }
        }
        Ok(())
    }

    /// Draws a lane: its name and fates, its rows, and the lines under it.
    fn push_lane(
        &mut self,
        alloc: Global,
        out: &mut Canvas,
        lane: u64,
        looper: &Looper,
        groups: &[Group],
    ) -> Result<(), NoMemory> {
        push_head(alloc, out, self.next, lane, looper)?;
        self.next = self.next.saturating_add(HEAD_HEIGHT);
        self.push_rows(alloc, out, lane, groups)?;
        self.next = push_notes(alloc, out, self.next, looper)?;
        self.next = self.next.saturating_add(14);
        let y = self.next.saturating_sub(6);
        let right = LEFT.saturating_add(self.width);
        push_line(out, (16, y), (right, y), b"q")
    }
}

/// Draws the lanes of a report, and answers where the rows of the groups are.
pub(crate) fn push_lanes(
    alloc: Global,
    out: &mut Canvas,
    report: &Report,
    groups: &[Group],
    top: u64,
    width: u32,
) -> Result<Lanes, NoMemory> {
    let mut lanes = Lanes::new(alloc, top, width);
    let mut lane = 0u64;
    for looper in report.loopers.as_slice() {
        lanes.push_lane(alloc, out, lane, looper, groups)?;
        lane = lane.saturating_add(1);
    }
    Ok(lanes)
}
