//! Why a text is no trace.
ghost use Rattle.std.specs.Prelude.{IfOk, string_bytes};
ghost use Rattle.text_help.specs.Heads.{BeginsWith, trace_head};

use crate::form::{Form, walk_along, write_form, write_forms};
use crate::layout::{fault_of, write_fault};
use crate::lines::{lines_of, word_at, write_line, write_quoted};
use crate::shape::{write_form_fault, write_stop};
use line_words::number;
use loop_model::NoMemory;
use std::alloc::Global;
use std::fmt::Write;

const TITLE: Form = &["trace", "1"];

const QUEUES: [Form; 5] = [
    &["queue", "LOOPER", "main", "lockstep", "SENDERS", "COUNT"],
    &["queue", "LOOPER", "main", "free", "SENDERS", "COUNT"],
    &["queue", "LOOPER", "side", "lockstep", "SENDERS", "COUNT"],
    &["queue", "LOOPER", "side", "free", "SENDERS", "COUNT"],
    END,
];

const END: Form = &["end"];

/// The calls, behind the sender and the number of an entry.
const CALLS: [Form; 12] = [
    &[
        "SENDER",
        "SEQ",
        "post",
        "HANDLER",
        "WHAT",
        "ARG",
        "OBJ?",
        "CALLBACK?",
        "WHEN",
        "a",
        "SLOT?",
    ],
    &[
        "SENDER",
        "SEQ",
        "post",
        "HANDLER",
        "WHAT",
        "ARG",
        "OBJ?",
        "CALLBACK?",
        "WHEN",
        "s",
        "SLOT?",
    ],
    &["SENDER", "SEQ", "barrier", "NOW"],
    &["SENDER", "SEQ", "unbarrier", "TOKEN"],
    &["SENDER", "SEQ", "remove", "HANDLER", "what", "WHAT", "OBJ?"],
    &[
        "SENDER", "SEQ", "remove", "HANDLER", "callback", "CALLBACK", "OBJ?",
    ],
    &["SENDER", "SEQ", "remove", "HANDLER", "all", "OBJ?"],
    &["SENDER", "SEQ", "quit", "plain", "NOW"],
    &["SENDER", "SEQ", "quit", "safe", "NOW"],
    &["SENDER", "SEQ", "next", "NOW"],
    &["SENDER", "SEQ", "advance", "NOW"],
    &["SENDER", "SEQ", "halt", "NOW"],
];

const REPLIES: [Form; 13] = [
    &["accepted", "N"],
    &["refused", "PLACE"],
    &["token", "TOKEN"],
    &["unbarriered"],
    &["not-posted"],
    &["removed", "COUNT"],
    &["quit-done"],
    &["already-quit", "PLACE"],
    &["not-allowed"],
    &["dispatched", "N"],
    &["disposed"],
    &["advanced"],
    &["halted"],
];

/// How far a trace has come.
#[derive(Clone, Copy, PartialEq, Eq)]
enum Part {
    Start,
    Body,
    End,
}

/// Where the lines before a bad one lead: how far, and how many entries of the queue are to come.
#[derive(Clone, Copy)]
struct Place {
    part: Part,
    left: u64,
}

/// The number behind so many words of a line, or 0.
fn number_at(line: &[u8], word: usize) -> u64 {
    let (found, _) = word_at(line, word);
    number(found.unwrap_or(&[])).unwrap_or(0)
}

/// Whether a line begins with this word.
fn begins(line: &[u8], first: &str) -> bool {
    let (word, _) = word_at(line, 0);
    word.unwrap_or(&[]) == first.as_bytes()
}

/// Where a good line leads.
fn behind(place: Place, line: &[u8]) -> Place {
    if place.left > 0 {
        return Place {
            part: place.part,
            left: place.left.saturating_sub(1),
        };
    }
    if begins(line, "queue") {
        return Place {
            part: Part::Body,
            left: number_at(line, 5),
        };
    }
    let part = if begins(line, "end") {
        Part::End
    } else {
        Part::Body
    };
    Place { part, left: 0 }
}

/// The forms that may stand in this part.
fn forms_in(part: Part) -> &'static [Form] {
    match part {
        Part::Start => &[TITLE],
        Part::Body => &QUEUES,
        Part::End => &[],
    }
}

/// What is said of a text whose first bad line this is.
pub(crate) fn bad_text(alloc: Global, bytes: &[u8], number: u64) -> Result<String, NoMemory>
    ensures { IfOk result (λ text. BeginsWith (trace_head number) (string_bytes text)) }
{
    let mut out = String::new(alloc);
    writeln!(out, "trace line {number}")?;
    let reason = reason_text(alloc, bytes, number)?;
    out.push_str(reason.as_str())?;
    Ok(out)
}

/// Why a line is bad.
fn reason_text(alloc: Global, bytes: &[u8], number: u64) -> Result<String, NoMemory> {
    let mut out = String::new(alloc);
    let lines = lines_of(alloc, bytes)?;
    let mut place = Place {
        part: Part::Start,
        left: 0,
    };
    for line in lines.before(number) {
        place = behind(place, line);
    }
    let forms = forms_in(place.part);
    let (line, has_feed) = lines.at(number);
    if place.left > 0 {
        writeln!(
            out,
            "entries of this queue that are still to come: {}",
            place.left
        )?;
    }
    let Some(line) = line else {
        if place.left == 0 {
            write_stop(&mut out, number, "end", forms)?;
        } else {
            out.push_str("the text stops before these\n")?;
        }
        return Ok(out);
    };
    write_line(&mut out, line)?;
    if place.left == 0 {
        if place.part == Part::Body && call_of(line).is_some() {
            out.push_str("an entry more than the COUNT of its queue's line\n")?;
        }
        write_form_fault(alloc, &mut out, forms, line, has_feed, number)?;
    } else {
        write_entry(alloc, &mut out, line, has_feed, number)?;
    }
    Ok(out)
}

/// The call that begins a line, where one does.
fn call_of(line: &[u8]) -> Option<Form> {
    for form in CALLS {
        if walk_along(form, line).wanted.is_none() {
            return Some(form);
        }
    }
    None
}

/// What stands behind so many words of a line and a space, and the column where it begins.
fn behind_words(line: &[u8], words: usize) -> (&[u8], usize) {
    let (word, column) = word_at(line, words);
    let start = column.saturating_sub(1);
    if word.is_none() || start > line.len() {
        return (&[], line.len().saturating_add(1));
    }
    (&line[start..], column)
}

/// Writes why a line is no entry.
fn write_entry(
    alloc: Global,
    out: &mut String,
    line: &[u8],
    has_feed: bool,
    number: u64,
) -> Result<(), NoMemory> {
    let Some(call) = call_of(line) else {
        return write_form_fault(alloc, out, &CALLS, line, has_feed, number);
    };
    if !has_feed {
        out.push_str("the last line has no line feed at its end (byte 10)\n")?;
    }
    if let Some((fault, column)) = fault_of(line) {
        return write_fault(out, fault, column);
    }
    let (reply, column) = behind_words(line, call.len());
    if crate::form::has_one(&REPLIES, reply) {
        return Ok(());
    }
    write!(out, "column {column}: ")?;
    if reply.is_empty() {
        out.push_str("the line stops here")?;
    } else {
        write_quoted(out, reply)?;
    }
    out.push_str("; wanted here: the reply to `")?;
    write_form(out, call)?;
    out.push_str("`\n")?;
    out.push_str("replies:\n")?;
    write_forms(out, &REPLIES)
}
