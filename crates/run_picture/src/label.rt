//! What the marks of a picture say.
ghost use Rattle.std.specs.Prelude.{◌≡◌, ◌++◌, OnOk};
ghost use Rattle.std.specs.Fmt.{decimal};
ghost use Rattle.std.specs.List.{flat_map};
ghost use Rattle.run_picture.specs.Labels.{entity, fraction, group_text, kind_text, mark_text, more_text, subject_text, time_text};

use crate::group::Group;
use crate::mark::{Mark, MarkKind, Moment};
use crate::report::Subject;
use line_words::push_number;
use loop_model::NoMemory;
use std::alloc::Global;

/// The digits of the microseconds beyond a millisecond.
#[tactic(auto, using(std::proofs::lemmas::List::append_assoc))]
fn push_fraction(out: &mut Vec<u8>, micros: u64) -> Result<(), NoMemory>
    ensures { OnOk result (out.new.items ≡ out.old.items ++ fraction micros) }
{
    out.push(b'.')?;
    push_number(out, micros / 100 % 10)?;
    push_number(out, micros / 10 % 10)?;
    push_number(out, micros % 10)
}

/// A moment in milliseconds, with microseconds where there are any.
#[tactic(auto, using(std::proofs::lemmas::List::append_assoc))]
pub(crate) fn push_time(out: &mut Vec<u8>, time: Moment) -> Result<(), NoMemory>
    ensures { OnOk result (out.new.items ≡ out.old.items ++ time_text time) }
{
    push_number(out, time.millis)?;
    let micros = time.nanos / 1000;
    if micros != 0 {
        push_fraction(out, micros)?;
    }
    out.extend_from_slice(b" ms")?;
    Ok(())
}

/// Words, and a number behind them.
#[tactic(auto, using(std::proofs::lemmas::List::append_assoc))]
pub(crate) fn push_named(out: &mut Vec<u8>, words: &[u8], number: u64) -> Result<(), NoMemory>
    ensures { OnOk result (out.new.items ≡ out.old.items ++ (words.now ++ decimal number)) }
{
    out.extend_from_slice(words)?;
    push_number(out, number)
}

#[tactic(auto, using(std::proofs::lemmas::List::append_assoc))]
pub(crate) fn push_subject(out: &mut Vec<u8>, subject: Subject) -> Result<(), NoMemory>
    ensures { OnOk result (out.new.items ≡ out.old.items ++ subject_text subject) }
{
    match subject {
        Subject::What(what) => push_named(out, b"what ", u64::from(what)),
        Subject::Callback(callback) => push_named(out, b"callback ", callback),
    }
}

/// What a mark shows.
#[tactic(auto, using(std::proofs::lemmas::List::append_assoc))]
pub(crate) fn push_kind(out: &mut Vec<u8>, kind: MarkKind) -> Result<(), NoMemory>
    ensures { OnOk result (out.new.items ≡ out.old.items ++ kind_text kind) }
{
    match kind {
        MarkKind::Dispatch {
            number,
            handler,
            subject,
        } => {
            push_named(out, b"message ", number)?;
            push_named(out, b", handler ", u64::from(handler))?;
            out.extend_from_slice(b", ")?;
            push_subject(out, subject)
        }
        MarkKind::Frame => {
            out.extend_from_slice(b"frame")?;
            Ok(())
        }
        MarkKind::Run(run) => {
            push_named(out, b"callback ", run.id)?;
            push_named(out, b" in phase ", u64::from(run.phase))
        }
        MarkKind::Paint { gauge, value } => {
            push_named(out, b"gauge ", u64::from(gauge))?;
            push_named(out, b" at ", u64::from(value))
        }
    }
}

/// How many more marks stand at the place of the first one.
#[tactic(auto, using(std::proofs::lemmas::List::append_assoc))]
fn push_more(out: &mut Vec<u8>, count: u64) -> Result<(), NoMemory>
    ensures { OnOk result (out.new.items ≡ out.old.items ++ more_text count) }
{
    if count > 1 {
        push_named(out, b" (", count)?;
        out.extend_from_slice(b" marks here)")?;
    }
    Ok(())
}

/// The time of a mark, and what it shows.
#[tactic(auto, using(std::proofs::lemmas::List::append_assoc))]
fn push_mark(out: &mut Vec<u8>, mark: &Mark) -> Result<(), NoMemory>
    ensures { OnOk result (out.new.items ≡ out.old.items ++ mark_text mark.now) }
{
    push_time(out, mark.time)?;
    out.extend_from_slice(b": ")?;
    push_kind(out, mark.kind)
}

/// What a group says: the time of its first mark and what it shows, and the count where there are more.
#[tactic(auto, using(std::proofs::lemmas::List::append_assoc))]
pub(crate) fn push_group(out: &mut Vec<u8>, group: &Group) -> Result<(), NoMemory>
    ensures { OnOk result (out.new.items ≡ out.old.items ++ group_text group.now) }
{
    let marks = group.marks.as_slice();
    if let Some(first) = marks.first() {
        push_mark(out, first)?;
    }
    push_more(out, marks.len() as u64)
}

/// Writes a byte into an SVG: what would be markup is written as an entity.
fn push_entity(out: &mut Vec<u8>, byte: u8) -> Result<(), NoMemory>
    ensures { OnOk result (out.new.items ≡ out.old.items ++ entity byte) }
{
    match byte {
        b'&' => out.extend_from_slice(b"&amp;")?,
        b'<' => out.extend_from_slice(b"&lt;")?,
        b'>' => out.extend_from_slice(b"&gt;")?,
        b'"' => out.extend_from_slice(b"&quot;")?,
        other => out.push(other)?,
    }
    Ok(())
}

/// Writes text into an SVG or a page: what would be markup is written as an entity. `NoMemory` where there was none.
pub fn push_escaped(out: &mut Vec<u8>, text: &[u8]) -> Result<(), NoMemory>
    ensures { OnOk result (out.new.items ≡ out.old.items ++ flat_map entity text.now) }
{
    for byte in text {
        push_entity(out, *byte)?;
    }
    Ok(())
}
