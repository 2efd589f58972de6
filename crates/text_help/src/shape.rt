//! Why a line has none of the forms that may stand at its place.
use crate::form::{
    Form, farthest, has_one, is_number, is_short, may_be_absent, walk_along, wanted_next,
    write_forms,
};
use crate::layout::{fault_of, write_fault};
use crate::lines::{word_at, write_quoted};
use loop_model::NoMemory;
use std::alloc::Global;
use std::fmt::Write;

/// Writes the forms that may stand at a place; there are none behind the last line alone.
pub(crate) fn write_choice(out: &mut String, forms: &[Form]) -> Result<(), NoMemory> {
    if forms.is_empty() {
        out.push_str("no line may stand behind `end`\n")?;
        return Ok(());
    }
    out.push_str("lines that may stand here:\n")?;
    write_forms(out, forms)
}

/// Writes that a text stops before this last line of it, and what may come next.
pub(crate) fn write_stop(
    out: &mut String,
    number: u64,
    last: &str,
    forms: &[Form],
) -> Result<(), NoMemory> {
    if number == 1 {
        out.push_str("the text is empty\n")?;
    } else {
        writeln!(out, "the text stops before its line `{last}`")?;
    }
    write_choice(out, forms)
}

/// Writes that things are numbered, and the number of the next one.
pub(crate) fn write_next(out: &mut String, things: &str, next: u64) -> Result<(), NoMemory> {
    writeln!(
        out,
        "{things} are numbered from 0 on; the next one is {next}"
    )?;
    Ok(())
}

/// Writes what kind of text begins with a line, where it is another than was asked for.
fn write_kind_of_text(out: &mut String, line: &[u8]) -> Result<(), NoMemory> {
    let (word, _) = word_at(line, 0);
    let first = word.unwrap_or(&[]);
    let kind = if first == b"dashboard".as_slice() {
        "a script: explain script"
    } else if first == b"report".as_slice() {
        "a report: explain report"
    } else if first == b"trace".as_slice() {
        "a trace: explain trace"
    } else if first == b"animate".as_slice() {
        "a plan of values: explain plan"
    } else if first == b"values".as_slice() {
        "what `animate` writes"
    } else if first == b"inbox".as_slice() {
        "what `inbox` writes"
    } else {
        return Ok(());
    };
    writeln!(out, "a text that begins so is {kind}")?;
    Ok(())
}

/// Writes why the line has none of these forms.
pub(crate) fn write_form_fault(
    alloc: Global,
    out: &mut String,
    forms: &[Form],
    line: &[u8],
    has_feed: bool,
    number: u64,
) -> Result<(), NoMemory> {
    if forms.is_empty() {
        return write_choice(out, forms);
    }
    if !has_feed {
        out.push_str("the last line has no line feed at its end (byte 10)\n")?;
        if has_one(forms, line) {
            return Ok(());
        }
    }
    if let Some((fault, column)) = fault_of(line) {
        write_fault(out, fault, column)?;
        return Ok(());
    }
    if number == 1 && farthest(forms, line) == 0 {
        write_kind_of_text(out, line)?;
    }
    write_words(alloc, out, forms, line)
}

/// Writes which word of the line fits none of these forms, and what could stand there.
fn write_words(
    alloc: Global,
    out: &mut String,
    forms: &[Form],
    line: &[u8],
) -> Result<(), NoMemory> {
    let reached = farthest(forms, line);
    let wanted = wanted_next(alloc, forms, line, reached)?;
    let (word, column) = word_at(line, reached);
    write!(out, "column {column}: ")?;
    match word {
        None => out.push_str("the line stops here")?,
        Some(word) => write_quoted(out, word)?,
    }
    out.push_str("; wanted here: ")?;
    for (place, name) in wanted.iter().enumerate() {
        if place > 0 {
            out.push_str(", ")?;
        }
        write!(out, "{name}")?;
    }
    out.push('\n')?;
    for name in wanted.iter() {
        write_number(out, name)?;
    }
    write_reached(alloc, out, forms, line, reached)
}

/// Writes how a number of this name is spelled, where it names one.
fn write_number(out: &mut String, name: &str) -> Result<(), NoMemory> {
    if !is_number(name) {
        return Ok(());
    }
    let bits: u64 = if is_short(name) { 32 } else { 64 };
    write!(
        out,
        "{name} is decimal digits without a leading zero, below 2 to the {bits}"
    )?;
    if may_be_absent(name) {
        out.push_str(", or `-` where there is none")?;
    }
    out.push('\n')?;
    Ok(())
}

/// Writes the forms that the line follows so far.
fn write_reached(
    alloc: Global,
    out: &mut String,
    forms: &[Form],
    line: &[u8],
    reached: usize,
) -> Result<(), NoMemory> {
    let mut left = Vec::new(alloc);
    for form in forms {
        if walk_along(form, line).words == reached {
            left.push(*form)?;
        }
    }
    if reached == 0 {
        return write_choice(out, &left);
    }
    out.push_str("lines that begin so:\n")?;
    write_forms(out, &left)
}
