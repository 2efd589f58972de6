//! The lines of a text, and the words of a line with the columns where they begin.
use loop_model::NoMemory;
use std::alloc::Global;
use std::fmt::Write;

/// How much of a line is shown.
const SHOWN: usize = 100;

/// The lines of a text without their line feeds, and what stands behind the last line feed.
#[derive(Drop)]
pub(crate) struct Lines<'a> {
    pub whole: Vec<&'a [u8]>,
    pub rest: &'a [u8],
}

/// What stands in the bytes from one place up to another, or nothing where that is none.
fn between(bytes: &[u8], from: usize, to: usize) -> &[u8] {
    if from > to || to > bytes.len() {
        return &[];
    }
    &bytes[from..to]
}

/// Parts a text into its lines.
pub(crate) fn lines_of(alloc: Global, bytes: &[u8]) -> Result<Lines<'_>, NoMemory> {
    let mut whole = Vec::new(alloc);
    let mut start = 0;
    for (place, byte) in bytes.iter().enumerate() {
        if *byte == b'\n' {
            whole.push(between(bytes, start, place))?;
            start = place + 1;
        }
    }
    Ok(Lines {
        whole,
        rest: between(bytes, start, bytes.len()),
    })
}

impl<'a> Lines<'a> {
    /// The line of this number, counted from 1, and whether it has its line feed. None behind the last line.
    pub(crate) fn at(&self, line: u64) -> (Option<&'a [u8]>, bool) {
        let place = line.saturating_sub(1) as usize;
        if place < self.whole.len() {
            return (Some(self.whole[place]), true);
        }
        if place == self.whole.len() && !self.rest.is_empty() {
            return (Some(self.rest), false);
        }
        (None, false)
    }

    /// The lines before the one of this number.
    pub(crate) fn before(&self, line: u64) -> &[&'a [u8]] {
        let count = (line.saturating_sub(1) as usize).min(self.whole.len());
        &self.whole[..count]
    }
}

/// The word of this number, counted from 0, and the column where it begins, counted from 1; no word behind the last one.
pub(crate) fn word_at(line: &[u8], number: usize) -> (Option<&[u8]>, usize) {
    let mut spaces = 0;
    let mut start = 0;
    for (place, byte) in line.iter().enumerate() {
        if *byte == b' ' {
            if spaces == number {
                return (Some(between(line, start, place)), start.saturating_add(1));
            }
            spaces = place.min(spaces).saturating_add(1);
            start = place + 1;
        }
    }
    if spaces == number {
        (
            Some(between(line, start, line.len())),
            start.saturating_add(1),
        )
    } else {
        (None, line.len().saturating_add(1))
    }
}

/// Writes bytes with those that can't be seen as `\xNN`, `\t` and `\r`.
pub(crate) fn write_shown(out: &mut String, bytes: &[u8]) -> Result<(), NoMemory> {
    for (place, byte) in bytes.iter().enumerate() {
        if place >= SHOWN {
            out.push_str("..")?;
            return Ok(());
        }
        match *byte {
            b'\t' => out.push_str("\\t")?,
            b'\r' => out.push_str("\\r")?,
            32..=126 => out.push(char::from(*byte))?,
            other => write!(out, "\\x{other:02x}")?,
        }
    }
    Ok(())
}

/// Writes the same between backquotes.
pub(crate) fn write_quoted(out: &mut String, bytes: &[u8]) -> Result<(), NoMemory> {
    out.push('`')?;
    write_shown(out, bytes)?;
    out.push('`')?;
    Ok(())
}

/// Writes a line of the text as it stands, set in.
pub(crate) fn write_line(out: &mut String, line: &[u8]) -> Result<(), NoMemory> {
    out.push_str("  | ")?;
    write_shown(out, line)?;
    out.push('\n')?;
    Ok(())
}
