//! What is wrong with the bytes of a line, whatever its words are.
use loop_model::NoMemory;
use std::fmt::Write;

/// A thing that no line of any of the languages has.
#[derive(Clone, Copy)]
pub(crate) enum Fault {
    /// A byte order mark before the first line.
    Mark,
    /// A carriage return before the line feed.
    Return,
    Tab,
    Byte(u8),
    Blank,
    Comment,
    /// A space before the first word.
    Leading,
    /// Two spaces, one behind the other.
    Double,
    /// A space behind the last word.
    Trailing,
}

/// The fault of a byte, by the one before it and whether it is the last one.
fn fault_at(before: Option<u8>, byte: u8, is_last: bool) -> Option<Fault> {
    match byte {
        b'\r' => Some(if is_last {
            Fault::Return
        } else {
            Fault::Byte(byte)
        }),
        b'\t' => Some(Fault::Tab),
        b'#' => Some(Fault::Comment),
        b'/' => Some(Fault::Comment),
        b' ' => match before {
            None => Some(Fault::Leading),
            Some(b' ') => Some(Fault::Double),
            Some(_) if is_last => Some(Fault::Trailing),
            Some(_) => None,
        },
        33..=126 => None,
        _ => Some(Fault::Byte(byte)),
    }
}

/// The first fault of a line, and its column, counted from 1.
pub(crate) fn fault_of(line: &[u8]) -> Option<(Fault, usize)> {
    if line.is_empty() {
        return Some((Fault::Blank, 1));
    }
    if line.starts_with(&[239, 187, 191]) {
        return Some((Fault::Mark, 1));
    }
    let mut before = None;
    let last = line.len() - 1;
    for (place, byte) in line.iter().enumerate() {
        if let Some(fault) = fault_at(before, *byte, place == last) {
            return Some((fault, place + 1));
        }
        before = Some(*byte);
    }
    None
}

/// Writes what is wrong, and where.
pub(crate) fn write_fault(out: &mut String, fault: Fault, column: usize) -> Result<(), NoMemory> {
    write!(out, "column {column}: ")?;
    let text = match fault {
        Fault::Mark => "a byte order mark; the text is plain ASCII from its first byte on\n",
        Fault::Return => "a carriage return (CRLF); a line ends with a line feed alone\n",
        Fault::Tab => "a tab; words have one space between them\n",
        Fault::Byte(byte) => {
            writeln!(out, "byte {byte}; a line has printable ASCII alone")?;
            return Ok(());
        }
        Fault::Blank => "a blank line; there are none\n",
        Fault::Comment => "no line has `#` or `/`, and there are no comments\n",
        Fault::Leading => "a space before the first word; there is none\n",
        Fault::Double => "two spaces; words have one space between them\n",
        Fault::Trailing => "a space behind the last word; there is none\n",
    };
    out.push_str(text)?;
    Ok(())
}
