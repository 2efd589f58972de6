//! Forms of lines, as they are shown, and how far a line goes along one.
use line_words::{Words, number};
use loop_model::NoMemory;
use std::alloc::Global;
use std::fmt::Write;

/// The words of a line. One that begins with a capital letter is a number, and where it ends with `?`, it may also be `-`;
/// any other stands as it is.
pub(crate) type Form = &'static [&'static str];

/// The names of the numbers that have to fit 32 bits.
const SHORT: [&str; 13] = [
    "LOOPER",
    "SENDERS",
    "SENDER",
    "HANDLER",
    "WHAT",
    "ARG",
    "SLOT?",
    "IDLE",
    "FD",
    "EVENTS",
    "GAUGE",
    "PAINTED",
    "RUN_PHASE",
];

/// Where a line leaves a form.
#[derive(Clone, Copy)]
pub(crate) struct Walk {
    /// How many of its words the form has at their places.
    pub words: usize,
    /// What the form has next, where it goes on.
    pub wanted: Option<&'static str>,
    /// Whether the line has no further word.
    pub ends: bool,
}

impl Walk {
    /// Whether the line has the form.
    pub(crate) fn is_whole(&self) -> bool {
        self.wanted.is_none() && self.ends
    }
}

/// Whether a word of a form is a number.
pub(crate) fn is_number(slot: &str) -> bool {
    match slot.as_bytes().first() {
        None => false,
        Some(byte) => byte.is_ascii_uppercase(),
    }
}

/// Whether a word of a form is a number, or `-` where there is none.
pub(crate) fn may_be_absent(slot: &str) -> bool {
    match slot.as_bytes().last() {
        None => false,
        Some(byte) => *byte == b'?',
    }
}

/// Whether a number of this name has to fit 32 bits.
pub(crate) fn is_short(slot: &str) -> bool {
    for name in SHORT {
        if name == slot {
            return true;
        }
    }
    false
}

/// Whether a word may stand where the form has this one.
fn fits(slot: &str, word: &[u8]) -> bool {
    if !is_number(slot) {
        return word == slot.as_bytes();
    }
    if may_be_absent(slot) && word == b"-".as_slice() {
        return true;
    }
    match number(word) {
        None => false,
        Some(value) => !is_short(slot) || value < 4294967296,
    }
}

/// Goes along a form as far as the line does.
pub(crate) fn walk_along(form: Form, line: &[u8]) -> Walk {
    let mut words = Words::new(line);
    for (count, slot) in form.iter().enumerate() {
        let found = words.next();
        let good = match found {
            None => false,
            Some(word) => fits(slot, word),
        };
        if !good {
            return Walk {
                words: count,
                wanted: Some(slot),
                ends: found.is_none(),
            };
        }
    }
    Walk {
        words: form.len(),
        wanted: None,
        ends: words.next().is_none(),
    }
}

/// How far the line goes along that one of the forms along which it goes farthest.
pub(crate) fn farthest(forms: &[Form], line: &[u8]) -> usize {
    let mut most = 0;
    for form in forms {
        most = walk_along(form, line).words.max(most);
    }
    most
}

/// Whether the line has one of the forms.
pub(crate) fn has_one(forms: &[Form], line: &[u8]) -> bool {
    for form in forms {
        if walk_along(form, line).is_whole() {
            return true;
        }
    }
    false
}

fn has(names: &[&'static str], name: &str) -> bool {
    for other in names {
        if *other == name {
            return true;
        }
    }
    false
}

/// What the forms have next behind so many words of the line, each once.
pub(crate) fn wanted_next(
    alloc: Global,
    forms: &[Form],
    line: &[u8],
    words: usize,
) -> Result<Vec<&'static str>, NoMemory> {
    let mut wanted = Vec::new(alloc);
    for form in forms {
        let walk = walk_along(form, line);
        if walk.words == words {
            let next = walk.wanted.unwrap_or("the end of the line");
            if !has(&wanted, next) {
                wanted.push(next)?;
            }
        }
    }
    Ok(wanted)
}

/// Writes the words of a form.
pub(crate) fn write_form(out: &mut String, form: Form) -> Result<(), NoMemory> {
    for (place, slot) in form.iter().enumerate() {
        if place > 0 {
            out.push_str(" ")?;
        }
        write!(out, "{slot}")?;
    }
    Ok(())
}

/// Writes a form for each line of text.
pub(crate) fn write_forms(out: &mut String, forms: &[Form]) -> Result<(), NoMemory> {
    for form in forms {
        out.push_str("    ")?;
        write_form(out, form)?;
        out.push('\n')?;
    }
    Ok(())
}
