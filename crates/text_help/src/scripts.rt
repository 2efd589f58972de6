//! What is said of a script.
ghost use Rattle.std.specs.Prelude.{◌≡◌, IfOk, Some, string_bytes};
ghost use Rattle.dash_script.specs.Accepting.{IsScriptText, IsScriptRefusal};
ghost use Rattle.text_help.specs.Heads.{BeginsWith, script_head, cause_name};
ghost use Rattle.text_help.specs.Saying.{BeginsWithHead, BadAll, BadOnly, GoodAll, GoodOnly, IsSaidOfScript};

use crate::commands::{KINDS, kind_of, place_of, shown};
use crate::form::{Form, write_form};
use crate::lines::{Lines, lines_of, word_at, write_line};
use crate::said::Said;
use crate::shape::{write_form_fault, write_next, write_stop};
use dash_script::{Cause, LineKind, Numbers, Parsed, Part, Role, Script, Slot, parse, phase_count};
use loop_model::NoMemory;
use std::alloc::Global;
use std::fmt::Write;

/// What the lines before the bad one have declared.
#[derive(Drop)]
struct Declared {
    edition: u32,
    loopers: u64,
    threads: u64,
    handlers: u64,
    /// The step of each gauge.
    gauges: Vec<u64>,
    last: Part,
    /// The time of the last block.
    time: Option<u64>,
    reactions: u64,
    steps: u64,
}

/// What is said of a text that is to be a script: `Good` exactly where it is one, and else `Bad` with the line and the cause by
/// which it is refused; the text begins with these. `NoMemory` where there was none.
pub fn explain_script(alloc: Global, bytes: &[u8]) -> Said
    ensures good { GoodOnly IsScriptText result bytes.now }
    ensures all_good { GoodAll IsScriptText result bytes.now }
    ensures bad { BadOnly Some IsScriptRefusal result bytes.now }
    ensures all_bad { BadAll Some IsScriptRefusal result bytes.now }
    ensures begins { BeginsWithHead script_head result }
{
    let parsed = parse(alloc, bytes);
    said_of(alloc, bytes, parsed)
}

/// What is said of a text that was read so.
fn said_of(alloc: Global, bytes: &[u8], parsed: Parsed) -> Said
    ensures { IsSaidOfScript result parsed }
{
    match parsed {
        Parsed::Ok(script) => match good_text(alloc, &script) {
            Ok(text) => Said::Good { text },
            Err(NoMemory) => Said::NoMemory,
        },
        Parsed::Bad { line, cause } => match bad_text(alloc, bytes, line, cause) {
            Ok(text) => Said::Bad {
                line,
                cause: Some(cause),
                text,
            },
            Err(NoMemory) => Said::NoMemory,
        },
        Parsed::NoMemory => Said::NoMemory,
    }
}

fn good_text(alloc: Global, script: &Script) -> Result<String, NoMemory> {
    let mut commands: u64 = 0;
    for block in script.blocks.as_slice() {
        commands = commands.saturating_add(block.lines.len() as u64);
    }
    let mut out = String::new(alloc);
    write!(
        out,
        "good script: edition {}, loopers {}, threads {}, ",
        script.edition, script.loopers, script.threads
    )?;
    write!(
        out,
        "handlers {}, gauges {}, ",
        script.handlers.len(),
        script.gauges.len()
    )?;
    write!(
        out,
        "reactions {}, blocks {}, ",
        script.rules.len(),
        script.blocks.len()
    )?;
    writeln!(out, "commands {commands}, end {}", script.end)?;
    Ok(out)
}

/// The word for a cause.
pub(crate) fn word_for(cause: Cause) -> &'static str
    ensures { result.now ≡ cause_name cause }
{
    match cause {
        Cause::Form => "form",
        Cause::Range => "range",
        Cause::Unknown => "unknown",
        Cause::Order => "order",
        Cause::TooMany => "toomany",
        Cause::Missing => "missing",
    }
}

/// The line and the cause, and behind them the reason.
fn bad_text(alloc: Global, bytes: &[u8], number: u64, cause: Cause) -> Result<String, NoMemory>
    ensures { IfOk result (λ text. BeginsWith (script_head number (Some cause)) (string_bytes text)) }
{
    let mut out = String::new(alloc);
    writeln!(out, "script line {number}: {}", word_for(cause))?;
    let reason = reason_text(alloc, bytes, number, cause)?;
    out.push_str(reason.as_str())?;
    Ok(out)
}

/// Why a line is bad for this cause.
fn reason_text(alloc: Global, bytes: &[u8], number: u64, cause: Cause) -> Result<String, NoMemory> {
    let mut out = String::new(alloc);
    let lines = lines_of(alloc, bytes)?;
    let declared = Declared::by(alloc, lines.before(number))?;
    let (line, has_feed) = lines.at(number);
    if let Some(line) = line {
        write_line(&mut out, line)?;
        write_reason(
            alloc, &mut out, &declared, &lines, number, cause, line, has_feed,
        )?;
    } else if number > 20_000 {
        write_too_long(&mut out)?;
    } else {
        let forms = allowed(alloc, declared.last)?;
        write_stop(&mut out, number, "end T", &forms)?;
    }
    Ok(out)
}

/// The forms of lines that may come next.
fn allowed(alloc: Global, last: Part) -> Result<Vec<Form>, NoMemory> {
    let mut forms = Vec::new(alloc);
    for kind in KINDS {
        if kind.part().may_follow(last) {
            forms.push(shown(kind))?;
        }
    }
    Ok(forms)
}

fn write_too_long(out: &mut String) -> Result<(), NoMemory> {
    out.push_str("a script has at most 20000 lines, with its line `end T`\n")?;
    Ok(())
}

fn write_reason(
    alloc: Global,
    out: &mut String,
    declared: &Declared,
    lines: &Lines<'_>,
    number: u64,
    cause: Cause,
    line: &[u8],
    has_feed: bool,
) -> Result<(), NoMemory> {
    if number > 20_000 {
        return write_too_long(out);
    }
    if cause == Cause::Form {
        return write_form_reason(alloc, out, declared, line, has_feed, number);
    }
    let Some((kind, numbers)) = kind_of(line) else {
        return Ok(());
    };
    match cause {
        Cause::Range => write_range(out, declared.edition, kind, &numbers, line),
        Cause::Unknown => write_unknown(out, declared, kind, &numbers, line),
        Cause::Order => write_order(out, declared, lines.before(number), kind, &numbers),
        Cause::TooMany => write_too_many(out, declared, kind, &numbers),
        Cause::Form => Ok(()),
        Cause::Missing => Ok(()),
    }
}

/// Why a line may not stand where it does, by its form.
fn write_form_reason(
    alloc: Global,
    out: &mut String,
    declared: &Declared,
    line: &[u8],
    has_feed: bool,
    number: u64,
) -> Result<(), NoMemory> {
    let forms = allowed(alloc, declared.last)?;
    if let Some((kind, _)) = kind_of(line) {
        if !kind.part().may_follow(declared.last) {
            out.push_str("a line `")?;
            write_form(out, shown(kind))?;
            writeln!(out, "` stands {}, not here", place_of(kind.part()))?;
            return crate::shape::write_choice(out, &forms);
        }
    }
    write_form_fault(alloc, out, &forms, line, has_feed, number)
}

/// The word of the line that is the number at this place among its numbers, and the name that the form shows for it.
fn named(kind: LineKind, place: usize) -> (&'static str, usize) {
    let mut numbers = 0;
    for (word, slot) in kind.form().iter().enumerate() {
        if let Slot::Number(_) = slot {
            if numbers == place {
                return (shown(kind).get(word).copied().unwrap_or("N"), word);
            }
            numbers = word.min(numbers) + 1;
        }
    }
    ("N", 0)
}

/// The role of the number at this place among the numbers of a line of this kind.
fn role_at(kind: LineKind, place: usize) -> Option<Role> {
    let mut numbers = 0;
    for (word, slot) in kind.form().iter().enumerate() {
        if let Slot::Number(role) = slot {
            if numbers == place {
                return Some(*role);
            }
            numbers = word.min(numbers) + 1;
        }
    }
    None
}

/// The limits of a number's own, where it has any.
fn limits_of(role: Role, edition: u32) -> Option<(u64, u64)> {
    match role {
        Role::Within { low, high } => Some((low, high)),
        Role::Phase => Some((0, u64::from(phase_count(edition)).saturating_sub(1))),
        _ => None,
    }
}

fn write_range(
    out: &mut String,
    edition: u32,
    kind: LineKind,
    numbers: &Numbers,
    line: &[u8],
) -> Result<(), NoMemory> {
    for place in 0..numbers.len() {
        let Some(role) = role_at(kind, place) else {
            return Ok(());
        };
        if let Some((low, high)) = limits_of(role, edition) {
            let value = numbers.at(place);
            if value < low || high < value {
                let (name, word) = named(kind, place);
                let (_, column) = word_at(line, word);
                write!(
                    out,
                    "column {column}: {name} is {value}; it may be from {low} to {high}"
                )?;
                if let Role::Phase = role {
                    write!(out, " in edition {edition}")?;
                }
                out.push('\n')?;
            }
        }
    }
    Ok(())
}

/// How many there are of what a number names, with the word for it.
fn declared_as(declared: &Declared, role: Role) -> Option<(&'static str, u64)> {
    match role {
        Role::Looper => Some(("looper", declared.loopers)),
        Role::Thread => Some(("thread", declared.threads)),
        Role::Handler => Some(("handler", declared.handlers)),
        Role::Gauge => Some(("gauge", declared.gauges.len() as u64)),
        _ => None,
    }
}

fn write_unknown(
    out: &mut String,
    declared: &Declared,
    kind: LineKind,
    numbers: &Numbers,
    line: &[u8],
) -> Result<(), NoMemory> {
    let mut all_declared = true;
    for place in 0..numbers.len() {
        let Some(role) = role_at(kind, place) else {
            return Ok(());
        };
        if let Some((thing, count)) = declared_as(declared, role) {
            let value = numbers.at(place);
            if value >= count {
                all_declared = false;
                let (_, word) = named(kind, place);
                let (_, column) = word_at(line, word);
                write!(out, "column {column}: there is no {thing} {value}; ")?;
                write_count(out, thing, count)?;
            }
        }
    }
    if all_declared {
        let thread = numbers.at(0);
        writeln!(
            out,
            "thread {thread} has no barrier of label {} before this line",
            numbers.at(1)
        )?;
    }
    Ok(())
}

/// Writes how many there are of a thing.
fn write_count(out: &mut String, thing: &str, count: u64) -> Result<(), NoMemory> {
    match count {
        0 => writeln!(out, "no {thing} is declared")?,
        1 => writeln!(out, "{thing} 0 alone is declared")?,
        more => writeln!(out, "{thing}s 0 to {} are declared", more.saturating_sub(1))?,
    }
    Ok(())
}

/// The line, counted from 1, on which the thread has posted a barrier of this label.
fn barrier_line(before: &[&[u8]], thread: u64, label: u64) -> Option<usize> {
    for (place, line) in before.iter().enumerate() {
        if let Some((kind, numbers)) = kind_of(line) {
            let same = numbers.at(0) == thread && numbers.at(2) == label;
            if kind == LineKind::Barrier && same {
                return Some(place.saturating_add(1));
            }
        }
    }
    None
}

fn write_order(
    out: &mut String,
    declared: &Declared,
    before: &[&[u8]],
    kind: LineKind,
    numbers: &Numbers,
) -> Result<(), NoMemory> {
    let time = declared.time.unwrap_or(0);
    match kind {
        LineKind::Handler => write_next(out, "handlers", declared.handlers)?,
        LineKind::AsyncHandler => write_next(out, "handlers", declared.handlers)?,
        LineKind::Gauge => write_next(out, "gauges", declared.gauges.len() as u64)?,
        LineKind::At => writeln!(
            out,
            "times rise; the block before is at {time}, so T is above {time}"
        )?,
        LineKind::End => writeln!(out, "the last block is at {time}, so T is at least {time}")?,
        LineKind::Barrier => {
            let thread = numbers.at(0);
            let label = numbers.at(2);
            write!(out, "thread {thread} has used label {label} before")?;
            if let Some(place) = barrier_line(before, thread, label) {
                write!(out, ", on line {place}")?;
            }
            out.push('\n')?;
        }
        _ => {}
    }
    Ok(())
}

/// Writes what a sum is so far, and what the line adds.
fn write_so_far(out: &mut String, sum: u64, more: u64) -> Result<(), NoMemory> {
    writeln!(out, "they are {sum} so far, and this one is {more}")?;
    Ok(())
}

fn write_too_many(
    out: &mut String,
    declared: &Declared,
    kind: LineKind,
    numbers: &Numbers,
) -> Result<(), NoMemory> {
    match kind {
        LineKind::Handler => out.push_str("there are at most 64 handlers\n")?,
        LineKind::AsyncHandler => out.push_str("there are at most 64 handlers\n")?,
        LineKind::Gauge => out.push_str("there are at most 16 gauges\n")?,
        LineKind::Rule => {
            out.push_str("the N of all `on` lines add up to at most 100000; ")?;
            write_so_far(out, declared.reactions, numbers.at(2))?;
        }
        LineKind::Set => {
            let more = declared.steps_of(numbers.at(1));
            out.push_str("1000 by STEP of all `set` lines add up to at most 100000; ")?;
            write_so_far(out, declared.steps, more)?;
        }
        _ => {}
    }
    Ok(())
}

impl Declared {
    /// What good lines have declared.
    fn by(alloc: Global, lines: &[&[u8]]) -> Result<Declared, NoMemory> {
        let mut declared = Declared {
            edition: 0,
            loopers: 0,
            threads: 0,
            handlers: 0,
            gauges: Vec::new(alloc),
            last: Part::Start,
            time: None,
            reactions: 0,
            steps: 0,
        };
        for line in lines {
            if let Some((kind, numbers)) = kind_of(line) {
                declared.add(kind, &numbers)?;
            }
        }
        Ok(declared)
    }

    fn steps_of(&self, gauge: u64) -> u64 {
        match self.gauges.get(gauge as usize) {
            None => 0,
            Some(step) => {
                if *step == 0 {
                    0
                } else {
                    step.saturating_add(999) / *step
                }
            }
        }
    }

    fn add(&mut self, kind: LineKind, numbers: &Numbers) -> Result<(), NoMemory> {
        match kind {
            LineKind::Edition1 => self.edition = 1,
            LineKind::Edition2 => self.edition = 2,
            LineKind::Loopers => self.loopers = numbers.at(0),
            LineKind::Threads => self.threads = numbers.at(0),
            LineKind::Handler => self.handlers = self.handlers.saturating_add(1),
            LineKind::AsyncHandler => self.handlers = self.handlers.saturating_add(1),
            LineKind::Gauge => self.gauges.push(numbers.at(2))?,
            LineKind::Rule => self.reactions = self.reactions.saturating_add(numbers.at(2)),
            LineKind::At => self.time = Some(numbers.at(0)),
            LineKind::Set => self.steps = self.steps.saturating_add(self.steps_of(numbers.at(1))),
            _ => {}
        }
        self.last = kind.part();
        Ok(())
    }
}
