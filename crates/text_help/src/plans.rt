//! What is said of a plan of values.
ghost use Rattle.std.specs.Prelude.{◌≡◌, IfOk, Some, string_bytes};
ghost use Rattle.value_animator.specs.Reading.{IsPlanText, IsPlanRefusal};
ghost use Rattle.text_help.specs.Heads.{BeginsWith, plan_head};
ghost use Rattle.text_help.specs.Saying.{BeginsWithHead, BadAll, BadOnly, GoodAll, GoodOnly, IsSaidOfPlan};

use crate::form::{Form, walk_along};
use crate::lines::{lines_of, word_at, write_line};
use crate::said::Said;
use crate::scripts::word_for;
use crate::shape::{write_form_fault, write_stop};
use dash_script::Cause;
use line_words::number;
use loop_model::NoMemory;
use std::alloc::Global;
use std::fmt::Write;
use value_animator::{ParsedValues, Values, parse_values};

const HEAD: Form = &["animate", "1"];

const PERIOD: Form = &["period", "NS"];

const COUNTDOWN: Form = &["countdown", "TOTAL", "INTERVAL"];

const RESTART: Form = &["animator", "DELAY", "DURATION", "REPEATS", "restart"];

const REVERSE: Form = &["animator", "DELAY", "DURATION", "REPEATS", "reverse"];

const KEY: Form = &["key", "AT", "VALUE"];

const END: Form = &["end"];

const ALL: [Form; 7] = [HEAD, PERIOD, COUNTDOWN, RESTART, REVERSE, KEY, END];

/// The limits of the numbers by name.
const LIMITS: [(&str, u64, u64); 8] = [
    ("NS", 1_000_000, 1_000_000_000),
    ("TOTAL", 0, 60_000),
    ("INTERVAL", 1, 60_000),
    ("DELAY", 0, 60_000),
    ("DURATION", 1, 60_000),
    ("REPEATS", 0, 99),
    ("AT", 0, 1_000),
    ("VALUE", 0, 1_000_000),
];

/// Which line may come next.
#[derive(Clone, Copy)]
enum Next {
    Head,
    Period,
    Thing,
    /// A key, whose place is above this one, or is 0 where there is none.
    Key(Option<u64>),
    Nothing,
}

/// What is said of a text that is to be a plan of values: `Good` exactly where it is one, and else `Bad` with the line and the cause
/// by which it is refused; the text begins with these. `NoMemory` where there was none.
pub fn explain_plan(alloc: Global, bytes: &[u8]) -> Said
    ensures good { GoodOnly IsPlanText result bytes.now }
    ensures all_good { GoodAll IsPlanText result bytes.now }
    ensures bad { BadOnly Some IsPlanRefusal result bytes.now }
    ensures all_bad { BadAll Some IsPlanRefusal result bytes.now }
    ensures begins { BeginsWithHead plan_head result }
{
    let parsed = parse_values(alloc, bytes);
    said_of(alloc, bytes, parsed)
}

/// What is said of a text that was read so.
fn said_of(alloc: Global, bytes: &[u8], parsed: ParsedValues) -> Said
    ensures { IsSaidOfPlan result parsed }
{
    match parsed {
        ParsedValues::Ok(values) => match good_text(alloc, &values) {
            Ok(text) => Said::Good { text },
            Err(NoMemory) => Said::NoMemory,
        },
        ParsedValues::Bad { line, cause } => match bad_text(alloc, bytes, line, cause) {
            Ok(text) => Said::Bad {
                line,
                cause: Some(cause),
                text,
            },
            Err(NoMemory) => Said::NoMemory,
        },
        ParsedValues::NoMemory => Said::NoMemory,
    }
}

fn good_text(alloc: Global, values: &Values) -> Result<String, NoMemory> {
    let mut out = String::new(alloc);
    writeln!(
        out,
        "good plan: period {}, things {}",
        values.period,
        values.things.len()
    )?;
    Ok(out)
}

/// The forms that may come next.
fn forms_of(next: Next) -> &'static [Form] {
    match next {
        Next::Head => &[HEAD],
        Next::Period => &[PERIOD],
        Next::Thing => &[COUNTDOWN, RESTART, REVERSE, END],
        Next::Key(_) => &[KEY],
        Next::Nothing => &[],
    }
}

/// The number behind so many words of a line, or 0.
fn number_at(line: &[u8], word: usize) -> u64 {
    let (found, _) = word_at(line, word);
    number(found.unwrap_or(&[])).unwrap_or(0)
}

/// Which line may come behind a good line.
fn behind(line: &[u8]) -> Next {
    if walk_along(HEAD, line).is_whole() {
        return Next::Period;
    }
    if walk_along(RESTART, line).is_whole() || walk_along(REVERSE, line).is_whole() {
        return Next::Key(None);
    }
    if walk_along(END, line).is_whole() {
        return Next::Nothing;
    }
    if walk_along(KEY, line).is_whole() {
        let place = number_at(line, 1);
        if place < 1_000 {
            return Next::Key(Some(place));
        }
    }
    Next::Thing
}

/// The line and the cause, and behind them the reason.
fn bad_text(alloc: Global, bytes: &[u8], number: u64, cause: Cause) -> Result<String, NoMemory>
    ensures { IfOk result (λ text. BeginsWith (plan_head number (Some cause)) (string_bytes text)) }
{
    let mut out = String::new(alloc);
    writeln!(out, "plan line {number}: {}", word_for(cause))?;
    let reason = reason_text(alloc, bytes, number, cause)?;
    out.push_str(reason.as_str())?;
    Ok(out)
}

/// Why a line is bad for this cause.
fn reason_text(alloc: Global, bytes: &[u8], number: u64, cause: Cause) -> Result<String, NoMemory> {
    let mut out = String::new(alloc);
    let lines = lines_of(alloc, bytes)?;
    let next = match lines.before(number).last() {
        None => Next::Head,
        Some(line) => behind(line),
    };
    let (line, has_feed) = lines.at(number);
    if let Some(line) = line {
        write_line(&mut out, line)?;
        match cause {
            Cause::Form => write_form_fault(
                alloc,
                &mut out,
                forms_of(next),
                line,
                has_feed,
                number,
            )?,
            Cause::Range => write_range(&mut out, line)?,
            Cause::Order => write_order(&mut out, next)?,
            _ => write_too_many(&mut out, next)?,
        }
    } else {
        write_stop(&mut out, number, "end", forms_of(next))?;
    }
    Ok(out)
}

fn write_order(out: &mut String, next: Next) -> Result<(), NoMemory> {
    match next {
        Next::Key(Some(place)) => writeln!(
            out,
            "places rise; the key before is at {place}, so AT is above {place}"
        )?,
        _ => out.push_str("the first key of an animator is at 0\n")?,
    }
    Ok(())
}

fn write_too_many(out: &mut String, next: Next) -> Result<(), NoMemory> {
    match next {
        Next::Key(_) => out.push_str("an animator has at most 16 keys, so its 16th is at 1000\n")?,
        _ => out.push_str("there are at most 16 things\n")?,
    }
    Ok(())
}

/// The limits of the number of this name.
fn limits_of(name: &str) -> Option<(u64, u64)> {
    for (other, low, high) in LIMITS {
        if other == name {
            return Some((low, high));
        }
    }
    None
}

fn write_range(out: &mut String, line: &[u8]) -> Result<(), NoMemory> {
    let mut within = true;
    for form in ALL {
        if walk_along(form, line).is_whole() {
            for (word, name) in form.iter().enumerate() {
                if let Some((low, high)) = limits_of(name) {
                    let value = number_at(line, word);
                    if value < low || high < value {
                        within = false;
                        let (_, column) = word_at(line, word);
                        writeln!(
                            out,
                            "column {column}: {name} is {value}; it may be from {low} to {high}"
                        )?;
                    }
                }
            }
        }
    }
    if within {
        let ways = number_at(line, 3).saturating_add(1);
        let sum = number_at(line, 2)
            .saturating_mul(ways)
            .saturating_add(number_at(line, 1));
        writeln!(
            out,
            "DELAY + DURATION * (REPEATS + 1) is {sum}; it may be at most 60000"
        )?;
    }
    Ok(())
}
