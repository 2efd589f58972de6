//! What is said of a report.
ghost use Rattle.std.specs.Prelude.{◌≡◌, IfOk, None, string_bytes};
ghost use Rattle.run_picture.specs.Text.{IsReportText};
ghost use Rattle.text_help.specs.Heads.{BeginsWith, report_head};
ghost use Rattle.text_help.specs.Saying.{BeginsWithHead, BadOnly, GoodAll, GoodOnly, IsReportRefusal, IsSaidOfReport, no_cause};

use crate::form::{Form, has_one, walk_along};
use crate::lines::{lines_of, word_at, write_line};
use crate::said::Said;
use crate::shape::{write_form_fault, write_next, write_stop};
use line_words::number;
use loop_model::NoMemory;
use run_picture::{ParsedReport, Report, parse_report};
use std::alloc::Global;
use std::fmt::Write;

const TITLES: [Form; 2] = [&["report", "1"], &["report", "2"]];

const LOOPER: Form = &["looper", "NEXT"];

const PAST: [Form; 7] = [
    &["NOW", "dispatch", "N", "HANDLER", "WHAT"],
    &["NOW", "dispatch", "N", "HANDLER", "callback", "C"],
    &["refused", "HANDLER", "WHAT", "quit", "PLACE"],
    &["refused", "HANDLER", "callback", "C", "quit", "PLACE"],
    &["not-posted", "TOKEN"],
    &["not-allowed"],
    &["already-quit", "PLACE"],
];

const FATES: Form = &[
    "fates",
    "accepted",
    "A",
    "dispatched",
    "D",
    "removed",
    "R",
    "dropped",
    "X",
    "stranded",
    "S",
    "queued",
    "U",
];

const ACTS: [Form; 3] = [
    &["idle", "IDLE"],
    &["event", "FD", "EVENTS"],
    &["paint", "GAUGE", "PAINTED"],
];

const FRAME: Form = &["frame", "TIME"];

const RUN: Form = &["run", "RUN_PHASE", "ID"];

const END: Form = &["end"];

const BETWEEN: [Form; 2] = [LOOPER, END];

/// What a good line is.
#[derive(Clone, Copy)]
enum Told {
    Nothing,
    Title,
    Past,
    Acts,
    Frames,
    End,
}

/// What is said of a text that is to be a report: `Good` exactly where it is one, and else `Bad` with the line by which it is
/// refused, and no cause; the text begins with the line. `NoMemory` where there was none.
pub fn explain_report(alloc: Global, bytes: &[u8]) -> Said
    ensures good { GoodOnly IsReportText result bytes.now }
    ensures all_good { GoodAll IsReportText result bytes.now }
    ensures bad { BadOnly no_cause IsReportRefusal result bytes.now }
    ensures begins { BeginsWithHead report_head result }
{
    let parsed = parse_report(alloc, bytes);
    said_of(alloc, bytes, parsed)
}

/// What is said of a text that was read so.
fn said_of(alloc: Global, bytes: &[u8], parsed: ParsedReport) -> Said
    ensures { IsSaidOfReport result parsed }
{
    match parsed {
        ParsedReport::Ok(report) => match good_text(alloc, &report) {
            Ok(text) => Said::Good { text },
            Err(NoMemory) => Said::NoMemory,
        },
        ParsedReport::Bad { line } => match bad_text(alloc, bytes, line) {
            Ok(text) => Said::Bad {
                line,
                cause: None,
                text,
            },
            Err(NoMemory) => Said::NoMemory,
        },
        ParsedReport::NoMemory => Said::NoMemory,
    }
}

fn good_text(alloc: Global, report: &Report) -> Result<String, NoMemory> {
    let mut dispatched: u64 = 0;
    let mut frames: u64 = 0;
    for looper in report.loopers.as_slice() {
        dispatched = dispatched.saturating_add(looper.fates.dispatched);
        frames = frames.saturating_add(looper.frames.len() as u64);
    }
    let mut out = String::new(alloc);
    write!(
        out,
        "good report: edition {}, loopers {}, ",
        report.edition,
        report.loopers.len()
    )?;
    writeln!(out, "dispatched {dispatched}, frames {frames}")?;
    Ok(out)
}

/// Where the report stands behind a good line.
fn behind(line: &[u8], before: Told) -> Told {
    if has_one(&TITLES, line) {
        return Told::Title;
    }
    if walk_along(LOOPER, line).is_whole() {
        return Told::Past;
    }
    if walk_along(FATES, line).is_whole() {
        return Told::Acts;
    }
    if walk_along(FRAME, line).is_whole() {
        return Told::Frames;
    }
    if walk_along(END, line).is_whole() {
        return Told::End;
    }
    before
}

/// The forms that may come next.
fn forms_of(alloc: Global, told: Told) -> Result<Vec<Form>, NoMemory> {
    let mut forms: Vec<Form> = Vec::new(alloc);
    match told {
        Told::Nothing => forms.extend_from_slice(&TITLES)?,
        Told::Title => forms.extend_from_slice(&BETWEEN)?,
        Told::Past => {
            forms.extend_from_slice(&PAST)?;
            forms.push(FATES)?;
        }
        Told::Acts => {
            forms.extend_from_slice(&ACTS)?;
            forms.push(FRAME)?;
            forms.extend_from_slice(&BETWEEN)?;
        }
        Told::Frames => {
            forms.push(RUN)?;
            forms.push(FRAME)?;
            forms.extend_from_slice(&BETWEEN)?;
        }
        Told::End => {}
    }
    Ok(forms)
}

/// The line, and behind it the reason.
fn bad_text(alloc: Global, bytes: &[u8], number: u64) -> Result<String, NoMemory>
    ensures { IfOk result (λ text. BeginsWith (report_head number None) (string_bytes text)) }
{
    let mut out = String::new(alloc);
    writeln!(out, "report line {number}")?;
    let reason = reason_text(alloc, bytes, number)?;
    out.push_str(reason.as_str())?;
    Ok(out)
}

/// Why a line is bad.
fn reason_text(alloc: Global, bytes: &[u8], number: u64) -> Result<String, NoMemory> {
    let mut out = String::new(alloc);
    let lines = lines_of(alloc, bytes)?;
    let mut told = Told::Nothing;
    let mut loopers: u64 = 0;
    for line in lines.before(number) {
        told = behind(line, told);
        if walk_along(LOOPER, line).is_whole() {
            loopers = loopers.saturating_add(1);
        }
    }
    let forms = forms_of(alloc, told)?;
    let (line, has_feed) = lines.at(number);
    let Some(line) = line else {
        write_stop(&mut out, number, "end", &forms)?;
        return Ok(out);
    };
    write_line(&mut out, line)?;
    if has_feed && has_one(&forms, line) {
        if walk_along(LOOPER, line).is_whole() {
            write_next(&mut out, "loopers", loopers)?;
        } else {
            write_sum(&mut out, line)?;
        }
    } else {
        write_form_fault(alloc, &mut out, &forms, line, has_feed, number)?;
    }
    Ok(out)
}

/// The number behind so many words of a line, or 0.
fn number_at(line: &[u8], word: usize) -> u64 {
    let (found, _) = word_at(line, word);
    number(found.unwrap_or(&[])).unwrap_or(0)
}

fn write_sum(out: &mut String, line: &[u8]) -> Result<(), NoMemory> {
    let mut sum: u128 = 0;
    for word in [4, 6, 8, 10, 12] {
        sum = sum.saturating_add(u128::from(number_at(line, word)));
    }
    let accepted = number_at(line, 2);
    writeln!(
        out,
        "accepted {accepted} is not the sum of the others, {sum}"
    )?;
    Ok(())
}
