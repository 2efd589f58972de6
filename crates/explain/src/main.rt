//! The program: what is wrong with a script, a plan of values, a trace or a report on standard input, or that it is good.
#![tactic(auto)]

use std::io::{Read, Write};
use std::process::ExitCode;
use std::{env, io};
use text_help::{Said, SaidOfTrace, explain_plan, explain_report, explain_script, explain_trace};

/// What the input is to be.
#[derive(Clone, Copy)]
enum Language {
    Script,
    Plan,
    Trace,
    Report,
}

/// What is written, and the exit status.
#[derive(Drop)]
struct Outcome {
    text: String,
    code: u8,
}

/// Why there is no answer; the number is the exit status.
#[derive(Clone, Copy)]
enum Failure {
    Usage,
    Read,
    Write,
    Memory,
}

fn main(rt: HostRuntime) -> ExitCode {
    let failure = match answer(&rt) {
        Ok(code) => return ExitCode::from(code),
        Err(failure) => failure,
    };
    // Where standard error is closed, the exit status still tells.
    let _ = match failure {
        Failure::Usage => eprintln!(rt;
            "explain: usage: explain [script | plan | trace | report] < FILE"
        ),
        Failure::Read => eprintln!(rt; "explain: read fault"),
        Failure::Write => eprintln!(rt; "explain: write fault"),
        Failure::Memory => eprintln!(rt; "explain: no memory"),
    };
    ExitCode::from(code_of(failure))
}

/// Reads the input and writes what is said of it; the exit status is 0 where it is good, and else 3.
fn answer(rt: &HostRuntime) -> Result<u8, Failure> {
    let words: Vec<String> = match env::args(rt) {
        Ok(args) => args
            .skip(1)
            .collect(rt.alloc())
            .ok()
            .ok_or(Failure::Memory)?,
        Err(_) => return Err(Failure::Usage),
    };
    let asked = asked_for(&words)?;
    let mut bytes = Vec::new(rt.alloc());
    if rt.reader().read_to_end(&mut bytes).is_err() {
        return Err(Failure::Read);
    }
    let language = asked.unwrap_or(language_of(&bytes));
    let answer = match language {
        Language::Script => answer_by(explain_script(rt.alloc(), &bytes))?,
        Language::Plan => answer_by(explain_plan(rt.alloc(), &bytes))?,
        Language::Report => answer_by(explain_report(rt.alloc(), &bytes))?,
        Language::Trace => answer_of(explain_trace(rt.alloc(), &bytes))?,
    };
    match io::writer(rt).write_all(answer.text.as_bytes()) {
        Ok(()) => Ok(answer.code),
        Err(_) => Err(Failure::Write),
    }
}

/// The language that the words behind the program's name ask for, where they ask for one.
fn asked_for(words: &[String]) -> Result<Option<Language>, Failure> {
    if words.is_empty() {
        return Ok(None);
    }
    if words.len() != 1 {
        return Err(Failure::Usage);
    }
    match words[0].as_str() {
        "script" => Ok(Some(Language::Script)),
        "plan" => Ok(Some(Language::Plan)),
        "trace" => Ok(Some(Language::Trace)),
        "report" => Ok(Some(Language::Report)),
        _ => Err(Failure::Usage),
    }
}

/// The language whose texts begin as these bytes do, or else a script.
fn language_of(bytes: &[u8]) -> Language {
    if bytes.starts_with(b"animate") {
        return Language::Plan;
    }
    if bytes.starts_with(b"trace") {
        return Language::Trace;
    }
    if bytes.starts_with(b"report") {
        return Language::Report;
    }
    Language::Script
}

fn answer_by(said: Said) -> Result<Outcome, Failure> {
    match said {
        Said::Good { text } => Ok(Outcome { text, code: 0 }),
        Said::Bad { text, .. } => Ok(Outcome { text, code: 3 }),
        Said::NoMemory => Err(Failure::Memory),
    }
}

fn answer_of(said: SaidOfTrace) -> Result<Outcome, Failure> {
    match said {
        SaidOfTrace::Good { text } => Ok(Outcome { text, code: 0 }),
        SaidOfTrace::Bad { text, .. } => Ok(Outcome { text, code: 3 }),
        SaidOfTrace::Illegal { text, .. } => Ok(Outcome { text, code: 3 }),
        SaidOfTrace::NoMemory => Err(Failure::Memory),
    }
}

fn code_of(failure: Failure) -> u8 {
    match failure {
        Failure::Usage => 2,
        Failure::Read => 4,
        Failure::Write => 5,
        Failure::Memory => 6,
    }
}
