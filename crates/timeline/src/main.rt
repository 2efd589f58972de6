//! The program: a report or a trace on standard input becomes a picture on standard output.
#![tactic(auto)]

mod words;

use crate::words::{Asked, LEAST_WIDTH, MOST_WIDTH, Request, read_words};
use run_flows::flows_of;
use run_page::page_of;
use run_picture::{Form, Picture, picture_of};
use std::alloc::Global;
use std::io::{Read, Write};
use std::process::ExitCode;
use std::{env, io};

/// Why there is no picture; the number is the exit status.
#[derive(Clone, Copy)]
enum Failure {
    Usage,
    Bad(u64),
    Read,
    Write,
    Memory,
}

fn main(rt: HostRuntime) -> ExitCode {
    let Err(failure) = answer(&rt) else {
        return ExitCode::from(0);
    };
    // Where standard error is closed, the exit status still tells.
    let _ = match failure {
        Failure::Usage => eprintln!(rt;
            "timeline: usage: timeline svg [FROM TO] [--width PIXELS] [--title TITLE] | timeline html [--title TITLE] | timeline perfetto | timeline flows\ntimeline: FROM is less than TO, both in milliseconds; PIXELS are from {LEAST_WIDTH} to {MOST_WIDTH}"
        ),
        Failure::Bad(line) => eprintln!(rt; "timeline: line {line}"),
        Failure::Read => eprintln!(rt; "timeline: read fault"),
        Failure::Write => eprintln!(rt; "timeline: write fault"),
        Failure::Memory => eprintln!(rt; "timeline: no memory"),
    };
    ExitCode::from(code_of(failure))
}

/// Reads a report or a trace and writes its picture; where there is none, nothing is written.
fn answer(rt: &HostRuntime) -> Result<(), Failure> {
    let words: Vec<String> = match env::args(rt) {
        Ok(words) => words
            .skip(1)
            .collect(rt.alloc())
            .ok()
            .ok_or(Failure::Memory)?,
        Err(_) => return Err(Failure::Usage),
    };
    let request = read_words(&words).ok_or(Failure::Usage)?;
    let mut bytes = Vec::new(rt.alloc());
    if rt.reader().read_to_end(&mut bytes).is_err() {
        return Err(Failure::Read);
    }
    match drawn(rt.alloc(), request, &bytes) {
        Picture::Text(text) => match io::writer(rt).write_all(&text) {
            Ok(()) => Ok(()),
            Err(_) => Err(Failure::Write),
        },
        Picture::Bad { line } => Err(Failure::Bad(line)),
        Picture::NoMemory => Err(Failure::Memory),
    }
}

/// The picture of a text in the form that is asked for.
fn drawn(alloc: Global, request: Request, bytes: &[u8]) -> Picture {
    let title = request.title.as_bytes();
    match request.asked {
        Asked::Svg(view) => picture_of(alloc, Form::Svg(view), title, bytes),
        Asked::Perfetto => picture_of(alloc, Form::Perfetto, title, bytes),
        Asked::Html => page_of(alloc, title, bytes),
        Asked::Flows => flows_of(alloc, bytes),
    }
}

fn code_of(failure: Failure) -> u8 {
    match failure {
        Failure::Usage => 2,
        Failure::Bad(_) => 3,
        Failure::Read => 4,
        Failure::Write => 5,
        Failure::Memory => 6,
    }
}
