//! The program: it makes the real objects, hands them to the top call, and ends with its answer.
#![tactic(auto)]

use dashboard_cli::{Status, dashboard, status_text};
use loop_io::{OpenGate, StdClock, StdSink, StdSource};
use std::process::ExitCode;
use std::{env, io};

fn main(rt: HostRuntime) -> ExitCode {
    let status = match words(&rt) {
        Ok(words) => {
            let mut source = StdSource::new(rt.reader());
            let mut sink = StdSink::new(io::writer(&rt));
            let clock = StdClock::new(&rt);
            let alloc = rt.alloc();
            dashboard(
                &rt,
                alloc,
                words.as_slice(),
                &mut source,
                &mut sink,
                &clock,
                &OpenGate,
            )
            .status
        }
        Err(status) => status,
    };
    if status != Status::Ok {
        if let Ok(text) = status_text(rt.alloc(), &status) {
            // Where standard error is closed, the code still tells.
            let _ = eprintln!(rt; "{text}");
        }
    }
    ExitCode::from(status.code())
}

/// The words after the program's name. Words that are no text are no command.
fn words(rt: &(impl env::Env + AllocGlobal)) -> Result<Vec<String>, Status> {
    let args = match env::args(rt) {
        Ok(args) => args,
        Err(error) => return Err(refusal(&error)),
    };
    match args.skip(1).collect(rt.alloc()) {
        Ok(words) => Ok(words),
        Err(_) => Err(Status::NoMemory),
    }
}

/// Why the words can't be had: there is no memory, or one of them is no text.
fn refusal(error: &io::Error) -> Status {
    match error.kind() {
        io::ErrorKind::OutOfMemory => Status::NoMemory,
        _ => Status::Usage,
    }
}
