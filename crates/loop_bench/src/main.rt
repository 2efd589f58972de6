//! Measures a queue: makes the calls of a mode for so many messages, and prints what came of them.
#![tactic(auto)]

mod calls;
mod handled;
mod modes;
mod words;

use crate::modes::{Counts, run};
use crate::words::{ALL, Asked, Mode, asked_by, word};
use std::env;
use std::process::ExitCode;
use std::sync::Wait;
use std::time::Instant;

fn main(rt: HostRuntime) -> ExitCode {
    let Some(wanted) = read(&rt) else {
        let _ = eprintln!(rt; "usage: loop_bench MODE|all COUNT [time]");
        return ExitCode::from(2);
    };
    for mode in &ALL {
        if !measure(&rt, &rt, *mode, &wanted) {
            return ExitCode::from(1);
        }
    }
    ExitCode::from(0)
}

/// What the words of the command line ask for.
fn read(rt: &HostRuntime) -> Option<Asked> {
    let Ok(args) = env::args(rt) else {
        return None;
    };
    let Ok(words) = args.skip(1).collect(rt.alloc()) else {
        return None;
    };
    let words: Vec<String> = words;
    asked_by(words.as_slice())
}

/// Measures the mode, where it is asked for, and prints what came of it. It fails where there is no memory or no output. The calls
/// that wait are given the runtime as `waits`.
fn measure<R: Wait>(rt: &HostRuntime, waits: &R, mode: Mode, wanted: &Asked) -> bool {
    if let Some(one) = wanted.mode {
        if one != mode {
            return true;
        }
    }
    let start = Instant::now(rt);
    let Ok(counts) = run(waits, rt.alloc(), mode, wanted.count) else {
        return false;
    };
    if !print(rt, mode, &counts) {
        return false;
    }
    if !wanted.timed {
        return true;
    }
    let Ok(start) = start else { return false };
    let Ok(elapsed) = start.elapsed(rt) else {
        return false;
    };
    let micros = elapsed.as_micros();
    println!(rt; "  {micros} microseconds").is_ok()
}

/// Prints the mode with its counts.
fn print(rt: &HostRuntime, mode: Mode, counts: &Counts) -> bool {
    let name = word(mode);
    let posted = counts.posted;
    let taken = counts.taken;
    let waited = counts.waited;
    let removed = counts.removed;
    let dropped = counts.dropped;
    println!(rt;
        "{name}: posted {posted}, taken {taken}, waited {waited}, removed {removed}, dropped {dropped}"
    ).is_ok()
}
