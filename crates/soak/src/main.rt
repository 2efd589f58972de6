//! Runs a looper, or frames, for long, to see that its memory stays as it is: `soak messages|frames|kept-messages|kept-frames COUNT`.
#![tactic(auto)]

mod calls;
mod frames;
mod messages;
mod posting;

use crate::calls::Soaked;
use loop_io::StdClock;
use queue_state::{Kept, Unkept};
use std::env;
use std::process::ExitCode;

fn main(rt: HostRuntime) -> ExitCode {
    let Some(words) = words(&rt) else {
        return usage(&rt);
    };
    if words.len() != 2 {
        return usage(&rt);
    }
    let Ok(count) = words[1].parse::<u64>() else {
        return usage(&rt);
    };
    let clock = StdClock::new(&rt);
    let soaked = match words[0].as_str() {
        "messages" => messages::soak::<_, _, Unkept>(&rt, rt.alloc(), &clock, count),
        "kept-messages" => messages::soak::<_, _, Kept>(&rt, rt.alloc(), &clock, count),
        "frames" => frames::soak::<_, Unkept>(&rt, rt.alloc(), count),
        "kept-frames" => frames::soak::<_, Kept>(&rt, rt.alloc(), count),
        _ => return usage(&rt),
    };
    match soaked {
        Ok(soaked) if print(&rt, &soaked) => ExitCode::from(0),
        _ => ExitCode::from(1),
    }
}

/// The words of the command line.
fn words(rt: &HostRuntime) -> Option<Vec<String>> {
    let Ok(args) = env::args(rt) else {
        return None;
    };
    args.skip(1).collect(rt.alloc()).ok()
}

fn usage(rt: &HostRuntime) -> ExitCode {
    let _ = eprintln!(rt; "usage: soak messages|frames|kept-messages|kept-frames COUNT");
    ExitCode::from(2)
}

/// Prints what was done, and the longest call.
fn print(rt: &HostRuntime, soaked: &Soaked) -> bool {
    let handled = soaked.handled;
    let refused = soaked.refused;
    let removals = soaked.removals;
    let micros = soaked.longest / 1000;
    println!(rt;
        "handled {handled}, refused {refused}, removals {removals}; the longest call {micros} microseconds"
    ).is_ok()
}
