//! The program `dashboard` with a gate at which threads are held up by chance, for stress.
#![tactic(auto)]

use dashboard_cli::{Status, dashboard, status_text};
use loop_io::{StdClock, StdSink, StdSource};
use shaken_gate::ShakenGate;
use std::process::ExitCode;
use std::{env, io};

fn main(rt: HostRuntime) -> ExitCode {
    let status = match words(&rt) {
        Some((seed, words)) => {
            let mut source = StdSource::new(rt.reader());
            let mut sink = StdSink::new(io::writer(&rt));
            let clock = StdClock::new(&rt);
            let alloc = rt.alloc();
            let gate = ShakenGate::new(seed);
            dashboard(
                &rt,
                alloc,
                words.as_slice(),
                &mut source,
                &mut sink,
                &clock,
                &gate,
            )
            .status
        }
        None => Status::Usage,
    };
    if status != Status::Ok {
        if let Ok(text) = status_text(rt.alloc(), &status) {
            // Where standard error is closed, the code still tells.
            let _ = eprintln!(rt; "{text}");
        }
    }
    ExitCode::from(status.code())
}

/// The seed, which is the first word after the program's name, and the words of `dashboard` behind it.
fn words(rt: &(impl env::Env + AllocGlobal)) -> Option<(u64, Vec<String>)> {
    let mut args = env::args(rt).ok()?.skip(1);
    let seed = args.next()?.parse().ok()?;
    Some((seed, args.collect(rt.alloc()).ok()?))
}
