// What is found of the histories of a trace.
ghost use Rattle.std.specs.Prelude.{◌≡◌, IfOk};
ghost use Rattle.dashboard_cli.specs.Verdicts.{verdict_text, IsVerdict};

use loop_model::NoMemory;
use std::alloc::Global;
use std::fmt::Write;
use trace_check::{Checked, TraceQueue, check};

/// What a check of all queues finds.
#[derive(Clone, Copy, Debug, PartialEq, Eq)]
pub(crate) enum Verdict {
    /// Each queue's history is legal.
    Legal,
    /// The first queue whose history is not legal has this looper, and this entry is its first bad one.
    Illegal { looper: u32, place: u64 },
}

/// The verdict on the queues of a trace.
pub(crate) fn judge(alloc: Global, queues: &[TraceQueue]) -> Result<Verdict, NoMemory>
    ensures { IfOk result (IsVerdict queues.now) }
{
    for queue in queues {
        match check(alloc, queue) {
            Checked::Legal => {}
            Checked::First { place } => {
                let looper = queue.looper;
                return Ok(Verdict::Illegal { looper, place });
            }
            Checked::NoMemory => return Err(NoMemory),
        }
    }
    Ok(Verdict::Legal)
}

/// The line that tells the verdict.
pub(crate) fn verdict_text(alloc: Global, verdict: Verdict) -> Result<Vec<u8>, NoMemory>
    ensures { IfOk result (λ bytes. bytes.items ≡ verdict_text verdict) }
{
    let mut out = String::new(alloc);
    match verdict {
        Verdict::Legal => writeln!(out, "legal")?,
        Verdict::Illegal { looper, place } => {
            writeln!(out, "illegal queue {looper} entry {place}")?;
        }
    }
    Ok(out.into_bytes())
}
