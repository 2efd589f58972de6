//! A run, from the script to the report.
ghost use Rattle.std.specs.Prelude.{IfOk};
ghost use Rattle.dash_script.specs.Reading.{HasText};
ghost use Rattle.run_model.specs.Run.{IsStaged};

use crate::kept::report;
use crate::means::Means;
use crate::opening::set_up;
use dash_script::Script;
use loop_io::Gate;
use loop_model::NoMemory;
use run_model::Report;
use std::alloc::Global;
use std::sync::Wait;
use std::thread::Threads;

/// Runs the script in lockstep and keeps its records. The event times rise, each the least of the next block, the end, the time
/// of a message that may be dispatched and the pulse of a frame; at each the controller moves the queues' time on, the threads
/// run the block of that time side by side, and the loopers run rounds side by side until nothing is due. The script has a text. It
/// is refused only when out of memory, by a sender, at the opening or for the records: then the run is given up. Lockstep is this
/// project's profile.
pub fn run_script<R: Threads + Wait + Sync, G: Gate + Sync>(
    rt: &R,
    alloc: Global,
    script: Script,
    gate: &G,
) -> Result<Report, NoMemory>
    requires { HasText script }
    ensures { IfOk result (IsStaged script) }
{
    let means = Means { rt, alloc, gate };
    let mut stage = set_up(alloc, &script, true)?;
    let Ok(()) = stage.play(&means, &script) else {
        let _ = stage.give_up(&means, &script);
        return Err(NoMemory);
    };
    report(alloc, script, stage, 0)
}
