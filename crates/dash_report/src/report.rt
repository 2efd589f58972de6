//! The report of a run.
ghost use Rattle.std.specs.Prelude.{◌≡◌, ◌++◌, IfOk, OnOk, string_bytes};
ghost use Rattle.std.specs.List.{flat_map};
ghost use Rattle.run_model.specs.Text.{line_text, looper_lines, loopers_lines, report_text};

use crate::fates::write_fates;
use crate::frames::write_frames;
use crate::history::write_history;
use crate::journal::write_acts;
use frame_phases::FrameRecord;
use loop_model::{Journal, NoMemory, QueueRecord};
use run_model::Report;
use std::alloc::Global;
use std::fmt::Write;

/// Writes the lines of a looper: its history, its fates, its journal and its frames.
fn write_looper(
    alloc: Global,
    out: &mut String,
    queue: &QueueRecord,
    journal: &Journal,
    frames: &FrameRecord,
) -> Result<(), NoMemory>
    ensures { OnOk result (string_bytes out.new
        ≡ string_bytes out.old ++ flat_map line_text (looper_lines queue.now journal.now frames.now)) }
{
    let segments = queue.segments.as_slice();
    writeln!(out, "looper {}", queue.looper)?;
    write_history(alloc, out, segments)?;
    write_fates(alloc, out, segments)?;
    write_acts(out, journal.acts.as_slice())?;
    write_frames(alloc, out, frames.entries.as_slice())?;
    Ok(())
}

/// Writes the lines of all loopers, in order, as far as each of the three lists has one.
#[tactic(auto, using(std::proofs::lemmas::List::append_assoc))]
fn write_loopers(
    alloc: Global,
    out: &mut String,
    queues: &[QueueRecord],
    journals: &[Journal],
    frames: &[FrameRecord],
) -> Result<(), NoMemory>
    ensures { OnOk result (string_bytes out.new
        ≡ string_bytes out.old ++ flat_map line_text (loopers_lines queues.now journals.now frames.now)) }
{
    let loopers = queues.len().min(journals.len()).min(frames.len());
    for index in 0..loopers {
        write_looper(alloc, out, &queues[index], &journals[index], &frames[index])?;
    }
    Ok(())
}

/// The text of a report, as the program prints it. For each looper it has the dispatches, refusals and other answers of its queue
/// in order, the counts of the fates of its accepted posts, what its journal shows, and its frames with the callbacks that they
/// ran. It is refused only when out of memory. The form is this project's profile.
#[tactic(auto, using(std::proofs::lemmas::List::append_assoc), unfolding(run_model::specs::Text::report_text, run_model::specs::Text::report_lines))]
pub fn report_text(alloc: Global, report: &Report) -> Result<Vec<u8>, NoMemory>
    ensures { IfOk result (λ bytes. bytes.items ≡ report_text report.now) }
{
    let mut out = String::new(alloc);
    writeln!(out, "report {}", report.script.edition)?;
    write_loopers(
        alloc,
        &mut out,
        report.queues.as_slice(),
        report.journals.as_slice(),
        report.frames.as_slice(),
    )?;
    writeln!(out, "end")?;
    Ok(out.into_bytes())
}
