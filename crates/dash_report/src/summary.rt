//! The summary of a run of a generated script.
ghost use Rattle.std.specs.Prelude.{◌≡◌, ◌+◌, IfOk, count_by};
ghost use Rattle.run_model.specs.FrameRecords.{is_begin};
ghost use Rattle.run_model.specs.Summary.{accepted_in, dispatched_in, frames_in, is_paint, paints_in, summary};

use fate_ledger::fates;
use frame_phases::{FrameEntry, FrameRecord};
use loop_model::{Act, Journal, NoMemory, QueueRecord};
use run_model::Report;
use std::alloc::Global;
use std::fmt::Write;

/// How many posts all queues accepted, and how many of these were dispatched.
#[derive(Clone, Copy, Debug)]
struct PostCounts {
    accepted: u64,
    dispatched: u64,
}

/// The sum of two counts; one past the greatest `u64` counts as out of memory.
fn sum(first: u64, second: u64) -> Result<u64, NoMemory>
    ensures { IfOk result (λ total. total ≡ first + second) }
{
    match first.checked_add(second) {
        Some(total) => Ok(total),
        None => Err(NoMemory),
    }
}

fn count_posts(alloc: Global, queues: &[QueueRecord]) -> Result<PostCounts, NoMemory>
    ensures accepted { IfOk result (λ counts. counts.accepted ≡ accepted_in queues.now) }
    ensures dispatched { IfOk result (λ counts. counts.dispatched ≡ dispatched_in queues.now) }
{
    let mut accepted = 0;
    let mut dispatched = 0;
    for queue in queues {
        let fates = fates(alloc, queue.segments.as_slice())?;
        accepted = sum(accepted, fates.list.len() as u64)?;
        dispatched = sum(dispatched, fates.dispatched)?;
    }
    Ok(PostCounts {
        accepted,
        dispatched,
    })
}

fn count_begins(entries: &[FrameEntry]) -> u64
    ensures { result ≡ count_by is_begin entries.now }
{
    entries
        .iter()
        .filter(|entry| matches!(entry, FrameEntry::Begin { .. }))
        .count() as u64
}

fn count_frames(records: &[FrameRecord]) -> Result<u64, NoMemory>
    ensures { IfOk result (λ total. total ≡ frames_in records.now) }
{
    let mut total = 0;
    for record in records {
        total = sum(total, count_begins(record.entries.as_slice()))?;
    }
    Ok(total)
}

fn count_own_paints(acts: &[Act]) -> u64
    ensures { result ≡ count_by is_paint acts.now }
{
    acts.iter()
        .filter(|act| matches!(act, Act::Paint { .. }))
        .count() as u64
}

fn count_paints(journals: &[Journal]) -> Result<u64, NoMemory>
    ensures { IfOk result (λ total. total ≡ paints_in journals.now) }
{
    let mut total = 0;
    for journal in journals {
        total = sum(total, count_own_paints(journal.acts.as_slice()))?;
    }
    Ok(total)
}

/// The text of the summary of a run of the script that the generator makes from `number`: five lines with the number, the
/// accepted posts, the dispatched ones, the frames that began and the paints, each over all loopers. It is refused for want of
/// memory, or where a sum is past the greatest `u64`. The form is this project's profile.
pub fn summary_text(alloc: Global, number: u32, report: &Report) -> Result<Vec<u8>, NoMemory>
    ensures { IfOk result (λ bytes. bytes.items ≡ summary number report.now) }
{
    let posts = count_posts(alloc, report.queues.as_slice())?;
    let frames = count_frames(report.frames.as_slice())?;
    let paints = count_paints(report.journals.as_slice())?;
    let mut out = String::new(alloc);
    writeln!(out, "summary {number}")?;
    writeln!(out, "accepted {}", posts.accepted)?;
    writeln!(out, "dispatched {}", posts.dispatched)?;
    writeln!(out, "frames {frames}")?;
    writeln!(out, "paints {paints}")?;
    Ok(out.into_bytes())
}
