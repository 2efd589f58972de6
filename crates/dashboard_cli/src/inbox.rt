//! The text of a run through an inbox.
ghost use Rattle.std.specs.Prelude.{◌≡◌, ◌++◌, IfOk, OnOk, count_by, map, string_bytes};
ghost use Rattle.std.specs.List.{flat_map, range_with_len};
ghost use Rattle.run_model.specs.Text.{line_text};
ghost use Rattle.dashboard_cli.specs.InboxText.{admitted_from, from_line, inbox_text, is_from};

use dash_report::{write_fates, write_history};
use inbox_queue::{InboxReport, Parcel};
use loop_model::{NoMemory, Sequence};
use std::alloc::Global;
use std::fmt::Write;

/// How many of these parcels are the thread's.
fn count_from(parcels: &[Parcel], thread: u32) -> u64
    ensures { result ≡ count_by (is_from thread) parcels.now }
{
    parcels
        .iter()
        .filter(|parcel| parcel.from == thread)
        .count() as u64
}

/// How many of the thread's parcels were admitted, over all blocks. One past the greatest `u64` counts as out of memory.
fn count_admitted(lists: &[Sequence<Parcel>], thread: u32) -> Result<u64, NoMemory>
    ensures { IfOk result (λ total. total ≡ admitted_from thread lists.now) }
{
    let mut total: u64 = 0;
    for parcels in lists {
        let Some(more) = total.checked_add(count_from(parcels.as_slice(), thread)) else {
            return Err(NoMemory);
        };
        total = more;
    }
    Ok(total)
}

/// Writes for each of so many threads how many of its parcels were admitted.
fn write_admitted(
    out: &mut String,
    threads: u32,
    lists: &[Sequence<Parcel>],
) -> Result<(), NoMemory>
    ensures { OnOk result (string_bytes out.new
        ≡ string_bytes out.old ++ flat_map line_text (map (from_line lists.now) (range_with_len 0 threads))) }
{
    for thread in 0..threads {
        let count = count_admitted(lists, thread)?;
        writeln!(out, "from {thread} {count}")?;
    }
    Ok(())
}

/// The text of what came of a run through an inbox, as the program prints it: the dispatches, refusals and other answers of the main
/// looper's queue in order, the counts of the fates of its accepted posts, and for each thread how many of its parcels were
/// admitted. It is refused when out of memory, or where a count is past the greatest `u64`. The form is this project's profile.
pub fn inbox_text(alloc: Global, report: &InboxReport) -> Result<Vec<u8>, NoMemory>
    ensures { IfOk result (λ bytes. bytes.items ≡ inbox_text report.now) }
{
    let segments = report.kept.segments.as_slice();
    let mut out = String::new(alloc);
    writeln!(out, "inbox 1")?;
    writeln!(out, "looper 0")?;
    write_history(alloc, &mut out, segments)?;
    write_fates(alloc, &mut out, segments)?;
    write_admitted(&mut out, report.script.threads, report.admitted.as_slice())?;
    writeln!(out, "end")?;
    Ok(out.into_bytes())
}
