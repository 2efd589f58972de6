//! The line of the fates of a history.
ghost use Rattle.std.specs.Prelude.{◌≡◌, ◌++◌, OnOk, string_bytes};
ghost use Rattle.loop_model.specs.Chain.{entries_of};
ghost use Rattle.loop_model.specs.Fates.{fates};
ghost use Rattle.run_model.specs.Text.{fates_line, line_text};

use fate_ledger::fates;
use loop_model::{NoMemory, Segment};
use std::alloc::Global;
use std::fmt::Write;

/// Writes the line of the fates of a history in these parts. It is refused only when out of memory. The form is this project's
/// profile.
pub fn write_fates(alloc: Global, out: &mut String, segments: &[Segment]) -> Result<(), NoMemory>
    ensures { OnOk result (string_bytes out.new
        ≡ string_bytes out.old ++ line_text (fates_line (fates (entries_of segments.now)))) }
{
    let fates = fates(alloc, segments)?;
    writeln!(
        out,
        "fates accepted {} dispatched {} removed {} dropped {} stranded {} queued {}",
        fates.list.len(),
        fates.dispatched,
        fates.removed,
        fates.dropped,
        fates.stranded,
        fates.queued
    )?;
    Ok(())
}
