//! A law between the printing and the reading of reports: the text that is printed of a run is read as what the run tells.
#![tactic(auto)]

ghost use Rattle.std.specs.Prelude.{◌≡◌, IsTrue};
ghost use Rattle.std.specs.List.{list_all};
ghost use Rattle.report_law.specs.Laws.{ARunIsRead, PrintedIsRead, is_countable};

mod counts;
mod widths;

use counts::are_countable;
use run_model::Report;
use widths::walk_report;

/// The text of the report of a run is the text of what the run tells, where its loopers are numbered from 0 on, no callback ran
/// before the first frame, and each number is within the limits of its place.
pub fn printed_is_read()
    ensures { PrintedIsRead }
{}

/// The text of a report that is that of a run of a script, in lockstep or by a clock, is the text of what the run tells, where the
/// script has a text. That each number is within the limits of its place follows from the types, by a walk over the report.
/// Only the count of a queue's accepted posts has no type that limits it: the answer is whether 64 bits can count those of each.
pub fn a_run_is_read(report: &Report) -> bool
    ensures counted { result ≡ list_all is_countable report.now.queues }
    ensures read { IsTrue result → ARunIsRead report.now }
{
    walk_report(report);
    are_countable(report.queues.as_slice())
}
