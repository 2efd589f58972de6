//! The widths of a report's numbers, which its types give.
ghost use Rattle.std.specs.List.{AllByRecursion};
ghost use Rattle.loop_model.specs.declared.entry.Entry.{Entry as EntryData};
ghost use Rattle.report_law.specs.Widths.{ActFits, CallFits, EntryFits, FrameEntryFits, FramesFit, JournalFits, QueueFits, ReplyFits, ReportFits, SegmentFits};

use frame_phases::{FrameEntry, FrameRecord};
use loop_model::{Act, Call, Entry, Journal, QueueRecord, Reply, Segment};
use run_model::Report;

/// What has numbers of certain widths.
trait Wide {
    /// Each number has its width.
    ghost Fits: { Self → Type 0 };

    /// Goes over all numbers.
    fn walk(&self)
        ensures { Fits self.now };
}

/// Goes over each member of a list.
fn walk_each<W: Wide>(items: &[W])
    ensures { AllByRecursion W.Fits items.now }
{
    for item in items {
        item.walk();
    }
}

fn call_fits(call: Call)
    ensures { CallFits call }
{}

fn reply_fits(reply: Reply)
    ensures { ReplyFits reply }
{}

fn act_fits(act: Act)
    ensures { ActFits act }
{}

fn frame_entry_fits(entry: FrameEntry)
    ensures { FrameEntryFits entry }
{}

impl Wide for Entry {
    ghost use Rattle.report_law.specs.Widths.{EntryFits};

    ghost Fits = { EntryFits };

    fn walk(&self) {
        call_fits(self.call);
        reply_fits(self.reply);
    }
}

impl Wide for Segment {
    ghost use Rattle.report_law.specs.Widths.{SegmentFits};

    ghost Fits = { SegmentFits };

    fn walk(&self) {
        walk_each(self.entries.as_slice());
    }
}

impl Wide for QueueRecord {
    ghost use Rattle.report_law.specs.Widths.{QueueFits};

    ghost Fits = { QueueFits };

    fn walk(&self) {
        walk_each(self.segments.as_slice());
    }
}

impl Wide for Act {
    ghost use Rattle.report_law.specs.Widths.{ActFits};

    ghost Fits = { ActFits };

    fn walk(&self) {
        act_fits(*self);
    }
}

impl Wide for Journal {
    ghost use Rattle.report_law.specs.Widths.{JournalFits};

    ghost Fits = { JournalFits };

    fn walk(&self) {
        walk_each(self.acts.as_slice());
    }
}

impl Wide for FrameEntry {
    ghost use Rattle.report_law.specs.Widths.{FrameEntryFits};

    ghost Fits = { FrameEntryFits };

    fn walk(&self) {
        frame_entry_fits(*self);
    }
}

impl Wide for FrameRecord {
    ghost use Rattle.report_law.specs.Widths.{FramesFit};

    ghost Fits = { FramesFit };

    fn walk(&self) {
        walk_each(self.entries.as_slice());
    }
}

/// Goes over all numbers of a report that its lines may show.
pub(crate) fn walk_report(report: &Report)
    ensures { ReportFits report.now }
{
    walk_each(report.queues.as_slice());
    walk_each(report.journals.as_slice());
    walk_each(report.frames.as_slice());
    let _loopers = report.queues.len();
}
