//! The lines of a report.
use crate::report::{Act, Fates, Past, Run};

/// What one line says.
#[derive(Clone, Copy)]
pub enum ReportLine {
    /// The first line, with the edition.
    Title(u32),
    /// The line of the looper with this number.
    Looper(u64),
    /// A line of a queue's history.
    Past(Past),
    /// A looper's line of fates, which counts them.
    Fates(Fates),
    /// A line of what a looper did.
    Act(Act),
    /// A frame's line, with its frame time in nanoseconds.
    Frame(u64),
    /// A line of a callback that ran in the frame above.
    Run(Run),
    /// The last line.
    End,
}
