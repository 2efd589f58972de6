//! What is kept of a run of a script: the type `Report`. Which reports are a run of a script, and how a report is
//! printed, stands in `specs/`.
#![tactic(auto)]

mod report;

pub use report::Report;
