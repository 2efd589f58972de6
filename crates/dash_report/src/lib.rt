//! The texts of a run: its report, and the summary of its counts.
#![tactic(auto)]

mod fates;
mod frames;
mod history;
mod journal;
mod report;
mod summary;

pub use fates::write_fates;
pub use history::write_history;
pub use report::report_text;
pub use summary::summary_text;
