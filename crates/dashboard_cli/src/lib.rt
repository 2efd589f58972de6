//! The outer edge of the program: the top call `dashboard` reads the words and the source, does the work, and writes the
//! sink. Its status says how that went.
#![tactic(auto)]

mod inbox;
mod inputs;
mod making;
mod reading;
mod status;
mod top_call;
mod verdict;
mod words;
mod writing;

pub use dash_report::{report_text, summary_text};
pub use inbox::inbox_text;
pub use inbox_queue::InboxReport;
pub use reading::{MOST_BYTES, MOST_TRACE_BYTES, ReadError, read_whole};
pub use run_model::Report;
pub use status::{LineCause, Status, status_text};
pub use top_call::{Outcome, dashboard};
pub use words::{Subcommand, read_words};
pub use writing::write_whole;
