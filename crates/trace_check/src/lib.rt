//! Printed histories of message queues: their text, read and written, and a checker. The text is this project's own.
#![tactic(auto)]

mod checker;
mod counts;
mod draft;
mod fault;
mod items;
mod label;
mod line;
mod past;
mod reader;
mod reading;
mod shelf;
mod shelves;
mod trace;
mod writer;

pub use checker::{Checked, Explained, check, explain};
pub use fault::Fault;
pub use reader::parse_trace;
pub use trace::{ParsedTrace, Trace, TraceQueue};
pub use writer::{print_records, print_trace};
