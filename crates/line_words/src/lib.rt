//! The words, numbers and lines of texts that have one spelling: read from bytes and written. Words are separated by single
//! spaces, lines end with a line feed, and numbers are decimal digits below 2 to the 64 without a leading zero (this
//! project's profile).
#![tactic(auto)]

mod cursor;
mod reader;
mod words;
mod writer;

pub use cursor::Words;
pub use reader::{ByLines, Stop, read_lines};
pub use words::{number, split_first};
pub use writer::push_number;
