//! What reading a plan of values gives.
use crate::plan::Values;
use dash_script::Cause;

/// The values of a text, or why it has none.
#[derive(Debug, Drop)]
pub enum ParsedValues {
    /// The values whose text it is.
    Ok(Values),
    /// The least line, counted from 1, that has no line feed or with which the lines up to it begin the text of no values, or the
    /// one behind the last line where the text stops early; and the first of its causes.
    Bad { line: u64, cause: Cause },
    /// There was no memory.
    NoMemory,
}
