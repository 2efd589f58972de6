//! Printed histories.
use loop_model::{Entry, Sequence};

/// The whole history of a queue, over an empty start, with what stayed fixed for it.
#[derive(Debug, Drop)]
pub struct TraceQueue {
    /// The number of the looper.
    pub looper: u32,
    /// Whether its looper is the main one.
    pub main: bool,
    /// Whether the controller moves its time on.
    pub lockstep: bool,
    /// How many senders there are, the last of them the controller.
    pub senders: u32,
    /// The calls with their replies, in order.
    pub entries: Sequence<Entry>,
}

/// The histories of some queues, as a trace prints them. It may have no queues, and loopers with equal numbers (this
/// project's profile).
#[derive(Debug, Drop)]
pub struct Trace {
    /// The histories, in the order of the text.
    pub queues: Sequence<TraceQueue>,
}

/// What reading a text gives.
#[derive(Debug, Drop)]
pub enum ParsedTrace {
    /// The histories that the text prints.
    Ok(Trace),
    /// The least bad line, counted from 1.
    Bad { line: u64 },
    /// No memory was found for them.
    NoMemory,
}
