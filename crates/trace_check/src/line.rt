//! The lines of a trace.
use loop_model::Entry;

/// The line of a queue: its looper, whether it is the main looper's, whether its time is moved by a controller, how many
/// senders it has, and how many lines of entries follow.
#[derive(Clone, Copy)]
pub struct Head {
    /// The number of the looper.
    pub looper: u32,
    /// Whether it is the main one, which may not quit.
    pub main: bool,
    /// Whether a controller moves the time on.
    pub lockstep: bool,
    /// How many senders there are, the last of them the controller.
    pub senders: u32,
    /// How many lines of entries follow.
    pub count: u64,
}

/// What one line says.
#[derive(Clone, Copy)]
pub enum TraceLine {
    /// The first line.
    Title,
    /// The line of a queue.
    Queue(Head),
    /// A call with its reply.
    Entry(Entry),
    /// The last line.
    End,
}
