//! What is kept of a queue.

use crate::segment::Segment;
use crate::sequence::Sequence;

/// The whole history of a looper's queue, in the parts that were handed out, with what stayed fixed for it (this project's
/// profile).
#[derive(Debug, Drop)]
pub struct QueueRecord {
    /// The number of the looper.
    pub looper: u32,
    /// It is the queue of the main looper, which may not quit.
    pub main: bool,
    /// Its time moves by the controller's Advances alone.
    pub lockstep: bool,
    /// How many senders there are, the last of them the controller.
    pub senders: u32,
    /// The parts, in order; each starts from what those before have left.
    pub segments: Sequence<Segment>,
}
