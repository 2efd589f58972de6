//! What is kept of a run.
use dash_script::Script;
use frame_phases::FrameRecord;
use loop_model::{Journal, QueueRecord, Sequence};

/// What is kept of a run of a script. Each of the three lists has one member per looper, in order.
#[derive(Debug, Drop)]
pub struct Report {
    /// The script that was run.
    pub script: Script,
    /// The history of each looper's queue.
    pub queues: Sequence<QueueRecord>,
    /// What each looper did apart from its calls on queues.
    pub journals: Sequence<Journal>,
    /// The frame history of each looper's choreographer.
    pub frames: Sequence<FrameRecord>,
    /// The clock's reading at the start, in milliseconds; in lockstep 0.
    pub start: u64,
}
