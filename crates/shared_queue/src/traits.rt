// The numbers and marks of a queue.
ghost use Rattle.std.specs.Prelude.{◌≡◌};

use loop_model::{QueueRecord, Segment, Sequence};

/// The number of its looper, whether it is the main one's, whether it is in lockstep, and how many senders it has.
#[derive(Debug, Clone, Copy)]
pub struct Traits {
    pub(crate) looper: u32,
    pub(crate) main: bool,
    pub(crate) lockstep: bool,
    pub(crate) senders: u32,
}

impl Traits {
    // What is kept of a queue with a history in these parts.
    pub(crate) fn with_history(self, segments: Sequence<Segment>) -> QueueRecord
        ensures looper { result.looper ≡ self.looper }
        ensures marks { (result.main ≡ self.main) × (result.lockstep ≡ self.lockstep) × (result.senders ≡ self.senders) }
        ensures segments { result.segments ≡ segments }
    {
        QueueRecord {
            looper: self.looper,
            main: self.main,
            lockstep: self.lockstep,
            senders: self.senders,
            segments,
        }
    }
}
