//! What a looper lends to its dispatcher.

use loop_model::Journal;
use message_pool::{Payload, PoolClaim, PoolPass};
use queue_state::{Kept, Recorder};
use shared_queue::Poster;

/// The looper's poster of its own queue, its pass of the pool, and its journal. The queue's entries go where `E` says, and
/// its messages may carry values of the type `P`.
#[derive(Drop)]
pub struct Own<'a, E: Recorder = Kept, P: Payload = ()> {
    /// Its poster of its own queue.
    pub poster: &'a mut Poster<PoolClaim<P>, E>,
    /// Its pass of the pool.
    pub pass: &'a mut PoolPass<P>,
    /// What it did.
    pub journal: &'a mut Journal,
}
