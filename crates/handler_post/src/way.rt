//! What a form of a handler works on, and how it ends.

use message_pool::{Payload, Pool, PoolClaim, PoolPass};
use queue_state::{Kept, Recorder};
use shared_queue::{Poster, SharedQueue};

/// A thread's way to a queue whose messages are of a pool: the queue with one of its posters, and the pool with one of its
/// passes. The entries go where `E` says, as the queue's, and its messages may carry values of the type `P`.
#[derive(Drop)]
pub struct Way<'a, E: Recorder = Kept, P: Payload = ()> {
    /// The queue.
    pub queue: &'a SharedQueue<PoolClaim<P>, E>,
    /// The thread's poster of the queue.
    pub poster: &'a mut Poster<PoolClaim<P>, E>,
    /// The pool that messages come from and go back to.
    pub pool: &'a Pool<P>,
    /// The thread's pass of the pool.
    pub pass: &'a mut PoolPass<P>,
}

/// How a sending ended.
#[derive(Clone, Copy, Debug, PartialEq, Eq)]
pub enum Sent {
    /// It is the accepted message of this number, counted from 0. Where `wake` is true a waiting looper has to look again.
    Accepted { number: u64, wake: bool },
    /// The queue was quitting, by the entry at this place of its history. The message was recycled.
    Refused { place: u64 },
    /// The message or its entry found no memory. The message was recycled, and no entry was made.
    NoMemory,
}

/// How a removal ended.
#[derive(Clone, Copy, Debug, PartialEq, Eq)]
pub enum Erased {
    /// So many messages were removed, and recycled.
    Removed { count: u64 },
    /// The entry found no memory, and all stayed.
    NoMemory,
}
