// What a seat at the table of a queue knows.
use crate::traits::Traits;
use loop_model::{Entry, Segment};
use std::collections::LinkedList;
use std::marker::Model;
use std::snapshot::Snapshot;

/// What stays the same in a queue. The home has no bytes here.
#[derive(Drop)]
pub struct QueueKey<H> {
    pub(crate) home: Snapshot<H>,
    pub(crate) traits: Traits,
}

impl<H> Model for QueueKey<H> {
    ghost use Rattle.shared_queue.specs.Constants.{Constants, constants_of};

    ghost Value = { Constants H };

    ghost view = { λ k. constants_of k.home.value k.traits };
}

/// No value of it is made.
pub struct View<S, H, K> {
    /// The constants of its queue, or none once its seat was joined into another.
    pub constants: Option<QueueKey<H>>,
    /// Its sender numbers, each with the number of that sender's entries.
    pub senders: LinkedList<(u32, u64)>,
    /// The beginning of the history that it has seen.
    pub seen: LinkedList<Entry>,
    /// Beginnings that it was told of.
    pub told: LinkedList<LinkedList<Entry>>,
    /// What it has seen of the claims of all accepted posts, by number.
    pub claims: LinkedList<Option<K>>,
    /// Beginnings of them that it was told of.
    pub told_claims: LinkedList<LinkedList<Option<K>>>,
    /// Whether it has a turn at the table now.
    pub has_turn: bool,
    /// How many turns it had.
    pub turns: u64,
    /// The state that its last turn found.
    pub found: Option<S>,
    /// The state that its last turn left.
    pub left: Option<S>,
    /// The parts of the history that it handed out.
    pub sealed: LinkedList<Segment>,
    /// How often it rang the bell.
    pub rung: u64,
    /// What it read last on the bell.
    pub heard: u64,
    /// How often it read the bell.
    pub listens: u64,
}
