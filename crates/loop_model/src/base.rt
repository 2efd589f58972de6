// What a history starts from.

ghost use Rattle.std.specs.Prelude.{◌≡◌, IfOk};
ghost use Rattle.loop_model.specs.Base.{empty_base};

use crate::item::Item;
use crate::memory::NoMemory;
use crate::sequence::Sequence;
use std::alloc::Global;

/// What the earlier part of a history has left: how long it was, the greatest moment in it in milliseconds, the numbers of
/// accepted posts and of barriers, the place of its quit, how many entries each sender made, and its live items in order.
/// Histories are this project's profile: AOSP keeps none.
#[derive(Debug, Drop)]
pub struct Base {
    /// How many entries stand before.
    pub length: u64,
    /// The greatest moment in them, in milliseconds.
    pub time: u64,
    /// How many posts were accepted, which is the number of the next one.
    pub accepted: u64,
    /// How many barriers were posted, which is the token of the next one.
    pub barriers: u64,
    /// The place of the first quit that was done.
    pub quit: Option<u64>,
    /// Whether the queue was disposed of.
    pub disposed: bool,
    /// Whether the queue was halted.
    pub halted: bool,
    /// How many entries each sender made, by its number.
    pub made: Sequence<u64>,
    /// The messages and barriers that stand in the queue, in order.
    pub items: Sequence<Item>,
}

impl Base {
    /// Nothing went before, on a queue with this many senders. NoMemory where the counts of their entries found none.
    pub fn empty(alloc: Global, senders: u32) -> Result<Base, NoMemory>
        ensures { IfOk result (λ base. base ≡ empty_base senders) }
    {
        let made = vec![in alloc; 0; senders as usize]?;
        Ok(Base {
            length: 0,
            time: 0,
            accepted: 0,
            barriers: 0,
            quit: None,
            disposed: false,
            halted: false,
            made: Sequence::from_vec(made),
            items: Sequence::from_vec(Vec::new(alloc)),
        })
    }
}
