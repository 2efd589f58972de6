//! What is wrong with an entry.
use loop_model::Reply;

/// Why an entry may not come where it stands. An entry may have several faults; the first of them in this order is named.
#[derive(Clone, Copy, Debug, PartialEq, Eq)]
pub enum Fault {
    /// Its reply is not the one that a queue of one thread gives there (the rules of AOSP's `MessageQueue`), which is this one.
    /// None where such a queue gives none: the look finds nothing that is due, or the controller may not move.
    Reply { wanted: Option<Reply> },
    /// Its moment does not fit the time, in milliseconds, which the entries before it have reached: it is before that time, or in
    /// lockstep another one.
    Moment { time: u64 },
    /// There is no such sender.
    Sender,
    /// It is not the next of its sender, whose next entry has this number.
    Number { wanted: u64 },
    /// It moves the time or halts, and its sender is not the last one, the controller.
    Control,
}
