//! What a looper did, apart from its calls on queues.

use crate::sequence::Sequence;

/// Who took a message: its own callback, else the handler's callback object, else the handler itself (the order of
/// `Handler.dispatchMessage`).
#[derive(Clone, Copy, Debug, PartialEq, Eq)]
pub enum Route {
    /// The message's own callback.
    Callback { id: u64 },
    /// The handler's callback object, which then wants no more done.
    Intercepted,
    /// The handler itself (`handleMessage`).
    Handled,
}

/// One thing that a looper did.
#[derive(Clone, Copy, Debug, PartialEq, Eq)]
pub enum Act {
    /// It dispatched the message of this number, at this moment in milliseconds.
    Dispatch { number: u64, now: u64, route: Route },
    /// It ran an idle handler, which is kept or not.
    Idle { id: u32, kept: bool },
    /// It told a listener of events, and the listener answered a mask.
    Event { fd: u32, events: u32, mask: u32 },
    /// It delivered a pulse with this stamp in nanoseconds.
    Vsync { stamp: u64 },
    /// It painted a gauge.
    Paint { gauge: u32, value: u32 },
}

/// What a looper did, in order (this project's profile).
#[derive(Debug, Drop)]
pub struct Journal {
    /// The number of the looper.
    pub looper: u32,
    /// What it did, in order.
    pub acts: Sequence<Act>,
}
