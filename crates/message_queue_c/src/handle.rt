// The handle that C holds.
ghost use Rattle.std.specs.Prelude.{◌≡◌, true, false};
ghost use Rattle.message_queue_c.specs.Contents.{Contents};

use crate::kept::Kept;
use heap_value::Lone;
use std::marker::{Model, Send};

/// What C holds of a queue. Where it is live it owns what lies at its pointer, and it may not be copied.
/// One whose bytes are all 0 is not live, and owns nothing. It can't be let go while it is live.
#[repr(C)]
pub struct MqQueue {
    at: *mut u8,
    live: bool,
    pub ghost state: { Contents },
}

impl Model for MqQueue {
    ghost use Rattle.message_queue_c.specs.Handle.{owned_by};

    ghost also_owns = { λ h. owned_by h.live h.at h.state };
}

/// A pointer to nothing.
#[derive(Clone, Copy)]
pub(crate) struct Nowhere {
    at: *mut u8,
}

impl Nowhere {
    pub(crate) fn new() -> Nowhere {
        Nowhere {
            at: std::ptr::null_mut(),
        }
    }
}

impl MqQueue {
    pub(crate) fn closed(nowhere: Nowhere) -> MqQueue
        ensures { result.live ≡ false }
    {
        let Nowhere { at } = nowhere;
        MqQueue { at, live: false }
    }

    pub(crate) fn of(kept: Lone<Kept>) -> MqQueue
        ensures { (result.live ≡ true) × (result.state ≡ kept.value) }
    {
        let Lone { at } = kept;
        MqQueue {
            at: at as *mut u8,
            live: true,
        }
    }

    pub(crate) fn into_kept(self) -> Lone<Kept>
        requires { self.live ≡ true }
        ensures { result.value ≡ self.state }
    {
        let MqQueue { at, live: _ } = self;
        Lone {
            at: at as *mut Kept,
        }
    }
}

impl MqQueue {
    /// The handle, with whether it is live.
    pub(crate) fn told(self) -> (bool, MqQueue)
        ensures { (result.0 ≡ self.live) × (result.1 ≡ self) }
    {
        let live = self.live;
        (live, self)
    }

    /// Ends a handle that is not live. No other way ends one.
    pub(crate) fn done(self)
        requires { self.live ≡ false }
    {
        let MqQueue { at: _, live: _ } = self;
    }
}

// A lock of the caller's may hand it from thread to thread.
unsafe impl Send for MqQueue {}
