// The handle that C holds.
ghost use Rattle.std.specs.Prelude.{◌≡◌, true, false};
ghost use Rattle.loop_sources_c.specs.Contents.{Contents, contents_code};

use crate::kept::Kept;
use heap_value::Lone;
use std::marker::{Model, Send};

/// What C holds of idle handlers and descriptors. Where it is live it owns what lies at its pointer, and it may not be copied.
/// One whose bytes are all 0 is not live, and owns nothing. It can't be let go while it is live.
#[repr(C)]
pub struct SourceLoop {
    at: *mut u8,
    live: bool,
    pub ghost state: { Contents } by { contents_code },
}

impl Model for SourceLoop {
    ghost use Rattle.loop_sources_c.specs.Handle.{owned_by};

    ghost also_owns = { λ h. owned_by h.live h.at h.state };
}

/// A pointer to nothing.
#[derive(Clone, Copy)]
pub(crate) struct Nowhere {
    at: *mut u8,
}

impl Nowhere {
    pub(crate) fn new() -> Nowhere {
        Nowhere {
            at: std::ptr::null_mut(),
        }
    }
}

impl SourceLoop {
    pub(crate) fn closed(nowhere: Nowhere) -> SourceLoop
        ensures { result.live ≡ false }
    {
        let Nowhere { at } = nowhere;
        SourceLoop { at, live: false }
    }

    pub(crate) fn of(kept: Lone<Kept>) -> SourceLoop
        ensures { (result.live ≡ true) × (result.state ≡ kept.value) }
    {
        let Lone { at } = kept;
        SourceLoop {
            at: at as *mut u8,
            live: true,
        }
    }

    pub(crate) fn into_kept(self) -> Lone<Kept>
        requires { self.live ≡ true }
        ensures { result.value ≡ self.state }
    {
        let SourceLoop { at, live: _ } = self;
        Lone {
            at: at as *mut Kept,
        }
    }
}

impl SourceLoop {
    /// The handle, with whether it is live.
    pub(crate) fn told(self) -> (bool, SourceLoop)
        ensures { (result.0 ≡ self.live) × (result.1 ≡ self) }
    {
        let live = self.live;
        (live, self)
    }

    /// Ends a handle that is not live. No other way ends one.
    pub(crate) fn done(self)
        requires { self.live ≡ false }
    {
        let SourceLoop { at: _, live: _ } = self;
    }
}

// A lock of the caller's may hand it from thread to thread.
unsafe impl Send for SourceLoop {}
