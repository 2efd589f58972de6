// What a frame's beginning and its steps answer, before C sees it.
use frame_phases::{Beginning, Callback};

/// How a frame began.
pub(crate) enum Start {
    /// Callbacks of the latest frame are still to be handed out.
    Waits,
    /// No memory was found, and all is as before.
    NoMemory,
    /// What the library's call answered.
    Begins(Beginning),
}

/// One step of a frame.
pub(crate) enum Step {
    /// A callback is to run, at this frame time.
    Run { callback: Callback, time: u64 },
    /// The next phase took so many callbacks, with this frame time.
    Phase { phase: u32, time: u64, count: u64 },
    /// No phase is left, or no frame is in progress.
    Ended,
    /// No memory was found, and the phase is still to be taken.
    NoMemory,
}
