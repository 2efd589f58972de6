//! What the senders of a run work with.
use loop_io::Gate;
use std::alloc::Global;
use std::sync::Wait;

/// What the senders of a run work with, beside what they share.
#[derive(Drop)]
pub(crate) struct Means<'a, R: Wait, G: Gate> {
    /// Threads, waits and the time, of the system.
    pub(crate) rt: &'a R,
    /// Where memory comes from.
    pub(crate) alloc: Global,
    /// What each sender passes before each of its steps.
    pub(crate) gate: &'a G,
}
