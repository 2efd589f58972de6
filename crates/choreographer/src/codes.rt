//! The messages that a choreographer sends its looper, and the unit of its moments.

/// How many nanoseconds a millisecond has.
pub const NANOS_PER_MILLI: u64 = 1_000_000;

/// What the message is that begins a frame.
pub const FRAME_MESSAGE: u32 = 0;

/// What the message is that says that a callback of the phase in its `arg` came due.
pub const DUE_MESSAGE: u32 = 2;
