//! A looper with its choreographer: its frames are messages of its queue, and it wakes at the pulses that are asked for.
#![tactic(auto)]

mod beside;
mod dispatching;
mod handlers;
mod looping;
mod outbox;
mod painting;
mod posting;
mod screen;

pub use beside::{FrameSettings, run_frames_beside, run_frames_here, run_frames_with};
pub use handlers::FrameHandle;
pub use looping::run_frame_looper;
pub use outbox::FrameOutbox;
pub use screen::{Phase, Screen};
