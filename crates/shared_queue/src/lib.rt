//! A message queue that many threads call, one at a time: each has a seat at one table, and takes the turn.
#![tactic(auto)]

mod calls;
mod desk;
mod ends;
mod laws;
mod looks;
mod on_heap;
mod owing;
mod poster;
mod queue;
mod rings;
mod rule;
mod traits;
mod view;
mod waiting;

pub use ends::Retired;
pub use laws::taken_is_posted;
pub use poster::Poster;
pub use queue::SharedQueue;
pub use rule::OneTurn;
pub use traits::Traits;
pub use view::{QueueKey, View};
pub use waiting::Waited;
