//! Handlers: the forms in which a thread sends messages to a queue, and removes them.
//!
//! Each send obtains its message from the pool before it takes the queue's turn; the removals and the question obtain none. Each
//! form makes one call on the queue.
#![tactic(auto)]

mod handler;
mod supply;
mod unhandled;
mod values;
mod way;

pub use handler::Handler;
pub use supply::recycle_all;
pub use unhandled::Quit;
pub use values::{SentWith, recycle_with};
pub use way::{Erased, Sent, Way};
