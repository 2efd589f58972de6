//! Arrows from posts to their dispatches, by the histories of a trace, as trace events in JSON.
#![tactic(auto)]

mod event;
mod flow;
mod picture;

pub use flow::{Flow, Sent, flows};
pub use picture::{flows_of, flows_text};
