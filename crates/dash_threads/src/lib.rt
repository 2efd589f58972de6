//! The posting threads of a script's run: a thread makes the calls that its lines plan, one for one and in order.
#![tactic(auto)]

mod by_clock;
mod hearing;
mod labels;
mod planned;
mod thread;

pub use labels::Labelled;
pub use thread::PostingThread;
