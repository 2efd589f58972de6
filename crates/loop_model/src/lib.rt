//! The plain data of a message queue: calls, replies and histories. What they mean stands in `specs/`. Moments are
//! milliseconds of uptime.
#![tactic(auto)]

mod base;
mod call;
mod counters;
mod entry;
mod fate;
mod item;
mod journal;
pub mod laws;
mod memory;
pub mod plain;
mod post;
mod record;
mod reply;
mod segment;
mod sequence;

pub use base::Base;
pub use call::Call;
pub use counters::{Counters, LiveItems};
pub use entry::Entry;
pub use fate::Fate;
pub use item::Item;
pub use journal::{Act, Journal, Route};
pub use memory::NoMemory;
pub use post::{Filter, Kind, Post};
pub use record::QueueRecord;
pub use reply::Reply;
pub use segment::Segment;
pub use sequence::Sequence;
