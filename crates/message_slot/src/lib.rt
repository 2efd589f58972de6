//! Messages, and the claims that they carry.
#![tactic(auto)]

mod claim;
mod message;

pub use claim::{Claim, NoClaim};
pub use message::Message;
