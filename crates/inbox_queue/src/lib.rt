//! An inbox: senders put messages side by side, and one admitter takes out what they put, each sender's in its order.
#![tactic(auto)]

mod admitter;
mod bad;
mod gathering;
mod inbox;
mod known;
mod main_queue;
mod parcel;
mod planned;
mod rule;
mod run;
mod sender;

pub use admitter::{Admit, Admitter};
pub use inbox::{Inbox, InboxEnd};
pub use known::Known;
pub use parcel::Parcel;
pub use rule::Whole;
pub use run::{InboxRan, InboxReport, run_inbox};
pub use sender::{InboxSender, Put};
