//! What became of each accepted post of a history.
#![tactic(auto)]

mod behind;
mod counted;
mod dispatches;
mod ending;
mod history;
mod keys;
mod ledger;
mod quits;

pub use counted::Fates;
pub use history::fates;
