//! A value that lies on the heap by itself, as what stands behind a handle that C holds.
#![tactic(auto)]

mod lends;
mod lone;

pub use lone::Lone;
