//! Plans of values over frame time: animators and countdowns, read, run and printed.
#![tactic(auto)]

mod draft;
mod frames;
pub mod laws;
mod plan;
mod reader;
mod refusal;
mod row;
mod run;
mod runner;

pub use animator::{Animator, Key, Keys, Plan, Valued};
pub use plan::{Thing, Values};
pub use reader::parse_values;
pub use refusal::ParsedValues;
pub use run::{ValuesRan, run_values};
