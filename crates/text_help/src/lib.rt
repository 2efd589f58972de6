//! Help for an input that is refused: what is wrong with a script, a plan of values, a trace or a report, where, and what could
//! stand there. Whether the input is good, and which line is refused for which cause, is what its own reader answers.
#![tactic(auto)]

mod commands;
mod form;
mod histories;
mod layout;
mod lines;
mod plans;
mod reports;
mod said;
mod scripts;
mod shape;
mod traces;

pub use histories::explain_trace;
pub use plans::explain_plan;
pub use reports::explain_report;
pub use said::{Said, SaidOfTrace};
pub use scripts::explain_script;
