//! A run of a script, in lockstep or by a clock: its controller, its threads and its loopers, side by side on threads of their own.
#![tactic(auto)]

mod agenda;
mod control;
mod free;
mod give_up;
mod kept;
mod means;
mod opening;
mod records;
mod run;
mod share;
mod side;
mod stage;

pub use free::run_free;
pub use run::run_script;
