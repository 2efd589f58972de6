//! A countdown over frame time, after Android's `CountDownTimer` in whole numbers (this project's profile), and the time
//! that frames span.
#![tactic(auto)]

pub mod laws;
mod span;
mod timer;

pub use span::Span;
pub use timer::{Countdown, Ticked};
