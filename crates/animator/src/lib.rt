//! An animator over frame time, after Android's `ValueAnimator` in whole numbers with linear steps (this project's profile).
#![tactic(auto)]

mod keys;
pub mod laws;
mod plan;
mod values;

pub use keys::{Key, Keys};
pub use plan::Plan;
pub use values::{Animator, Valued};
