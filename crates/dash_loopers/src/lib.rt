//! The loopers of a script's run: a looper runs rounds on its queue, with reactions, gauges and frames.
#![tactic(auto)]

mod by_clock;
mod frame_messages;
mod frame_run;
mod hearing;
mod looper;
mod player;
mod rules;
mod view_root;

pub use looper::StageLooper;
pub use player::Parts;
pub use view_root::ViewRoot;
