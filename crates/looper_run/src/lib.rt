//! The loop of a looper: it drains its queue, dispatches each message once, runs idle handlers, tells listeners of events,
//! and keeps a journal of what it did.
#![tactic(auto)]

mod by_clock;
mod dispatch;
mod dispatcher;
mod looper;
mod own;
mod records;
mod sources;
mod step;

pub use by_clock::{ByClock, Loop};
pub use dispatcher::{Did, Dispatcher};
pub use looper::{Looper, Round};
pub use own::Own;
pub use sources::Sources;
