//! What the senders of a script's run share, what each of them owns, and the ways in which a sender calls.
//!
//! A `Hall` has the queues, the choreographers and the pool; a `Kit` is what one sender works with. Lockstep is this project's profile.
#![tactic(auto)]

mod barriers;
mod calls;
mod hall;
mod handlers;
mod host;
mod kit;
mod stop;
mod timer;
mod uptime;

pub use barriers::quit;
pub use calls::{QueueCall, perform, send};
pub use hall::{Hall, holder, open};
pub use handler_post::recycle_all;
pub use handlers::{frame_handler, gauge_handler, handler_of, looper_of, message_of};
pub use host::Host;
pub use kit::Kit;
pub use stop::{Look, Stop};
pub use timer::Timer;
pub use uptime::{Still, Uptime};
