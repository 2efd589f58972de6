//! Ready forms of what a looper and a choreographer ask for, for code that states nothing of its own: a line to post by, senders, a
//! dispatcher over handlers, a looper beside other work, a looper with frames, a frame client over drawing code, and a host that
//! keeps what it is to send.
#![tactic(auto)]

mod beside;
mod frames;
mod handlers;
mod laws;
mod lines;
mod mailbox;
mod records;
mod value_handlers;
mod value_looper;
mod values;

pub use beside::{loop_and_let_go, run_beside, run_here, run_looper, work_and_quit};
pub use frames::{Draw, Drawing, Outbox};
pub use handlers::{Handle, Handled, Handling, Msg, did};
pub use laws::value_is_sent;
pub use lines::Line;
pub use mailbox::{
    Mailbox, MailboxParts, Opened, Sender, Senders, Settings, open, open_for_values, open_with,
};
pub use records::LetGo;
pub use value_handlers::{HandleValues, HandlingValues};
pub use value_looper::{WorkBeside, run_value_looper, run_values_beside};
pub use values::Values;
