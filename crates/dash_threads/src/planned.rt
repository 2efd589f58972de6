//! The call that a command plans on a queue.
ghost use Rattle.std.specs.Prelude.{◌≡◌};
ghost use Rattle.dash_threads.specs.Planning.{call_planned, planned_by_handler, sending_of, removal_from};

use crate::labels::{Labelled, find};
use dash_hall::{QueueCall, gauge_handler, looper_of, message_of};
use dash_script::{Command, Script};
use loop_model::{Filter, Kind, Post};

/// A call, and the looper on whose queue it is to be made.
#[derive(Clone, Copy, Debug, PartialEq, Eq)]
pub(crate) struct PlannedCall {
    pub(crate) looper: u32,
    pub(crate) call: QueueCall,
}

/// The call of a command at this uptime, in milliseconds. None of those that make no call on a queue, and of a barrier's
/// removal where the label names none of these barriers.
pub(crate) fn call_for(
    script: &Script,
    barriers: &[Labelled],
    now: u64,
    command: Command,
) -> Option<PlannedCall>
    ensures { result ≡ call_planned script.now barriers.now now command }
{
    match command {
        Command::Barrier { looper, .. } => Some(PlannedCall {
            looper,
            call: QueueCall::PostBarrier { now },
        }),
        Command::Unbarrier { label } => {
            let barrier = find(barriers, label)?;
            Some(PlannedCall {
                looper: barrier.looper,
                call: QueueCall::RemoveBarrier {
                    token: barrier.token,
                },
            })
        }
        Command::Quit { looper } => Some(PlannedCall {
            looper,
            call: QueueCall::Quit { safe: false, now },
        }),
        Command::QuitSafely { looper } => Some(PlannedCall {
            looper,
            call: QueueCall::Quit { safe: true, now },
        }),
        _ => call_by_handler(script, now, command),
    }
}

/// The call of a command that sends or removes messages of a handler.
fn call_by_handler(script: &Script, now: u64, command: Command) -> Option<PlannedCall>
    ensures { result ≡ planned_by_handler script.now now command }
{
    match command {
        Command::Post {
            handler,
            what,
            delay,
        } => Some(sending(
            script,
            message_of(script, handler, what, now.saturating_add(delay)),
        )),
        Command::PostAsync {
            handler,
            what,
            delay,
        } => Some(sending(
            script,
            Post {
                asynchronous: true,
                ..message_of(script, handler, what, now.saturating_add(delay))
            },
        )),
        Command::Front { handler, what } => {
            Some(sending(script, message_of(script, handler, what, 0)))
        }
        Command::Callback { handler, id, delay } => Some(sending(
            script,
            Post {
                callback: Some(u64::from(id)),
                ..message_of(script, handler, 0, now.saturating_add(delay))
            },
        )),
        Command::Set { gauge, value } => Some(sending(
            script,
            Post {
                arg: value,
                obj: Some(u64::from(gauge)),
                ..message_of(script, gauge_handler(script, gauge), 1, now)
            },
        )),
        Command::Remove { handler, what } => Some(removal(script, handler, Kind::What(what))),
        Command::RemoveCallback { handler, id } => {
            Some(removal(script, handler, Kind::Callback(u64::from(id))))
        }
        Command::RemoveAll { handler } => Some(removal(script, handler, Kind::All)),
        _ => None,
    }
}

/// The sending of a message, on the queue of its handler's looper.
fn sending(script: &Script, post: Post) -> PlannedCall
    ensures { result ≡ sending_of script.now post }
{
    PlannedCall {
        looper: looper_of(script, post.handler),
        call: QueueCall::Send { post },
    }
}

/// The removal of such messages of a declared handler, on the queue of its looper.
fn removal(script: &Script, handler: u32, kind: Kind) -> PlannedCall
    ensures { result ≡ removal_from script.now handler kind }
{
    PlannedCall {
        looper: looper_of(script, handler),
        call: QueueCall::Remove {
            filter: Filter {
                handler,
                kind,
                obj: None,
            },
        },
    }
}
