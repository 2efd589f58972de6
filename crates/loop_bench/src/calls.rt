// The calls on a queue that is measured, by its one sender.

ghost use Rattle.std.specs.Prelude.{◌≡◌, IfOk};

use loop_model::{Filter, NoMemory, Post};
use message_list::new_node;
use message_slot::{Message, NoClaim};
use queue_state::{BarrierPosted, Nexted, Posted, QueueState, Quitting, Taking};
use std::alloc::Global;
use when_queue::MsgNode;

const SENDER: u32 = 0;

/// A queue with one sender in free time, whose messages come from no pool.
pub(crate) fn new_queue(alloc: Global) -> Result<QueueState<NoClaim>, NoMemory>
    ensures { IfOk result (λ q. q.setting.senders ≡ 1) }
{
    QueueState::new(alloc, (), false, false, 1)
}

/// A message of one handler for this time in milliseconds.
pub(crate) fn message(when: u64) -> Post
    ensures { result.when ≡ when }
{
    Post {
        handler: 0,
        what: 1,
        arg: 0,
        obj: None,
        callback: None,
        when,
        asynchronous: false,
        slot: None,
    }
}

fn node(alloc: Global, message: Message<NoClaim>) -> Result<MsgNode<NoClaim>, NoMemory>
    ensures { IfOk result (λ n. n ≡ message) }
{
    match new_node(alloc, message) {
        Ok(node) => Ok(node),
        Err(_) => Err(NoMemory),
    }
}

/// Posts the message. A queue that has quit refuses it, which counts as posted here.
#[tactic(auto, using(queue_state::proofs::Stays::posts_stays))]
pub(crate) fn post(
    alloc: Global,
    state: &mut QueueState<NoClaim>,
    post: &Post,
) -> Result<(), NoMemory>
    requires { state.old.setting.senders ≡ 1 }
    ensures { state.new.setting ≡ state.old.setting }
{
    let mut message = Message::blank();
    message.set_post(post);
    match state.post(SENDER, node(alloc, message)?) {
        Posted::Accepted { .. } => Ok(()),
        Posted::Refused { .. } => Ok(()),
        Posted::NoMemory(_) => Err(NoMemory),
    }
}

/// Posts a barrier at this moment.
#[tactic(auto, using(queue_state::proofs::Stays::bars_stays))]
pub(crate) fn post_barrier(
    alloc: Global,
    state: &mut QueueState<NoClaim>,
    now: u64,
) -> Result<(), NoMemory>
    requires { state.old.setting.senders ≡ 1 }
    ensures { state.new.setting ≡ state.old.setting }
{
    match state.post_barrier(SENDER, now, node(alloc, Message::blank())?) {
        BarrierPosted::Token { .. } => Ok(()),
        BarrierPosted::NoMemory(_) => Err(NoMemory),
    }
}

/// Looks for a message that is due at this moment, and tells whether one was taken.
#[tactic(auto, using(queue_state::proofs::Stays::looks_stays))]
pub(crate) fn take(state: &mut QueueState<NoClaim>, now: u64) -> bool
    requires { state.old.setting.senders ≡ 1 }
    ensures { state.new.setting ≡ state.old.setting }
{
    matches!(state.next(SENDER, now, false), Nexted::Taken { .. })
}

/// Removes what the filter names, and tells how many messages that were.
#[tactic(auto, using(queue_state::proofs::Stays::takes_stays))]
pub(crate) fn remove(state: &mut QueueState<NoClaim>, filter: &Filter) -> Result<u64, NoMemory>
    requires { state.old.setting.senders ≡ 1 }
    ensures { state.new.setting ≡ state.old.setting }
{
    match state.remove(SENDER, filter) {
        Taking::Removed(list) => Ok(list.len() as u64),
        Taking::NoMemory => Err(NoMemory),
    }
}

/// Hands the entries out and drops them, where there are so many.
#[tactic(auto, using(queue_state::proofs::Stays::seals_stays))]
pub(crate) fn forget(state: &mut QueueState<NoClaim>, many: usize) -> Result<(), NoMemory>
    requires { state.old.setting.senders ≡ 1 }
    ensures { state.new.setting ≡ state.old.setting }
{
    if state.entries().len() < many {
        return Ok(());
    }
    match state.seal() {
        Ok(_) => Ok(()),
        Err(_) => Err(NoMemory),
    }
}

/// Quits safely at this moment, and tells how many messages that dropped.
#[tactic(auto, using(queue_state::proofs::Stays::quits_stays))]
pub(crate) fn quit_safely(state: &mut QueueState<NoClaim>, now: u64) -> Result<u64, NoMemory>
    requires { state.old.setting.senders ≡ 1 }
    ensures { state.new.setting ≡ state.old.setting }
{
    match state.quit(SENDER, true, now) {
        Quitting::Done(list) => Ok(list.len() as u64),
        Quitting::AlreadyQuit { .. } => Ok(0),
        Quitting::NotAllowed => Ok(0),
        Quitting::NoMemory => Err(NoMemory),
    }
}
