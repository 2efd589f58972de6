// Each call on a queue, as C makes it.
ghost use Rattle.std.specs.Prelude.{◌≡◌, IfOk};
ghost use Rattle.queue_state.specs.Queue.{has_match};
ghost use Rattle.message_queue_c.specs.Blocks.{Uses};
ghost use Rattle.message_queue_c.specs.Messages.{filter_by};
ghost use Rattle.message_queue_c.specs.Ours.{is_ours, new_queue};
ghost use Rattle.message_queue_c.specs.Shown.{PostShown, BarrierShown, GoneShown, TakingShown, QuitShown, NextShown};

use crate::answers::{
    MqAnswer, MqNext, no_memory, shown_barrier, shown_gone, shown_next, shown_post, shown_quit,
    shown_taking,
};
use crate::message::{MqFilter, MqMessage};
use crate::spares::Spares;
use loop_model::NoMemory;
use message_slot::{Message, NoClaim};
use queue_state::{QueueState, Unkept};
use std::alloc::Global;
use when_queue::MsgList;

/// All calls are made by this one sender.
const SENDER: u32 = 0;

pub(crate) fn open(alloc: Global) -> Result<QueueState<NoClaim, Unkept>, NoMemory>
    ensures { IfOk result (λ q. q ≡ new_queue) }
{
    QueueState::new(alloc, (), false, false, 1)
}

pub(crate) fn post(
    alloc: Global,
    queue: &mut QueueState<NoClaim, Unkept>,
    spares: &mut Spares,
    message: &MqMessage,
) -> MqAnswer
    requires { is_ours queue.old }
    ensures done { PostShown queue.old message.now result queue.new }
    ensures blocks { Uses 1 spares.old spares.new }
    ensures ours { is_ours queue.new }
{
    let mut letter = Message::blank();
    letter.set_post(&message.post());
    match spares.node(alloc, letter) {
        Ok(node) => shown_post(queue.post(SENDER, node), spares),
        Err(_) => no_memory(),
    }
}

pub(crate) fn post_barrier(
    alloc: Global,
    queue: &mut QueueState<NoClaim, Unkept>,
    spares: &mut Spares,
    now: u64,
) -> MqAnswer
    requires { is_ours queue.old }
    ensures done { BarrierShown queue.old now result queue.new }
    ensures blocks { Uses 1 spares.old spares.new }
    ensures ours { is_ours queue.new }
{
    match spares.node(alloc, Message::blank()) {
        Ok(node) => shown_barrier(queue.post_barrier(SENDER, now, node)),
        Err(_) => no_memory(),
    }
}

pub(crate) fn remove_barrier(
    queue: &mut QueueState<NoClaim, Unkept>,
    spares: &mut Spares,
    token: u64,
) -> MqAnswer
    requires { is_ours queue.old }
    ensures done { GoneShown queue.old token result queue.new }
    ensures blocks { Uses 0 spares.old spares.new }
    ensures ours { is_ours queue.new }
{
    shown_gone(queue.remove_barrier(SENDER, token), spares)
}

pub(crate) fn remove(
    queue: &mut QueueState<NoClaim, Unkept>,
    dropped: &mut MsgList<NoClaim>,
    filter: &MqFilter,
) -> MqAnswer
    requires { is_ours queue.old }
    ensures done { TakingShown queue.old filter.now result queue.new dropped.old dropped.new }
    ensures ours { is_ours queue.new }
{
    shown_taking(queue.remove(SENDER, &filter.filter()), dropped)
}

pub(crate) fn quit(
    queue: &mut QueueState<NoClaim, Unkept>,
    dropped: &mut MsgList<NoClaim>,
    safe: bool,
    now: u64,
) -> MqAnswer
    requires { is_ours queue.old }
    ensures done { QuitShown queue.old safe now result queue.new dropped.old dropped.new }
    ensures ours { is_ours queue.new }
{
    shown_quit(queue.quit(SENDER, safe, now), dropped)
}

pub(crate) fn next(
    queue: &mut QueueState<NoClaim, Unkept>,
    dropped: &mut MsgList<NoClaim>,
    spares: &mut Spares,
    now: u64,
    idle_owed: bool,
) -> MqNext
    requires { is_ours queue.old }
    ensures done { NextShown queue.old now idle_owed result queue.new dropped.old dropped.new }
    ensures blocks { Uses 0 spares.old spares.new }
    ensures ours { is_ours queue.new }
{
    shown_next(queue.next(SENDER, now, idle_owed), dropped, spares)
}

pub(crate) fn has(queue: &QueueState<NoClaim, Unkept>, filter: &MqFilter) -> bool
    ensures { result ≡ has_match queue.now (filter_by filter.now) }
{
    queue.has(&filter.filter())
}
