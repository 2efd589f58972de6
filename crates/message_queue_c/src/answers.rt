// Answers as C has them.
ghost use Rattle.std.specs.Prelude.{◌≡◌, false, MatchOption};
ghost use Rattle.message_queue_c.specs.Blocks.{Uses};
ghost use Rattle.message_queue_c.specs.Joined.{joined};
ghost use Rattle.message_queue_c.specs.Messages.{fields_of};
ghost use Rattle.message_queue_c.specs.Shown.{answer_as, done_kind, no_memory_kind, look_as, taken_kind, nothing_kind, IsNotOpen, HasNotOpen, shown_post, shown_barrier, shown_gone, shown_taking, shown_quit, shown_next, shown_dropped, taking_drops, quit_drops, next_drops};

use crate::drops::join;
use crate::message::MqMessage;
use crate::spares::Spares;
use loop_model::{Item, Post};
use message_slot::NoClaim;
use queue_state::{BarrierGone, BarrierPosted, Nexted, Posted, Quitting, Taking};
use when_queue::{MsgList, MsgNode};

/// It was done.
const DONE: u32 = 0;

/// There was no memory, and all is as before.
const NO_MEMORY: u32 = 1;

/// The queue quit before.
const REFUSED: u32 = 2;

/// No barrier of the token stands in the queue.
const NOT_POSTED: u32 = 3;

/// A quit was done before.
const ALREADY_QUIT: u32 = 4;

/// The queue may not quit.
const NOT_ALLOWED: u32 = 5;

/// The handle has no queue that is open.
const NOT_OPEN: u32 = 6;

/// A message was taken out, or handed out.
const TAKEN: u32 = 16;

/// Nothing is due, and an idle turn is owed.
const IDLE: u32 = 17;

/// Nothing is due until a moment.
const WAIT: u32 = 18;

/// Nothing is due.
const WAIT_FOREVER: u32 = 19;

/// The queue has quit, and nothing is due.
const END: u32 = 20;

/// The end was answered before.
const OVER: u32 = 21;

/// What was dropped is a barrier.
const BARRIER: u32 = 22;

/// Nothing is left to be handed out.
const NOTHING: u32 = 23;

/// The handle has no queue that is open: a look's answer.
const LOOK_NOT_OPEN: u32 = 24;

/// What a call answers: its kind, a number that goes with it, and whether a looper that waits is to be woken.
#[repr(C)]
#[derive(Clone, Copy, Debug, PartialEq, Eq)]
pub struct MqAnswer {
    /// The accepted message's number, a barrier's token, how many messages went, or a place of the history, by the kind.
    pub number: u64,
    /// Which answer it is.
    pub kind: u32,
    /// Whether a looper that waits is to be woken.
    pub wake: bool,
}

/// What a look for a message answers: its kind, the message that was taken with its number, and a moment in milliseconds.
#[repr(C)]
#[derive(Clone, Copy, Debug, PartialEq, Eq)]
pub struct MqNext {
    /// The message that was taken; all is 0 where none was.
    pub message: MqMessage,
    /// Its number among the accepted messages, counted from 0; of a dropped barrier its token; at an end how many were dropped; else 0.
    pub number: u64,
    /// The moment that was used, until which to wait, or of a dropped barrier, in milliseconds; else 0.
    pub time: u64,
    /// Which answer it is.
    pub kind: u32,
}

const NO_MESSAGE: MqMessage = MqMessage {
    when: 0,
    obj: 0,
    callback: 0,
    handler: 0,
    what: 0,
    arg: 0,
    has_obj: false,
    has_callback: false,
    asynchronous: false,
};

fn answer(kind: u32, number: u64, wake: bool) -> MqAnswer
    ensures { result ≡ answer_as kind number wake }
{
    MqAnswer { number, kind, wake }
}

pub(crate) fn done(number: u64) -> MqAnswer
    ensures { result ≡ answer_as done_kind number false }
{
    answer(DONE, number, false)
}

pub(crate) fn not_open() -> MqAnswer
    ensures { IsNotOpen result }
{
    answer(NOT_OPEN, 0, false)
}

pub(crate) fn nothing() -> MqNext
    ensures { result ≡ look_as nothing_kind 0 0 }
{
    look(NOTHING, 0, 0)
}

pub(crate) fn not_open_look() -> MqNext
    ensures { HasNotOpen result }
{
    look(LOOK_NOT_OPEN, 0, 0)
}

pub(crate) fn no_memory() -> MqAnswer
    ensures { result ≡ answer_as no_memory_kind 0 false }
{
    answer(NO_MEMORY, 0, false)
}

fn look(kind: u32, number: u64, time: u64) -> MqNext
    ensures { result ≡ look_as kind number time }
{
    MqNext {
        message: NO_MESSAGE,
        number,
        time,
        kind,
    }
}

/// The answer; a node that was refused is kept.
pub(crate) fn shown_post(posted: Posted<NoClaim>, spares: &mut Spares) -> MqAnswer
    ensures shown { result ≡ shown_post posted }
    ensures blocks { Uses 0 spares.old spares.new }
{
    match posted {
        Posted::Accepted { number, wake } => answer(DONE, number, wake),
        Posted::Refused { place, node } => {
            spares.keep(node);
            answer(REFUSED, place, false)
        }
        Posted::NoMemory(_) => answer(NO_MEMORY, 0, false),
    }
}

pub(crate) fn shown_barrier(posted: BarrierPosted<NoClaim>) -> MqAnswer
    ensures { result ≡ shown_barrier posted }
{
    match posted {
        BarrierPosted::Token { token } => answer(DONE, token, false),
        BarrierPosted::NoMemory(_) => answer(NO_MEMORY, 0, false),
    }
}

/// The answer; the barrier's node is kept.
pub(crate) fn shown_gone(gone: BarrierGone<NoClaim>, spares: &mut Spares) -> MqAnswer
    ensures shown { result ≡ shown_gone gone }
    ensures blocks { Uses 0 spares.old spares.new }
{
    match gone {
        BarrierGone::Unbarriered { node, wake } => {
            spares.keep(node);
            answer(DONE, 0, wake)
        }
        BarrierGone::NotPosted => answer(NOT_POSTED, 0, false),
        BarrierGone::NoMemory => answer(NO_MEMORY, 0, false),
    }
}

/// The answer, and what was removed joins what was dropped before.
pub(crate) fn shown_taking(taking: Taking<NoClaim>, dropped: &mut MsgList<NoClaim>) -> MqAnswer
    ensures shown { result ≡ shown_taking taking }
    ensures dropped { dropped.new ≡ joined dropped.old (taking_drops taking) }
{
    match taking {
        Taking::Removed(list) => {
            let count = list.len() as u64;
            join(dropped, list);
            answer(DONE, count, false)
        }
        Taking::NoMemory => answer(NO_MEMORY, 0, false),
    }
}

/// The answer, and what the quit dropped joins what was dropped before.
pub(crate) fn shown_quit(quitting: Quitting<NoClaim>, dropped: &mut MsgList<NoClaim>) -> MqAnswer
    ensures shown { result ≡ shown_quit quitting }
    ensures dropped { dropped.new ≡ joined dropped.old (quit_drops quitting) }
{
    match quitting {
        Quitting::Done(list) => {
            let count = list.len() as u64;
            join(dropped, list);
            answer(DONE, count, true)
        }
        Quitting::AlreadyQuit { place } => answer(ALREADY_QUIT, place, false),
        Quitting::NotAllowed => answer(NOT_ALLOWED, 0, false),
        Quitting::NoMemory => answer(NO_MEMORY, 0, false),
    }
}

/// A message that was taken, as C has it.
fn taken(post: &Post, number: u64, time: u64) -> MqNext
    ensures { result ≡ record { message = fields_of post.now; number = number; time = time; kind = taken_kind } }
{
    MqNext {
        message: MqMessage::of(post),
        number,
        time,
        kind: TAKEN,
    }
}

/// An item that was dropped, as C has it.
fn shown_item(item: &Item) -> MqNext
    ensures { result ≡ shown_dropped item.now }
{
    match item {
        Item::Post { number, post } => taken(post, *number, 0),
        Item::Barrier { token, when } => look(BARRIER, *token, *when),
    }
}

/// What was dropped first, as C has it; its node is kept.
pub(crate) fn shown_dropped(node: Option<MsgNode<NoClaim>>, spares: &mut Spares) -> MqNext
    ensures shown { MatchOption node (result ≡ look_as nothing_kind 0 0) (λ m. result ≡ shown_dropped m.item) }
    ensures blocks { Uses 0 spares.old spares.new }
{
    let Some(node) = node else {
        return nothing();
    };
    let answer = shown_item(&node.item().item());
    spares.keep(node);
    answer
}

/// The answer, and what an end dropped joins what was dropped before; the node of a message that was taken is kept.
pub(crate) fn shown_next(
    nexted: Nexted<NoClaim>,
    dropped: &mut MsgList<NoClaim>,
    spares: &mut Spares,
) -> MqNext
    ensures shown { result ≡ shown_next nexted }
    ensures dropped { dropped.new ≡ joined dropped.old (next_drops nexted) }
    ensures blocks { Uses 0 spares.old spares.new }
{
    match nexted {
        Nexted::Taken { number, now, node } => {
            let answer = taken(&node.item().as_post(), number, now);
            spares.keep(node);
            answer
        }
        Nexted::Idle => look(IDLE, 0, 0),
        Nexted::Wait { until: Some(until) } => look(WAIT, 0, until),
        Nexted::Wait { until: None } => look(WAIT_FOREVER, 0, 0),
        Nexted::End(list) => {
            let count = list.len() as u64;
            join(dropped, list);
            look(END, count, 0)
        }
        Nexted::Over => look(OVER, 0, 0),
    }
}
