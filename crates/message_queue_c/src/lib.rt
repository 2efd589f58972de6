//! A message queue for C, under the caller's own lock and with the caller's own wait: `message_queue.h` says how each call is made,
//! and looks at pointers before one.
#![tactic(auto)]

ghost use Rattle.std.specs.Prelude.{◌≡◌, ◌||◌, true, false, MatchOption, length};
ghost use Rattle.queue_state.specs.Queue.{has_match, time_of};
ghost use Rattle.message_queue_c.specs.Blocks.{Uses};
ghost use Rattle.message_queue_c.specs.Handed.{inside, IsFreed};
ghost use Rattle.message_queue_c.specs.Contents.{Does, DropsNone, Closes, Pops, Reserves, just_opened, nothing_in};
ghost use Rattle.message_queue_c.specs.Messages.{filter_by};
ghost use Rattle.message_queue_c.specs.Shown.{PostShown, BarrierShown, GoneShown, TakingShown, QuitShown, NextShown, IsNotOpen, HasNotOpen};

mod answers;
mod calls;
mod drops;
mod handle;
mod hold;
mod kept;
mod message;
mod spares;

use crate::answers::{not_open, not_open_look, nothing};
pub use answers::{MqAnswer, MqNext};
pub use handle::MqQueue;
pub use message::{MqFilter, MqMessage};
use std::alloc::Global;

/// Opens a handle behind which nothing stands for a queue in which nothing has happened. False, and nothing changes, where
/// something stands behind it or where there is no memory.
#[unsafe(no_mangle)]
pub extern "C" fn msgq_core_open(alloc: Global, queue: &mut MqQueue) -> bool
    ensures opened { (result ≡ true) → (inside queue.old ≡ nothing_in) × (inside queue.new ≡ just_opened) }
    ensures refused { (result ≡ false) → inside queue.new ≡ inside queue.old }
    ensures live { queue.new.live ≡ (queue.old.live || result) }
{
    if let Some(kept) = queue.take() {
        queue.put(kept);
        return false;
    }
    match hold::open(alloc) {
        Ok(kept) => {
            queue.put(kept);
            true
        }
        Err(_) => false,
    }
}

/// Closes the queue, and answers how many messages and barriers wait to be handed out, those that stood in it behind the rest.
/// Where no queue is open it lets go of what was not handed out.
#[unsafe(no_mangle)]
pub extern "C" fn msgq_core_close(alloc: Global, queue: &mut MqQueue) -> MqAnswer
    ensures closed { Closes (inside queue.old) (inside queue.new) result }
    ensures freed { IsFreed queue.new }
{
    let Some(mut kept) = queue.take() else {
        return not_open();
    };
    let answer = kept.get_mut().close(alloc);
    queue.put_or_free(alloc, kept);
    answer
}

/// Posts a message for the time in it, or at the front where that is 0.
#[unsafe(no_mangle)]
pub extern "C" fn msgq_core_post(
    alloc: Global,
    queue: &mut MqQueue,
    message: &MqMessage,
) -> MqAnswer
    ensures done { Does (inside queue.old) (inside queue.new) (IsNotOpen result) (DropsNone (λ x y. PostShown x message.now result y)) }
    ensures blocks { Uses 1 (inside queue.old).blocks (inside queue.new).blocks }
    ensures live { queue.new.live ≡ queue.old.live }
{
    let Some(mut kept) = queue.take() else {
        return not_open();
    };
    let answer = kept.get_mut().post(alloc, message);
    queue.put(kept);
    answer
}

/// Posts a message at the front, whatever time stands in it.
#[unsafe(no_mangle)]
pub extern "C" fn msgq_core_post_at_front(
    alloc: Global,
    queue: &mut MqQueue,
    message: &MqMessage,
) -> MqAnswer
    ensures done { Does (inside queue.old) (inside queue.new) (IsNotOpen result) (DropsNone (λ x y. PostShown x (record message.now { when = 0 }) result y)) }
    ensures blocks { Uses 1 (inside queue.old).blocks (inside queue.new).blocks }
    ensures live { queue.new.live ≡ queue.old.live }
{
    let mut front = *message;
    front.when = 0;
    let Some(mut kept) = queue.take() else {
        return not_open();
    };
    let answer = kept.get_mut().post(alloc, &front);
    queue.put(kept);
    answer
}

/// Posts a barrier at this moment, in milliseconds, and answers its token.
#[unsafe(no_mangle)]
pub extern "C" fn msgq_core_barrier(alloc: Global, queue: &mut MqQueue, now: u64) -> MqAnswer
    ensures done { Does (inside queue.old) (inside queue.new) (IsNotOpen result) (DropsNone (λ x y. BarrierShown x now result y)) }
    ensures blocks { Uses 1 (inside queue.old).blocks (inside queue.new).blocks }
    ensures live { queue.new.live ≡ queue.old.live }
{
    let Some(mut kept) = queue.take() else {
        return not_open();
    };
    let answer = kept.get_mut().post_barrier(alloc, now);
    queue.put(kept);
    answer
}

/// Removes the barrier of this token.
#[unsafe(no_mangle)]
pub extern "C" fn msgq_core_remove_barrier(queue: &mut MqQueue, token: u64) -> MqAnswer
    ensures done { Does (inside queue.old) (inside queue.new) (IsNotOpen result) (DropsNone (λ x y. GoneShown x token result y)) }
    ensures blocks { Uses 0 (inside queue.old).blocks (inside queue.new).blocks }
    ensures live { queue.new.live ≡ queue.old.live }
{
    let Some(mut kept) = queue.take() else {
        return not_open();
    };
    let answer = kept.get_mut().remove_barrier(token);
    queue.put(kept);
    answer
}

/// Removes the messages that the filter names, which wait to be handed out then, and answers how many.
#[unsafe(no_mangle)]
pub extern "C" fn msgq_core_remove(queue: &mut MqQueue, filter: &MqFilter) -> MqAnswer
    ensures done { Does (inside queue.old) (inside queue.new) (IsNotOpen result) (λ x y ds es. TakingShown x filter.now result y ds es) }
    ensures blocks { Uses 0 (inside queue.old).blocks (inside queue.new).blocks }
    ensures live { queue.new.live ≡ queue.old.live }
{
    let Some(mut kept) = queue.take() else {
        return not_open();
    };
    let answer = kept.get_mut().remove(filter);
    queue.put(kept);
    answer
}

/// Whether a message stands in the queue that the filter names. False where no queue is open.
#[unsafe(no_mangle)]
pub extern "C" fn msgq_core_has(queue: &mut MqQueue, filter: &MqFilter) -> bool
    ensures found { MatchOption (inside queue.old).queue (result ≡ false) (λ x. result ≡ has_match x (filter_by filter.now)) }
    ensures same { inside queue.new ≡ inside queue.old }
    ensures live { queue.new.live ≡ queue.old.live }
{
    let Some(mut kept) = queue.take() else {
        return false;
    };
    let answer = kept.get_mut().has(filter);
    queue.put(kept);
    answer
}

/// How many messages and barriers stand in the queue. 0 where no queue is open.
#[unsafe(no_mangle)]
pub extern "C" fn msgq_core_live(queue: &mut MqQueue) -> u64
    ensures counted { MatchOption (inside queue.old).queue (result ≡ 0) (λ x. result ≡ length x.messages) }
    ensures same { inside queue.new ≡ inside queue.old }
    ensures live { queue.new.live ≡ queue.old.live }
{
    let Some(mut kept) = queue.take() else {
        return 0;
    };
    let answer = kept.get_mut().live();
    queue.put(kept);
    answer
}

/// The moment that the queue has come to, in milliseconds: that of the last message that was taken, barrier, quit or end, or a later
/// one before it. 0 where no queue is open.
#[unsafe(no_mangle)]
pub extern "C" fn msgq_core_time(queue: &mut MqQueue) -> u64
    ensures told { MatchOption (inside queue.old).queue (result ≡ 0) (λ x. result ≡ time_of x) }
    ensures same { inside queue.new ≡ inside queue.old }
    ensures live { queue.new.live ≡ queue.old.live }
{
    let Some(mut kept) = queue.take() else {
        return 0;
    };
    let answer = kept.get_mut().time();
    queue.put(kept);
    answer
}

/// Takes memory for so many messages and barriers at once, and keeps from then on the blocks of those that go, up to so many, for
/// those that come. Nothing else changes, also where there is not so much memory. DONE is answered only where so many are kept.
#[unsafe(no_mangle)]
pub extern "C" fn msgq_core_reserve(alloc: Global, queue: &mut MqQueue, count: u64) -> MqAnswer
    ensures reserved { Reserves (inside queue.old) count result (inside queue.new) }
    ensures live { queue.new.live ≡ queue.old.live }
{
    let Some(mut kept) = queue.take() else {
        return not_open();
    };
    let answer = kept.get_mut().reserve(alloc, count);
    queue.put(kept);
    answer
}

/// The number of this interface, which changes where a struct of it does.
#[unsafe(no_mangle)]
pub extern "C" fn msgq_core_interface() -> u32
    ensures { result ≡ 1 }
{
    1
}

/// Looks for the first message that is due at `now`, in milliseconds. What an end drops waits to be handed out.
#[unsafe(no_mangle)]
pub extern "C" fn msgq_core_next(queue: &mut MqQueue, now: u64, idle_owed: bool) -> MqNext
    ensures done { Does (inside queue.old) (inside queue.new) (HasNotOpen result) (λ x y ds es. NextShown x now idle_owed result y ds es) }
    ensures blocks { Uses 0 (inside queue.old).blocks (inside queue.new).blocks }
    ensures live { queue.new.live ≡ queue.old.live }
{
    let Some(mut kept) = queue.take() else {
        return not_open_look();
    };
    let answer = kept.get_mut().next(now, idle_owed);
    queue.put(kept);
    answer
}

/// Quits, and answers how many messages and barriers it dropped, which wait to be handed out then: all, or safely those that are
/// due later than `now`, in milliseconds.
#[unsafe(no_mangle)]
pub extern "C" fn msgq_core_quit(queue: &mut MqQueue, safe: bool, now: u64) -> MqAnswer
    ensures done { Does (inside queue.old) (inside queue.new) (IsNotOpen result) (λ x y ds es. QuitShown x safe now result y ds es) }
    ensures blocks { Uses 0 (inside queue.old).blocks (inside queue.new).blocks }
    ensures live { queue.new.live ≡ queue.old.live }
{
    let Some(mut kept) = queue.take() else {
        return not_open();
    };
    let answer = kept.get_mut().quit(safe, now);
    queue.put(kept);
    answer
}

/// Hands out the first of the messages and barriers that were dropped, also once the queue is closed.
#[unsafe(no_mangle)]
pub extern "C" fn msgq_core_next_dropped(alloc: Global, queue: &mut MqQueue) -> MqNext
    ensures handed { Pops (inside queue.old) (inside queue.new) result }
    ensures blocks { Uses 0 (inside queue.old).blocks (inside queue.new).blocks }
    ensures freed { IsFreed queue.new }
{
    let Some(mut kept) = queue.take() else {
        return nothing();
    };
    let answer = kept.get_mut().next_dropped();
    queue.put_or_free(alloc, kept);
    answer
}
