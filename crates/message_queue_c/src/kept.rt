// What a handle that is not empty keeps: a queue, and the messages that its calls have dropped.
ghost use Rattle.std.specs.Prelude.{◌≡◌, true, false, [], Some, MatchOption, length};
ghost use Rattle.queue_state.specs.Queue.{has_match, time_of};
ghost use Rattle.message_queue_c.specs.Contents.{Does, DropsNone, Closes, Pops, Reserves, nothing_in, holds_nothing};
ghost use Rattle.message_queue_c.specs.Blocks.{no_blocks, Uses};
ghost use Rattle.message_queue_c.specs.Messages.{filter_by};
ghost use Rattle.message_queue_c.specs.Ours.{is_ours};
ghost use Rattle.message_queue_c.specs.Shown.{PostShown, BarrierShown, GoneShown, TakingShown, QuitShown, NextShown, IsNotOpen, HasNotOpen};

use crate::answers::{MqAnswer, MqNext, done, no_memory, not_open, not_open_look, shown_dropped};
use crate::calls;
use crate::drops::{emptied, join};
use crate::message::{MqFilter, MqMessage};
use crate::spares::Spares;
use message_list::NodeList;
use message_slot::NoClaim;
use queue_state::{QueueState, Unkept};
use std::alloc::Global;
use std::marker::Model;
use when_queue::MsgList;

/// The queue, until it is closed, the messages that its calls dropped and that were not handed out yet, and the blocks that are kept
/// for messages to come.
#[derive(Drop)]
pub struct Kept {
    queue: Option<QueueState<NoClaim, Unkept>>,
    dropped: MsgList<NoClaim>,
    spares: Spares,
}

impl Model for Kept {
    ghost use Rattle.message_queue_c.specs.Contents.{Contents, HasOurs};

    ghost Value = { Contents };

    ghost view = { λ k. record { queue = k.queue; dropped = k.dropped; blocks = k.spares } };

    ghost invariant = { λ k. HasOurs k.queue k.spares };
}

impl Kept {
    pub(crate) fn new(alloc: Global, queue: QueueState<NoClaim, Unkept>) -> Kept
        requires { is_ours queue }
        ensures { result ≡ record { queue = Some queue; dropped = []; blocks = no_blocks } }
    {
        Kept {
            queue: Some(queue),
            dropped: NodeList::empty(alloc),
            spares: Spares::none(alloc),
        }
    }

    pub(crate) fn post(&mut self, alloc: Global, message: &MqMessage) -> MqAnswer
        ensures done { Does self.old self.new (IsNotOpen result) (DropsNone (λ x y. PostShown x message.now result y)) }
        ensures blocks { Uses 1 self.old.blocks self.new.blocks }
    {
        match &mut self.queue {
            Some(queue) => calls::post(alloc, queue, &mut self.spares, message),
            None => not_open(),
        }
    }

    pub(crate) fn post_barrier(&mut self, alloc: Global, now: u64) -> MqAnswer
        ensures done { Does self.old self.new (IsNotOpen result) (DropsNone (λ x y. BarrierShown x now result y)) }
        ensures blocks { Uses 1 self.old.blocks self.new.blocks }
    {
        match &mut self.queue {
            Some(queue) => calls::post_barrier(alloc, queue, &mut self.spares, now),
            None => not_open(),
        }
    }

    pub(crate) fn remove_barrier(&mut self, token: u64) -> MqAnswer
        ensures done { Does self.old self.new (IsNotOpen result) (DropsNone (λ x y. GoneShown x token result y)) }
        ensures blocks { Uses 0 self.old.blocks self.new.blocks }
    {
        match &mut self.queue {
            Some(queue) => calls::remove_barrier(queue, &mut self.spares, token),
            None => not_open(),
        }
    }

    pub(crate) fn remove(&mut self, filter: &MqFilter) -> MqAnswer
        ensures done { Does self.old self.new (IsNotOpen result) (λ x y ds es. TakingShown x filter.now result y ds es) }
        ensures blocks { Uses 0 self.old.blocks self.new.blocks }
    {
        match &mut self.queue {
            Some(queue) => calls::remove(queue, &mut self.dropped, filter),
            None => not_open(),
        }
    }

    pub(crate) fn quit(&mut self, safe: bool, now: u64) -> MqAnswer
        ensures done { Does self.old self.new (IsNotOpen result) (λ x y ds es. QuitShown x safe now result y ds es) }
        ensures blocks { Uses 0 self.old.blocks self.new.blocks }
    {
        match &mut self.queue {
            Some(queue) => calls::quit(queue, &mut self.dropped, safe, now),
            None => not_open(),
        }
    }

    pub(crate) fn next(&mut self, now: u64, idle_owed: bool) -> MqNext
        ensures done { Does self.old self.new (HasNotOpen result) (λ x y ds es. NextShown x now idle_owed result y ds es) }
        ensures blocks { Uses 0 self.old.blocks self.new.blocks }
    {
        match &mut self.queue {
            Some(queue) => calls::next(queue, &mut self.dropped, &mut self.spares, now, idle_owed),
            None => not_open_look(),
        }
    }

    pub(crate) fn has(&self, filter: &MqFilter) -> bool
        ensures { MatchOption self.now.queue (result ≡ false) (λ x. result ≡ has_match x (filter_by filter.now)) }
    {
        match &self.queue {
            Some(queue) => calls::has(queue, filter),
            None => false,
        }
    }

    /// How many messages and barriers stand in the queue.
    pub(crate) fn live(&self) -> u64
        ensures { MatchOption self.now.queue (result ≡ 0) (λ x. result ≡ length x.messages) }
    {
        match &self.queue {
            Some(queue) => queue.len() as u64,
            None => 0,
        }
    }

    /// The moment that the queue has come to.
    pub(crate) fn time(&self) -> u64
        ensures { MatchOption self.now.queue (result ≡ 0) (λ x. result ≡ time_of x) }
    {
        match &self.queue {
            Some(queue) => queue.time(),
            None => 0,
        }
    }

    /// Takes memory for so many messages, and keeps so many blocks of those that go.
    pub(crate) fn reserve(&mut self, alloc: Global, count: u64) -> MqAnswer
        ensures { Reserves self.old count result self.new }
    {
        if self.queue.is_none() {
            return not_open();
        }
        if self.spares.reserve(alloc, count) {
            return done(0);
        }
        no_memory()
    }

    /// Closes the queue, and counts the messages that are to be handed out. Where there is no queue it lets go of those.
    pub(crate) fn close(&mut self, alloc: Global) -> MqAnswer
        ensures { Closes self.old self.new result }
    {
        match self.queue.take() {
            Some(queue) => {
                self.spares.free(alloc);
                join(&mut self.dropped, queue.into_items());
                done(self.dropped.len() as u64)
            }
            None => {
                emptied(alloc, &mut self.dropped);
                not_open()
            }
        }
    }

    pub(crate) fn next_dropped(&mut self) -> MqNext
        ensures done { Pops self.old self.new result }
        ensures blocks { Uses 0 self.old.blocks self.new.blocks }
    {
        shown_dropped(self.dropped.pop_front(), &mut self.spares)
    }

    /// Nothing is left in it.
    pub(crate) fn is_spent(&self) -> bool
        ensures spent { result ≡ holds_nothing self.now }
        ensures nothing { (result ≡ true) → self.now ≡ nothing_in }
    {
        let none = self.dropped.len() == 0;
        none & self.queue.is_none()
    }
}
