// What a poster has, and the two ends of a turn.
ghost use Rattle.std.specs.Prelude.{◌≡◌, ◌+◌, false, length, Some};
ghost use Rattle.queue_state.specs.Queue.{IsSound};
ghost use Rattle.shared_queue.specs.Desk.{IsIdle, Began, MayEnd, Ended, MayHandOver, HandedOver};
ghost use Rattle.shared_queue.specs.Rings.{LeavesUnwoken};

use crate::on_heap::OnHeap;
use crate::owing::{Owing, Wakes};
use crate::queue::SharedQueue;
use crate::view::View;
use atomic_table::Seat;
use message_slot::Claim;
use queue_state::{QueueState, Recorder};
use std::sync::Wait;

/// A seat with one sender number, and three numbers that its view has.
#[derive(Drop)]
pub struct Desk<S, H, K> {
    pub(crate) seat: Seat<Option<OnHeap<S>>, View<S, H, K>>,
    pub(crate) sender: u32,
    /// How many entries it has made.
    pub(crate) made: u64,
    /// How long the beginning of the history is that it has seen.
    pub(crate) seen: u64,
    /// What it read last on the bell.
    pub(crate) heard: u64,
}

impl<K: Claim, E: Recorder> Desk<QueueState<K, E>, K::Home, K> {
    // Waits for the turn, and takes the state.
    pub(crate) fn begin<R: Wait>(
        &mut self,
        rt: &R,
        queue: &SharedQueue<K, E>,
    ) -> OnHeap<QueueState<K, E>>
        requires queue { (self.old.seat.table_id ≡ queue.now.table) × (self.old.seat.me.0.constants ≡ Some queue.now.constants) }
        requires idle { IsIdle self.old }
        ensures { Began queue.now.constants self.old self.new result }
    {
        let state = queue.take(rt, &mut self.seat);
        self.seen = length(&state);
        state
    }

    // Gives the state back behind a call that woke nobody, with at most one more entry.
    pub(crate) fn end(&mut self, queue: &SharedQueue<K, E>, state: OnHeap<QueueState<K, E>>)
        requires table { self.old.seat.table_id ≡ queue.now.table }
        requires turn { MayEnd queue.now.constants self.old state }
        requires quiet { LeavesUnwoken self.old state }
        ensures { Ended self.old self.new state }
    {
        self.give_back(queue, state);
    }

    // Gives the state back, and keeps the answer of the call until it is settled. The looper was woken only where that says so.
    pub(crate) fn end_owing<A: Wakes>(
        &mut self,
        queue: &SharedQueue<K, E>,
        state: OnHeap<QueueState<K, E>>,
        answer: A,
    ) -> Owing<A>
        requires table { self.old.seat.table_id ≡ queue.now.table }
        requires turn { MayEnd queue.now.constants self.old state }
        requires quiet { A.says answer ≡ false → LeavesUnwoken self.old state }
        ensures ended { Ended self.old self.new state }
        ensures answer { result ≡ answer }
    {
        self.give_back(queue, state);
        Owing::of(answer)
    }

    fn give_back(&mut self, queue: &SharedQueue<K, E>, state: OnHeap<QueueState<K, E>>)
        requires table { self.old.seat.table_id ≡ queue.now.table }
        requires turn { MayEnd queue.now.constants self.old state }
        ensures { Ended self.old self.new state }
    {
        let seen = length(&state);
        queue.give(&mut self.seat, state);
        self.made += seen - self.seen;
        self.seen = seen;
    }

    // Gives the state back sealed, with no more entry.
    pub(crate) fn end_sealed(&mut self, queue: &SharedQueue<K, E>, state: OnHeap<QueueState<K, E>>)
        requires table { self.old.seat.table_id ≡ queue.now.table }
        requires turn { MayHandOver queue.now.constants self.old state }
        ensures { HandedOver self.old self.new state }
    {
        self.seen = length(&state);
        queue.hand(&mut self.seat, state);
    }
}

// How long the whole history is.
fn length<K: Claim, E: Recorder>(state: &OnHeap<QueueState<K, E>>) -> u64
    ensures length { result ≡ state.now.start.length + length state.now.entries }
    ensures sound { IsSound state.now }
{
    state.value().history_length()
}
