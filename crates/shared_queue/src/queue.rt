// The table of a queue, and the two steps of a turn.
ghost use Rattle.std.specs.Prelude.{◌≡◌, ◌<◌, true, [], ◌∷◌, length, Option, Some, None, MatchOption};
ghost use Rattle.shared_queue.specs.Constants.{IsFor, last_of, traits_setting};
ghost use Rattle.shared_queue.specs.Turn.{holds, giving, handing};
ghost use Rattle.shared_queue.specs.Plays.{MayGive, MayHand};
ghost use Rattle.shared_queue.specs.Known.{Shared, Rests};
ghost use Rattle.shared_queue.specs.Seats.{HasTakenTurn};

use crate::on_heap::OnHeap;
use crate::owing::{Owing, Wakes};
use crate::rings::Rings;
use crate::rule::{Give, Hand, OneTurn, Take};
use crate::traits::Traits;
use crate::view::{QueueKey, View};
use atomic_table::{Seat, Table};
use message_slot::Claim;
use queue_state::{Kept, QueueState, Recorder};
use std::alloc::Global;
use std::hint::spin_loop;
use std::marker::Model;
use std::sync::Wait;
use std::thread::yield_now;

/// How often the turn is tried for before another thread may run.
const TRIES: u32 = 64;

pub(crate) type Board<K, E> = Table<
    Option<OnHeap<QueueState<K, E>>>,
    View<QueueState<K, E>, <K as Claim>::Home, K>,
    QueueKey<<K as Claim>::Home>,
    OneTurn,
    Global,
>;

pub(crate) type Place<K, E> = Seat<
    Option<OnHeap<QueueState<K, E>>>,
    View<QueueState<K, E>, <K as Claim>::Home, K>,
>;

/// A message queue that posters call in turns. Its entries go where `E` says: they are kept in memory, and can be handed out, or
/// they are `Unkept`, and nothing grows with its history (this project's profile).
#[derive(Drop)]
pub struct SharedQueue<K: Claim, E: Recorder = Kept> {
    pub(crate) table: Board<K, E>,
    pub(crate) traits: Traits,
    pub(crate) rings: Rings,
}

impl<K: Claim, E: Recorder> Model for SharedQueue<K, E> {
    ghost Value = { Shared K.Home };

    ghost view = { λ s. record { table = s.table.shared.table_id; constants = s.table.shared.key } };

    ghost invariant = { λ s. (s.table.shared.table_id.words ≡ 2) × (s.table.shared.table_id.slots ≡ 1)
        × (s.traits.looper ≡ s.table.shared.key.looper) × (traits_setting s.traits ≡ s.table.shared.key.setting) × (0 < s.traits.senders) };
}

impl<K: Claim, E: Recorder> SharedQueue<K, E> {
    // Rings where the answer wakes, and hands it out.
    pub(crate) fn settle<R: Wait, A: Wakes>(&self, rt: &R, owing: Owing<A>) -> A
        ensures { result ≡ owing }
    {
        let rung = if owing.wakes() {
            Some(self.rings.ring(rt, &owing))
        } else {
            None
        };
        owing.hand_out(rung)
    }

    // Tries for the turn some times in a row, and takes the state out.
    fn try_take(&self, seat: &mut Place<K, E>) -> Option<OnHeap<QueueState<K, E>>>
        requires table { seat.old.table_id ≡ self.now.table }
        requires rests { Rests self.now.constants seat.old.me × (0 < length seat.old.me.0.senders) }
        ensures seat { (seat.new.table_id ≡ seat.old.table_id) × (seat.new.id ≡ seat.old.id) }
        ensures taken { MatchOption result (seat.new.me ≡ seat.old.me) (λ x. HasTakenTurn self.now.constants seat.old.me seat.new.me x) }
    {
        for _ in 0..TRIES {
            if self.table.shared.compare_exchange::<Take>(seat, 0, 0, 1) == 0 {
                return self.table.shared.exchange(seat, 0, None);
            }
            spin_loop();
        }
        None
    }

    // Waits for the turn, and takes the state out.
    pub(crate) fn take<R: Wait>(&self, rt: &R, seat: &mut Place<K, E>) -> OnHeap<QueueState<K, E>>
        requires table { seat.old.table_id ≡ self.now.table }
        requires rests { Rests self.now.constants seat.old.me × (0 < length seat.old.me.0.senders) }
        ensures seat { (seat.new.table_id ≡ seat.old.table_id) × (seat.new.id ≡ seat.old.id) }
        ensures taken { HasTakenTurn self.now.constants seat.old.me seat.new.me result }
    {
        for _ in rt.forever() {
            if let Some(state) = self.try_take(seat) {
                return state;
            }
            yield_now();
        }
        unreachable!()
    }

    // Puts the state back, and gives the turn up.
    pub(crate) fn give(&self, seat: &mut Place<K, E>, state: OnHeap<QueueState<K, E>>)
        requires table { seat.old.table_id ≡ self.now.table }
        requires turn { (seat.old.me.0.has_turn ≡ true) × (seat.old.me.1 ≡ (0, None) ∷ []) }
        requires state { IsFor self.now.constants state × MayGive seat.old.me.0 state }
        ensures { (seat.new.table_id ≡ seat.old.table_id) × (seat.new.id ≡ seat.old.id) × (seat.new.me ≡ (giving seat.old.me.0 state, [])) }
    {
        drop(self.table.shared.exchange(seat, 0, Some(state)));
        self.table.shared.store::<Give>(seat, 0, 0);
    }

    // Puts the state back sealed, and gives the turn up.
    pub(crate) fn hand(&self, seat: &mut Place<K, E>, state: OnHeap<QueueState<K, E>>)
        requires table { seat.old.table_id ≡ self.now.table }
        requires turn { (seat.old.me.0.has_turn ≡ true) × (seat.old.me.1 ≡ (0, None) ∷ []) }
        requires last { 0 < holds (last_of self.now.constants) seat.old.me.0 }
        requires state { IsFor self.now.constants state × MayHand seat.old.me.0 state }
        ensures { (seat.new.table_id ≡ seat.old.table_id) × (seat.new.id ≡ seat.old.id) × (seat.new.me ≡ (handing seat.old.me.0 state, [])) }
    {
        drop(self.table.shared.exchange(seat, 0, Some(state)));
        self.table.shared.store::<Hand>(seat, 0, 0);
    }
}
