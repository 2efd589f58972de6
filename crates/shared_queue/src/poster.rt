// One sender's way to a queue.
ghost use Rattle.std.specs.Prelude.{◌≡◌, ◌+◌, false, [], ◌∷◌, length};
ghost use mathlib.Core.List.{IsPrefix};
ghost use Rattle.loop_model.specs.Lists.{longer};
ghost use Rattle.shared_queue.specs.Desk.{IsIdle};
ghost use Rattle.shared_queue.specs.Known.{Known, KeepsNone, IsOf, IsSamePoster, HasOnlyHeard, own_count};

use crate::desk::Desk;
use crate::owing::{Nudge, Owing};
use crate::queue::{Place, SharedQueue};
use crate::rule::{Both, Learn, Listen, Note, Ring};
use message_slot::Claim;
use queue_state::{Kept, QueueState, Recorder};
use std::marker::Model;
use std::sync::Wait;

/// A seat at the table of one queue, with one sender number.
#[derive(Drop)]
pub struct Poster<K: Claim, E: Recorder = Kept> {
    pub(crate) desk: Desk<QueueState<K, E>, K::Home, K>,
}

impl<K: Claim, E: Recorder> Model for Poster<K, E> {
    ghost Value = { Known K.Home K };

    ghost view = { λ p. record { table = p.desk.seat.table_id; sender = p.desk.sender; view = p.desk.seat.me.0 } };

    ghost invariant = { λ p. IsIdle p.desk };
}

impl<K: Claim, E: Recorder> Poster<K, E> {
    // A poster that has done nothing.
    pub(crate) fn of(seat: Place<K, E>, sender: u32) -> Poster<K, E>
        requires rests { (seat.me.0.has_turn ≡ false) × (seat.me.1 ≡ []) }
        requires new { (seat.me.0.senders ≡ (sender, 0) ∷ []) × (seat.me.0.seen ≡ []) × (seat.me.0.heard ≡ 0) × (seat.me.0.sealed ≡ []) }
        ensures { (result.table ≡ seat.table_id) × (result.sender ≡ sender) × (result.view ≡ seat.me.0) }
    {
        Poster {
            desk: Desk {
                seat,
                sender,
                made: 0,
                seen: 0,
                heard: 0,
            },
        }
    }

    pub(crate) fn into_seat(self) -> Place<K, E>
        ensures table { result.table_id ≡ self.table }
        ensures view { (result.me.0 ≡ self.view) × KeepsNone self }
        ensures rests { (result.me.0.has_turn ≡ false) × (result.me.1 ≡ []) }
        ensures senders { result.me.0.senders ≡ (self.sender, own_count self) ∷ [] }
    {
        let Poster { desk } = self;
        let Desk {
            seat,
            sender: _,
            made: _,
            seen: _,
            heard: _,
        } = desk;
        seat
    }

    /// Its number among the senders of the queue, counted from 0 (this project's profile).
    pub fn sender(&self) -> u32
        ensures { result ≡ self.now.sender }
    {
        self.desk.sender
    }

    /// How many entries of the history it has made (this project's profile).
    pub fn made(&self) -> u64
        ensures { result ≡ own_count self.now }
    {
        self.desk.made
    }

    /// How long the beginning of the history is that it has seen. All entries that it made stand there (this project's profile).
    pub fn seen(&self) -> u64
        ensures { result ≡ length self.now.view.seen }
    {
        self.desk.seen
    }

    /// Takes in what the other poster of this queue has seen. It takes no turn. A rule of this project's profile.
    pub fn hear(&mut self, queue: &SharedQueue<K, E>, other: &mut Poster<K, E>)
        requires { IsOf self.old queue.now × IsOf other.old queue.now }
        ensures seen { self.new.view.seen ≡ longer self.old.view.seen other.old.view.seen }
        ensures begins { IsPrefix self.old.view.seen self.new.view.seen × IsPrefix other.old.view.seen self.new.view.seen }
        ensures claims { self.new.view.claims ≡ longer self.old.view.claims other.old.view.claims }
        ensures claims_begin { IsPrefix self.old.view.claims self.new.view.claims × IsPrefix other.old.view.claims self.new.view.claims }
        ensures same { HasOnlyHeard self.old self.new }
        ensures listens { self.new.view.listens ≡ self.old.view.listens }
        ensures other { other.new ≡ other.old }
    {
        let note = queue.table.shared.split_seat::<Note>(&mut other.desk.seat);
        queue
            .table
            .shared
            .join_seat::<Both>(&mut self.desk.seat, note);
        queue.table.shared.load::<Learn>(&mut self.desk.seat, 0);
        self.desk.seen = self.desk.seen.max(other.desk.seen);
    }

    /// Rings the bell, for the looper of the queue, and wakes it where it waits (`nativeWake` of AOSP's `MessageQueue`). It
    /// takes no turn.
    pub fn nudge<R: Wait>(&mut self, rt: &R, queue: &SharedQueue<K, E>)
        requires { IsOf self.old queue.now }
        ensures rung { self.new.view.rung ≡ self.old.view.rung + 1 }
        ensures same { IsSamePoster self.old self.new × (self.new.view.seen ≡ self.old.view.seen) × (self.new.view.heard ≡ self.old.view.heard) }
        ensures listens { self.new.view.listens ≡ self.old.view.listens }
        ensures claims { self.new.view.claims ≡ self.old.view.claims }
    {
        let owing = self.raise(queue);
        queue.settle(rt, owing);
    }

    // Counts one ring more on the bell. A waiting looper hears of it once that is settled.
    fn raise(&mut self, queue: &SharedQueue<K, E>) -> Owing<Nudge>
        requires { IsOf self.old queue.now }
        ensures rung { self.new.view.rung ≡ self.old.view.rung + 1 }
        ensures same { IsSamePoster self.old self.new × (self.new.view.seen ≡ self.old.view.seen) × (self.new.view.heard ≡ self.old.view.heard) }
        ensures listens { self.new.view.listens ≡ self.old.view.listens }
        ensures claims { self.new.view.claims ≡ self.old.view.claims }
    {
        queue
            .table
            .shared
            .fetch_add::<Ring>(&mut self.desk.seat, 1, 1);
        Owing::of(Nudge)
    }

    // What it read last on the bell.
    pub(crate) fn heard(&self) -> u64
        ensures { result ≡ self.now.view.heard }
    {
        self.desk.heard
    }

    // Reads the bell.
    pub(crate) fn listen(&mut self, queue: &SharedQueue<K, E>) -> u64
        requires { IsOf self.old queue.now }
        ensures heard { (self.new.view.heard ≡ result) × (self.new.view.listens ≡ self.old.view.listens + 1) }
        ensures same { IsSamePoster self.old self.new × (self.new.view.seen ≡ self.old.view.seen) × (self.new.view.rung ≡ self.old.view.rung) }
        ensures claims { self.new.view.claims ≡ self.old.view.claims }
    {
        let bell = queue.table.shared.load::<Listen>(&mut self.desk.seat, 1);
        self.desk.heard = bell;
        bell
    }
}
