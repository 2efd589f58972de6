// How a queue is made, and how it ends.
ghost use Rattle.std.specs.Prelude.{◌≡◌, ◌+◌, ◌<◌, [], All, length, IfOk};
ghost use Rattle.message_slot.specs.Letter.{IsAtHome};
ghost use Rattle.shared_queue.specs.Constants.{constants_of};
ghost use Rattle.shared_queue.specs.Turn.{IsFreshState, opening_view};
ghost use Rattle.shared_queue.specs.Known.{Rests, IsOf};
ghost use Rattle.shared_queue.specs.Ends.{undealt, IsNewPoster, AreNew, AreInOrder, AreAllPosters, TakenIn, Gathered};
ghost use Rattle.shared_queue.specs.Ends.{IsLeftBy, AreLeftAsAccepted, IsLast, IsWholeEnd, KeepsConstants, HaveSealed};

use crate::on_heap::OnHeap;
use crate::poster::Poster;
use crate::queue::{Place, SharedQueue};
use crate::rings::Rings;
use crate::rule::{Both, Deal, Learn, Sit};
use crate::traits::Traits;
use crate::view::QueueKey;
use atomic_table::{Refused, Table};
use loop_model::{NoMemory, QueueRecord, Segment, Sequence};
use message_slot::Claim;
use queue_state::{Kept, QueueState, Recorder};
use std::alloc::Global;
use std::snapshot::Snapshot;
use when_queue::MsgList;

/// What is left of a queue.
#[derive(Drop)]
pub struct Retired<K: Claim> {
    /// Its history, with what stayed the same.
    pub kept: QueueRecord,
    /// The messages that still stood in it, in order.
    pub left: MsgList<K>,
}

impl<K: Claim, E: Recorder> SharedQueue<K, E> {
    /// The queue of a looper, in which nothing has happened, and the posters of the senders 0 to `senders` - 1, in order. There
    /// is at least one. Its messages are of this home; on `main` it may not quit, and in lockstep its time moves by `advance`
    /// alone. NoMemory where it found none. Where the entries are not to be kept it is `SharedQueue::<K, Unkept>::make`. A rule of
    /// this project's profile.
    pub fn make(
        alloc: Global,
        home: K::Home,
        looper: u32,
        main: bool,
        lockstep: bool,
        senders: u32,
    ) -> Result<(SharedQueue<K, E>, Vec<Poster<K, E>>), NoMemory>
        requires { 0 < senders }
        ensures constants { IfOk result (λ r. r.0.constants
            ≡ record { home = home; looper = looper; setting = record { main = main; lockstep = lockstep; senders = senders } }) }
        ensures posters { IfOk result (λ r. (length r.1.items ≡ senders) × AreNew r.0 r.1.items) }
    {
        let traits = Traits {
            looper,
            main,
            lockstep,
            senders,
        };
        let named = Snapshot::of(&home);
        let state = QueueState::new(alloc, home, main, lockstep, senders)?;
        let state = OnHeap::new(alloc, state)?;
        let (queue, seat) = SharedQueue::open(alloc, named, traits, state)?;
        let posters = queue.deal_all(alloc, seat, senders)?;
        Ok((queue, posters))
    }

    fn deal_all(
        &self,
        alloc: Global,
        mut seat: Place<K, E>,
        senders: u32,
    ) -> Result<Vec<Poster<K, E>>, NoMemory>
        requires { (seat.table_id ≡ self.now.table) × (senders ≡ self.now.constants.setting.senders) × (seat.me ≡ (undealt self.now.constants 0, [])) }
        ensures { IfOk result (λ v. (length v.items ≡ senders) × AreNew self.now v.items) }
    {
        let mut posters = Vec::new(alloc);
        for sender in 0..senders {
            let poster = self.deal(&mut seat, sender);
            if posters.push(poster).is_err() {
                return Err(NoMemory);
            }
        }
        Ok(posters)
    }

    // The next sender number moves to a seat of its own.
    fn deal(&self, seat: &mut Place<K, E>, sender: u32) -> Poster<K, E>
        requires table { seat.old.table_id ≡ self.now.table }
        requires sender { sender < self.now.constants.setting.senders }
        requires seat { seat.old.me ≡ (undealt self.now.constants sender, []) }
        ensures seat { (seat.new.table_id ≡ seat.old.table_id) × (seat.new.me ≡ (undealt self.now.constants (sender + 1), [])) }
        ensures poster { IsOf result self.now × (result.sender ≡ sender) × IsNewPoster result }
    {
        Poster::of(self.table.shared.split_seat::<Deal>(seat), sender)
    }

    // The first seat has all sender numbers.
    fn open(
        alloc: Global,
        home: Snapshot<K::Home>,
        traits: Traits,
        state: OnHeap<QueueState<K, E>>,
    ) -> Result<(SharedQueue<K, E>, Place<K, E>), NoMemory>
        requires state { IsFreshState (constants_of home.value traits) state }
        requires senders { 0 < traits.senders }
        ensures constants { IfOk result (λ r. r.0.constants ≡ constants_of home.value traits) }
        ensures seat { IfOk result (λ r. (r.1.table_id ≡ r.0.table) × (r.1.me ≡ (opening_view (constants_of home.value traits), []))) }
    {
        let key = QueueKey { home, traits };
        let Ok(mut slots) = Vec::with_capacity(alloc, 1) else {
            return Err(NoMemory);
        };
        slots.push_reserved(Some(state));
        match Table::new(alloc, &[0, 0], slots, &key) {
            Ok((table, seat)) => {
                let rings = Rings::new();
                Ok((
                    SharedQueue {
                        table,
                        traits,
                        rings,
                    },
                    seat,
                ))
            }
            Err(Refused { slots: _ }) => Err(NoMemory),
        }
    }

    /// Ends the sharing, and hands out the messages that still stood in the queue, in order; what it recorded is let go. It takes all
    /// posters, in the order of their senders. It takes no memory. A rule of this project's profile.
    pub fn close(self, posters: Vec<Poster<K, E>>) -> MsgList<K>
        requires posters { AreAllPosters self posters.items }
        ensures left { IsLeftBy self.constants.setting posters.items result }
        ensures claims { AreLeftAsAccepted posters.items result }
        ensures home { All (IsAtHome K.home self.constants.home) result }
    {
        let state = self.end(posters);
        state.into_items()
    }

    // The state, once all posters came back.
    fn end(self, posters: Vec<Poster<K, E>>) -> QueueState<K, E>
        requires posters { AreAllPosters self posters.items }
        ensures { IsLast self.constants posters.items result }
    {
        let seat = self.gather(posters);
        let SharedQueue {
            table,
            traits: _,
            rings: _,
        } = self;
        let mut closed = table.close_with(seat);
        let Some(state) = closed.take(0) else {
            unreachable!()
        };
        closed.free();
        state.into_value()
    }

    // One seat that has what all posters had.
    fn gather(&self, posters: Vec<Poster<K, E>>) -> Place<K, E>
        requires { AreInOrder self.now posters.items }
        ensures { (result.table_id ≡ self.now.table) × Gathered self.now posters.items result.me }
    {
        let mut seat = self.table.shared.load_new_seat::<Sit>(0).1;
        for poster in posters {
            self.take_in(&mut seat, poster);
        }
        seat
    }

    fn take_in(&self, seat: &mut Place<K, E>, poster: Poster<K, E>)
        requires seat { (seat.old.table_id ≡ self.now.table) × Rests self.now.constants seat.old.me }
        requires poster { IsOf poster self.now }
        ensures { (seat.new.table_id ≡ seat.old.table_id) × Rests self.now.constants seat.new.me × TakenIn seat.old.me.0 poster seat.new.me.0 }
    {
        self.table
            .shared
            .join_seat::<Both>(seat, poster.into_seat());
        self.table.shared.load::<Learn>(seat, 0);
    }
}

impl<K: Claim> SharedQueue<K, Kept> {
    /// Ends the sharing, and answers the whole history with what stayed the same, and the messages that still stood in the queue.
    /// It takes all posters, in the order of their senders, and the parts of the history that the last of them handed out. At
    /// NoMemory, where the list of parts found none for the last, all that it takes is dropped. A rule of this project's profile.
    pub fn retire(
        self,
        posters: Vec<Poster<K>>,
        sealed: Vec<Segment>,
    ) -> Result<Retired<K>, NoMemory>
        requires posters { AreAllPosters self posters.items }
        requires sealed { HaveSealed posters.items sealed.items }
        ensures kept { IfOk result (λ r. KeepsConstants self.constants r.kept) }
        ensures end { IfOk result (λ r. IsWholeEnd K.home self.constants posters.items sealed.items r.kept.segments r.left) }
    {
        let traits = self.traits;
        let (segments, left) = self.end_with(posters, sealed)?;
        Ok(Retired {
            kept: traits.with_history(Sequence::from_vec(segments)),
            left,
        })
    }

    // All parts of the history, and the messages that are left.
    fn end_with(
        self,
        posters: Vec<Poster<K>>,
        mut sealed: Vec<Segment>,
    ) -> Result<(Vec<Segment>, MsgList<K>), NoMemory>
        requires posters { AreAllPosters self posters.items }
        requires sealed { HaveSealed posters.items sealed.items }
        ensures { IfOk result (λ r. IsWholeEnd K.home self.constants posters.items sealed.items r.0.items r.1) }
    {
        let (last, left) = self.end(posters).into_parts();
        let Ok(()) = sealed.push(last) else {
            return Err(NoMemory)
        };
        Ok((sealed, left))
    }
}
