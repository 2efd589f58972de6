// The table of a choreographer, and the two steps of a turn.
ghost use Rattle.std.specs.Prelude.{◌≡◌, ◌<◌, true, [], ◌∷◌, length, Some, None};
ghost use Rattle.choreographer.specs.Turn.{taking, giving};
ghost use Rattle.choreographer.specs.Found.{HasFound, MayLeave};
ghost use Rattle.choreographer.specs.Known.{SharedFrames, Rests, HasOwn};

use crate::rule::{Give, OneTurn, Take};
use crate::state::StampedFrames;
use crate::view::{Constants, View};
use atomic_table::{Seat, Table};
use std::alloc::Global;
use std::marker::Model;
use std::sync::Wait;
use std::thread::yield_now;

pub(crate) type Board = Table<Option<StampedFrames>, View, Constants, OneTurn, Global>;

pub(crate) type Place = Seat<Option<StampedFrames>, View>;

/// A frame state that passes call in turns, after AOSP's `Choreographer`. Moments are nanoseconds, delays milliseconds.
#[derive(Drop)]
pub struct Choreographer {
    pub(crate) table: Board,
    pub(crate) phases: u32,
}

impl Model for Choreographer {
    ghost Value = { SharedFrames };

    ghost view = { λ s. record { table = s.table.shared.table_id; constants = s.table.shared.key } };

    ghost invariant = { λ s. (s.table.shared.table_id.words ≡ 1) × (s.table.shared.table_id.slots ≡ 1)
        × (0 < s.table.shared.key.passes) × (0 < s.table.shared.key.phases) × (s.phases ≡ s.table.shared.key.phases) };
}

impl Choreographer {
    // Waits for the turn, and takes the state out.
    pub(crate) fn take<R: Wait>(&self, rt: &R, seat: &mut Place) -> StampedFrames
        requires table { seat.old.table_id ≡ self.now.table }
        requires rests { Rests self.now.constants seat.old.me × (length seat.old.me.0.passes ≡ 1) }
        requires own { HasOwn seat.old.me.0 }
        ensures seat { (seat.new.table_id ≡ seat.old.table_id) × (seat.new.id ≡ seat.old.id) }
        ensures taken { seat.new.me ≡ (taking seat.old.me.0 result seat.new.me.0.heard, (0, None) ∷ []) }
        ensures found { HasFound self.now.constants seat.old.me.0 result seat.new.me.0.heard }
        ensures own { HasOwn seat.new.me.0 }
    {
        for _ in rt.forever() {
            if self.table.shared.compare_exchange::<Take>(seat, 0, 0, 1) == 0 {
                return self.table.shared.exchange(seat, 0, None).unwrap();
            }
            yield_now();
        }
        unreachable!()
    }

    // Puts the state back, and gives the turn up.
    pub(crate) fn give(&self, seat: &mut Place, state: StampedFrames)
        requires table { seat.old.table_id ≡ self.now.table }
        requires turn { (seat.old.me.0.constants ≡ Some self.now.constants) × (seat.old.me.0.has_turn ≡ true) × (seat.old.me.1 ≡ (0, None) ∷ []) }
        requires leaves { MayLeave self.now.constants seat.old.me.0 state }
        requires own { HasOwn seat.old.me.0 }
        ensures { (seat.new.table_id ≡ seat.old.table_id) × (seat.new.id ≡ seat.old.id) × (seat.new.me ≡ (giving seat.old.me.0 state, []))
            × HasOwn seat.new.me.0 }
    {
        drop(self.table.shared.exchange(seat, 0, Some(state)));
        self.table.shared.store::<Give>(seat, 0, 0);
    }
}
