// What a call owes to a waiting looper: its answer is handed out behind the ring that it calls for.
ghost use Rattle.std.specs.Prelude.{◌≡◌, Bool, true, IsSome};
ghost use Rattle.shared_queue.specs.Rings.{wakes_by_post, wakes_by_removal, wakes_by_quit};

use crate::rings::Rung;
use message_slot::Claim;
use queue_state::{BarrierGone, Posted, Quitting};
use std::marker::Model;

/// An answer that may say that a waiting looper has to look again.
pub(crate) trait Wakes {
    ghost says: { Self → Bool };

    fn wakes(&self) -> bool
        ensures { result ≡ says self.now };
}

impl<K: Claim> Wakes for Posted<K> {
    ghost says = { wakes_by_post };

    fn wakes(&self) -> bool {
        match self {
            Posted::Accepted { number: _, wake } => *wake,
            Posted::Refused { .. } => false,
            Posted::NoMemory(_) => false,
        }
    }
}

impl<K: Claim> Wakes for BarrierGone<K> {
    ghost says = { wakes_by_removal };

    fn wakes(&self) -> bool {
        match self {
            BarrierGone::Unbarriered { node: _, wake } => *wake,
            BarrierGone::NotPosted => false,
            BarrierGone::NoMemory => false,
        }
    }
}

impl<K: Claim> Wakes for Quitting<K> {
    ghost says = { wakes_by_quit };

    fn wakes(&self) -> bool {
        match self {
            Quitting::Done(_) => true,
            Quitting::AlreadyQuit { place: _ } => false,
            Quitting::NotAllowed => false,
            Quitting::NoMemory => false,
        }
    }
}

/// What a nudge answers: the bell's word was raised, which always wakes.
#[derive(Drop)]
pub(crate) struct Nudge;

impl Wakes for Nudge {
    ghost says = { λ _. true };

    fn wakes(&self) -> bool {
        true
    }
}

/// The answer of a call behind its turn, for which a ring may be owed. It can't be dropped, and
/// `hand_out` alone gives the answer.
pub(crate) struct Owing<A> {
    answer: A,
}

impl<A> Model for Owing<A> {
    ghost Value = { A };

    ghost view = { λ o. o.answer };
}

impl<A: Wakes> Owing<A> {
    // Keeps the answer until it is settled.
    pub(crate) fn of(answer: A) -> Owing<A>
        ensures { result ≡ answer }
    {
        Owing { answer }
    }

    pub(crate) fn wakes(&self) -> bool
        ensures { result ≡ A.says self.now }
    {
        self.answer.wakes()
    }

    // The answer; where it wakes, for a ring.
    pub(crate) fn hand_out(self, rung: Option<Rung>) -> A
        requires rung { A.says self ≡ true → IsSome rung }
        ensures { result ≡ self }
    {
        drop(rung);
        let Owing { answer } = self;
        answer
    }
}
