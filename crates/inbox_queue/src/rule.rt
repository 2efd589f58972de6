// The rule of an inbox's queue, and the names of its steps.
ghost use Rattle.std.specs.Prelude.{◌≡◌};
ghost use Rattle.inbox_queue.specs.Carried.{Carried, start, puts_more, admits_more, Foretells, Accounts, deals, dealt, takes_in, spent};

use crate::known::Known;
use crate::parcel::Parcel;
use crossbeam_queue::protocol::{Join, Lesson, Outcome, Protocol, Split};

/// What each sender put is what was admitted of it, and then what the queue holds of it.
pub struct Whole;

impl Protocol<Parcel, Known> for Whole {
    ghost holds = { Carried };

    ghost first = { start };
}

/// A sender puts a parcel.
pub(crate) struct Puts;

impl Outcome<Parcel, Known> for Puts {
    ghost then = { λ v x w. w ≡ puts_more v x };
}

/// The admitter takes a parcel out, or finds nothing.
pub(crate) struct Takes;

impl Outcome<Parcel, Known> for Takes {
    ghost then = { λ v x w. (w ≡ admits_more v x) × Foretells w };
}

impl Lesson<Parcel, Known> for Takes {
    ghost fact = { Accounts };
}

/// A new sender, with the next number.
pub(crate) struct Deal;

impl Split<Known> for Deal {
    ghost left = { deals };

    ghost right = { dealt };
}

/// The admitter takes in a sender.
pub(crate) struct TakeIn;

impl Join<Known> for TakeIn {
    ghost both = { takes_in };

    ghost spent = { spent };
}
