// The rule of the table, and the names of its steps.
ghost use Rattle.std.specs.Prelude.{[], take, drop};
ghost use Rattle.shared_queue.specs.Turn.{QueueTurn, opening_view, fresh, dealt, keeping, joined, gone};
ghost use Rattle.shared_queue.specs.Plays.{sat, took, gave, handed, learned, rang, listened};

use crate::on_heap::OnHeap;
use crate::view::{QueueKey, View};
use atomic_table::{Join, Play, Split, TableRule};
use message_slot::Claim;
use queue_state::{QueueState, Recorder};

/// One seat at a time has the turn, and with it the state.
pub struct OneTurn;

impl<K: Claim, E: Recorder> TableRule<
    Option<OnHeap<QueueState<K, E>>>,
    View<QueueState<K, E>, K::Home, K>,
    QueueKey<K::Home>,
> for OneTurn {
    ghost holds = { QueueTurn };

    ghost first = { opening_view };
}

/// A new seat, which has no sender number and has seen nothing.
pub(crate) struct Sit;

impl<K: Claim, E: Recorder> Play<
    Option<OnHeap<QueueState<K, E>>>,
    View<QueueState<K, E>, K::Home, K>,
> for Sit {
    ghost then = { sat };
}

pub(crate) struct Take;

impl<K: Claim, E: Recorder> Play<
    Option<OnHeap<QueueState<K, E>>>,
    View<QueueState<K, E>, K::Home, K>,
> for Take {
    ghost then = { took };
}

pub(crate) struct Give;

impl<K: Claim, E: Recorder> Play<
    Option<OnHeap<QueueState<K, E>>>,
    View<QueueState<K, E>, K::Home, K>,
> for Give {
    ghost then = { gave };
}

/// Gives the turn back, with what was found sealed.
pub(crate) struct Hand;

impl<K: Claim, E: Recorder> Play<
    Option<OnHeap<QueueState<K, E>>>,
    View<QueueState<K, E>, K::Home, K>,
> for Hand {
    ghost then = { handed };
}

/// Tells that what the seat was told begins what it has seen.
pub(crate) struct Learn;

impl<K: Claim, E: Recorder> Play<
    Option<OnHeap<QueueState<K, E>>>,
    View<QueueState<K, E>, K::Home, K>,
> for Learn {
    ghost then = { learned };
}

pub(crate) struct Ring;

impl<K: Claim, E: Recorder> Play<
    Option<OnHeap<QueueState<K, E>>>,
    View<QueueState<K, E>, K::Home, K>,
> for Ring {
    ghost then = { rang };
}

pub(crate) struct Listen;

impl<K: Claim, E: Recorder> Play<
    Option<OnHeap<QueueState<K, E>>>,
    View<QueueState<K, E>, K::Home, K>,
> for Listen {
    ghost then = { listened };
}

/// The new seat has the first sender number, and tells of the turns that the old one had.
pub(crate) struct Deal;

impl<K: Claim, E: Recorder> Split<View<QueueState<K, E>, K::Home, K>> for Deal {
    ghost left = { λ v. keeping v (drop 1 v.senders) };

    ghost right = { λ v. dealt v (take 1 v.senders) };
}

/// The new seat knows what the old one has seen, and has no sender number.
pub(crate) struct Note;

impl<K: Claim, E: Recorder> Split<View<QueueState<K, E>, K::Home, K>> for Note {
    ghost left = { λ v. v };

    ghost right = { λ v. fresh v [] };
}

pub(crate) struct Both;

impl<K: Claim, E: Recorder> Join<View<QueueState<K, E>, K::Home, K>> for Both {
    ghost both = { joined };

    ghost spent = { gone };
}
