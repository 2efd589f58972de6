//! How a looper's posters and passes hear others.
ghost use Rattle.std.specs.Prelude.{◌≡◌, ◌<◌, IsSome};
ghost use mathlib.Core.List.{IsPrefix};
ghost use Rattle.shared_queue.specs.Known.{IsOf};
ghost use Rattle.dash_loopers.specs.Players.{PlaceWithout};
ghost use Rattle.choreographer.specs.Known.{IsPassOf, HasHeardWho};
ghost use Rattle.dash_hall.specs.Hearing.{HasHeard, HaveHeardAt, AreKept, AreReady, AreKnown, PassHasHeard};
ghost use Rattle.dash_loopers.specs.Loopers.{IsWithin, posters_of, LooperKeeps, OfItsPass, LooperTellsPass, LooperHearsPass};

use crate::looper::StageLooper;
use choreographer::{Choreographer, FramePass};
use message_pool::PoolClaim;
use shared_queue::{Poster, SharedQueue};

impl StageLooper {
    /// Lets another poster of the queue at this place hear the looper's. It takes no turn.
    pub fn tell(
        &mut self,
        queue: &SharedQueue<PoolClaim>,
        place: usize,
        other: &mut Poster<PoolClaim>,
    )
        requires ready { AreReady place queue.now (posters_of self.old) }
        requires within { IsWithin self.old }
        requires other { IsOf other.old queue.now }
        ensures kept { LooperKeeps AreKept self.old self.new }
        ensures heard { HasHeard other.old other.new }
        ensures told { AreKnown place other.new.view.seen (posters_of self.old) }
    {
        let number = self.number as usize;
        if place == number {
            self.looper.tell(queue, other);
            return;
        }
        let Some(mut parts) = self.parts.take() else {
            unreachable!()
        };
        other.hear(queue, &mut parts.others[place_without(number, place)]);
        self.parts = Some(parts);
    }

    /// Lets its poster of the queue at this place hear another one, which has seen all that it has. It takes no turn.
    pub fn hear(
        &mut self,
        queue: &SharedQueue<PoolClaim>,
        place: usize,
        other: &mut Poster<PoolClaim>,
    )
        requires ready { AreReady place queue.now (posters_of self.old) }
        requires within { IsWithin self.old }
        requires other { IsOf other.old queue.now }
        requires known { AreKnown place other.old.view.seen (posters_of self.old) }
        ensures kept { LooperKeeps (HaveHeardAt place other.old.view.seen) self.old self.new }
        ensures other { other.new ≡ other.old }
    {
        let number = self.number as usize;
        if place == number {
            self.looper.hear(queue, other);
            return;
        }
        let Some(mut parts) = self.parts.take() else {
            unreachable!()
        };
        parts.others[place_without(number, place)].hear(queue, other);
        self.parts = Some(parts);
    }

    /// Lets another pass of its choreographer hear its own. It takes no turn.
    pub fn tell_pass(&mut self, choreographer: &Choreographer, other: &mut FramePass)
        requires parts { IsSome self.old.parts }
        requires passes { OfItsPass (λ p. IsPassOf p choreographer.now) self.old }
        requires other { IsPassOf other.old choreographer.now }
        ensures kept { LooperTellsPass self.old self.new }
        ensures heard { PassHasHeard other.old other.new }
        ensures told { OfItsPass (λ p. IsPrefix p.view.heard other.new.view.heard) self.old }
        ensures knows { HasHeardWho other.new }
    {
        let Some(mut parts) = self.parts.take() else {
            unreachable!()
        };
        other.hear(choreographer, &mut parts.frames);
        self.parts = Some(parts);
    }

    /// Lets its pass of its choreographer hear another one, which has heard all that it has. It takes no turn.
    pub fn hear_pass(&mut self, choreographer: &Choreographer, other: &mut FramePass)
        requires parts { IsSome self.old.parts }
        requires passes { OfItsPass (λ p. IsPassOf p choreographer.now) self.old }
        requires other { IsPassOf other.old choreographer.now }
        requires known { OfItsPass (λ p. IsPrefix p.view.heard other.old.view.heard) self.old }
        ensures kept { LooperHearsPass other.old.view.heard self.old self.new }
        ensures other { other.new ≡ other.old }
    {
        let Some(mut parts) = self.parts.take() else {
            unreachable!()
        };
        parts.frames.hear(choreographer, other);
        self.parts = Some(parts);
    }
}

/// At which place the poster of another looper's queue stands among the others of the looper of this number.
pub(crate) fn place_without(number: usize, place: usize) -> usize
    requires { place ≡ number → ⊥ }
    ensures { PlaceWithout number place result }
{
    if place < number { place } else { place - 1 }
}
