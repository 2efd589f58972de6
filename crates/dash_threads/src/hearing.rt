//! How a thread's posters and passes hear others.
ghost use Rattle.std.specs.Prelude.{◌≡◌, ◌<◌};
ghost use Rattle.shared_queue.specs.Known.{IsOf};
ghost use Rattle.choreographer.specs.Known.{IsPassOf};
ghost use Rattle.dash_hall.specs.Hearing.{HasHeard, HaveHeardAt, AreKept, AreReady, AreKnown, PassHasHeard, ArePassesReady, ArePassesKnown};
ghost use Rattle.dash_threads.specs.Threads.{ThreadKeeps, TellsPass, HearsPass};

use crate::thread::PostingThread;
use choreographer::{Choreographer, FramePass};
use message_pool::PoolClaim;
use shared_queue::{Poster, SharedQueue};

impl PostingThread {
    /// Lets another poster of the queue at this place hear the thread's. It takes no turn.
    pub fn tell(
        &mut self,
        queue: &SharedQueue<PoolClaim>,
        place: usize,
        other: &mut Poster<PoolClaim>,
    )
        requires ready { AreReady place queue.now self.old.kit.posters.items }
        requires other { IsOf other.old queue.now }
        ensures kept { ThreadKeeps AreKept self.old self.new }
        ensures heard { HasHeard other.old other.new }
        ensures told { AreKnown place other.new.view.seen self.old.kit.posters.items }
    {
        other.hear(queue, &mut self.kit.posters[place]);
    }

    /// Lets its poster of the queue at this place hear another one, which has seen all that it has. It takes no turn.
    pub fn hear(
        &mut self,
        queue: &SharedQueue<PoolClaim>,
        place: usize,
        other: &mut Poster<PoolClaim>,
    )
        requires ready { AreReady place queue.now self.old.kit.posters.items }
        requires other { IsOf other.old queue.now }
        requires known { AreKnown place other.old.view.seen self.old.kit.posters.items }
        ensures kept { ThreadKeeps (HaveHeardAt place other.old.view.seen) self.old self.new }
        ensures other { other.new ≡ other.old }
    {
        self.kit.posters[place].hear(queue, other);
    }

    /// Lets another pass of the choreographer at this place hear the thread's. It takes no turn.
    pub fn tell_pass(&mut self, choreographer: &Choreographer, place: usize, other: &mut FramePass)
        requires ready { ArePassesReady place choreographer.now self.old.kit.frames.items }
        requires other { IsPassOf other.old choreographer.now }
        ensures kept { TellsPass self.old self.new }
        ensures heard { PassHasHeard other.old other.new }
        ensures told { ArePassesKnown place other.new.view.heard self.old.kit.frames.items }
    {
        other.hear(choreographer, &mut self.kit.frames[place]);
    }

    /// Lets its pass of the choreographer at this place hear another one, which has heard all that it has. It takes no turn.
    pub fn hear_pass(&mut self, choreographer: &Choreographer, place: usize, other: &mut FramePass)
        requires ready { ArePassesReady place choreographer.now self.old.kit.frames.items }
        requires other { IsPassOf other.old choreographer.now }
        requires known { ArePassesKnown place other.old.view.heard self.old.kit.frames.items }
        ensures kept { HearsPass place other.old.view.heard self.old self.new }
        ensures other { other.new ≡ other.old }
    {
        self.kit.frames[place].hear(choreographer, other);
    }
}
