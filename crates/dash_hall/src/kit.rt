//! What a sender needs to work with the queues of a run.
ghost use Rattle.std.specs.Prelude.{◌<◌, [], ◌∷◌, length, OnOk};
ghost use Rattle.dash_hall.specs.Kits.{badge_of, frame_badge_of};
ghost use Rattle.shared_queue.specs.Ends.{IsNewPoster};
ghost use Rattle.choreographer.specs.Ends.{IsNewPass};
ghost use Rattle.dash_hall.specs.Dealing.{HasCountedNothing, IsEmptyKit, Gets, GivesPoster, GivesPass};

use choreographer::FramePass;
use loop_model::NoMemory;
use message_pool::{PoolClaim, PoolPass};
use shared_queue::Poster;
use std::alloc::Global;

/// A sender's poster of each looper's queue, its pass of the pool, and its passes of choreographers: one of each looper's,
/// or of its own alone where the sender is a looper.
#[derive(Drop)]
pub struct Kit {
    /// Its posters, by looper number.
    pub posters: Vec<Poster<PoolClaim>>,
    /// Its pass of the pool.
    pub pass: PoolPass,
    /// Its passes of choreographers.
    pub frames: Vec<FramePass>,
}

impl Kit {
    pub(crate) fn new(alloc: Global, pass: PoolPass) -> Kit
        ensures { HasCountedNothing pass → IsEmptyKit pass.home result }
    {
        Kit {
            posters: Vec::new(alloc),
            pass,
            frames: Vec::new(alloc),
        }
    }

    /// One poster more.
    pub(crate) fn add_poster(&mut self, poster: Poster<PoolClaim>) -> Result<(), NoMemory>
        ensures { OnOk result (IsNewPoster poster → Gets (badge_of poster ∷ []) [] self.old self.new) }
    {
        self.posters.push(poster)?;
        Ok(())
    }

    /// One pass of a choreographer more.
    pub(crate) fn add_pass(&mut self, pass: FramePass) -> Result<(), NoMemory>
        ensures { OnOk result (IsNewPass pass → Gets [] (frame_badge_of pass ∷ []) self.old self.new) }
    {
        self.frames.push(pass)?;
        Ok(())
    }

    /// Takes out the poster of the first of the queues whose posters are left. There is one.
    pub fn next_poster(&mut self) -> Poster<PoolClaim>
        requires { 0 < length self.old.posters.items }
        ensures { GivesPoster self.old result self.new }
    {
        self.posters.remove(0)
    }

    /// Takes out the first of the passes of choreographers that are left. There is one.
    pub fn next_pass(&mut self) -> FramePass
        requires { 0 < length self.old.frames.items }
        ensures { GivesPass self.old result self.new }
    {
        self.frames.remove(0)
    }
}
