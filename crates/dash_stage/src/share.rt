//! All senders come to have seen the same of each queue's history, and heard the same of each choreographer's.
ghost use Rattle.std.specs.Prelude.{◌≡◌, ◌<◌, Bool};
ghost use Rattle.dash_stage.specs.ByClock.{CanHearThreads, HearsAllThreads};
ghost use Rattle.dash_stage.specs.Stages.{IsStage, IsStageIn};
ghost use Rattle.dash_hall.specs.Hearing.{HaveHeardAt, AtEach, AreKept, AreKnown, ArePassesKnown};
ghost use Rattle.dash_stage.specs.Sharing.{StageKeeps, OfThreads, OfPasses, OfLoopers, SharesAt, SharesFramesAt, HaveHeardTheSame, HaveShared};
ghost use Rattle.dash_stage.specs.Sharing.{HaveSharedQueues, CanShareBy, HaveSharedBy, CanHearFrom, ThreadsHaveTold, CanHearLoopers, LoopersHaveTold};
ghost use Rattle.dash_stage.specs.Sharing.{CanSharePasses, HaveSharedPasses, CanHearPasses, HaveToldPass};
ghost use Rattle.dash_threads.specs.Threads.{ThreadKeeps, HearsPass};
ghost use Rattle.dash_loopers.specs.Loopers.{LooperKeeps};

use crate::control::Controller;
use crate::stage::Stage;
use choreographer::{Choreographer, FramePass};
use dash_hall::Hall;
use dash_loopers::StageLooper;
use dash_script::Script;
use dash_threads::PostingThread;
use message_pool::PoolClaim;
use shared_queue::{Poster, SharedQueue};

impl Stage {
    /// All senders come to have seen the same of each queue's history: the longest that one of them has seen. It takes no turn.
    pub(crate) fn share(&mut self, script: &Script)
        requires stage { IsStage script.now self.old }
        ensures shared { HaveShared script.now self.old self.new }
    {
        self.share_each(script);
        self.share_frames(script);
    }

    /// All senders come to have seen the same of each queue's history, in lockstep or by a clock.
    pub(crate) fn share_each(&mut self, script: &Script)
        requires stage { IsStageIn self.old.hall.lockstep script.now self.old }
        ensures stage { (lockstep : Bool) → IsStageIn lockstep script.now self.old → IsStageIn lockstep script.now self.new }
        ensures shares { HaveSharedQueues self.old self.new }
    {
        for looper in 0..script.loopers {
            self.share_queue(script, looper as usize);
        }
    }

    /// All senders come to have seen the same of the history of the queue at this place.
    fn share_queue(&mut self, script: &Script, place: usize)
        requires stage { IsStageIn self.old.hall.lockstep script.now self.old }
        requires place { place < script.now.loopers }
        ensures shares { SharesAt place self.old self.new }
    {
        share_by(
            &self.hall.queues[place],
            place,
            self.threads.as_mut_slice(),
            self.loopers.as_mut_slice(),
            &mut self.controller.kit.posters[place],
        );
    }

    /// All passes of each choreographer come to have heard the same: who recorded each entry that one of them has seen. It takes no turn.
    fn share_frames(&mut self, script: &Script)
        requires stage { IsStageIn self.old.hall.lockstep script.now self.old }
        ensures kept { StageKeeps AreKept self.old self.new }
        ensures heard { HaveHeardTheSame script.now self.new }
    {
        for looper in 0..script.loopers {
            self.share_frames_of(script, looper as usize);
        }
    }

    /// All passes of the choreographer at this place come to have heard the same.
    fn share_frames_of(&mut self, script: &Script, place: usize)
        requires stage { IsStageIn self.old.hall.lockstep script.now self.old }
        requires place { place < script.now.loopers }
        ensures shares { SharesFramesAt place self.old self.new }
    {
        share_passes(
            &self.hall.choreographers[place],
            place,
            self.threads.as_mut_slice(),
            &mut self.loopers[place],
            &mut self.controller.kit.frames[place],
        );
    }
}

/// The controller's posters hear those of the threads, so that its next calls stand behind all that these have called. It takes no turn.
pub(crate) fn hear_threads(
    hall: &Hall,
    script: &Script,
    threads: &mut [PostingThread],
    controller: &mut Controller,
)
    requires { CanHearThreads script.now hall.now threads.old controller.old }
    ensures { HearsAllThreads threads.old threads.new controller.old controller.new }
{
    for looper in 0..script.loopers {
        let place = looper as usize;
        threads_tell(
            &hall.queues[place],
            place,
            threads,
            &mut controller.kit.posters[place],
        );
    }
}

/// This poster of a queue hears those of all threads and loopers, and then they hear it.
fn share_by(
    queue: &SharedQueue<PoolClaim>,
    place: usize,
    threads: &mut [PostingThread],
    loopers: &mut [StageLooper],
    poster: &mut Poster<PoolClaim>,
)
    requires { CanShareBy place queue.now threads.old loopers.old poster.old }
    ensures { HaveSharedBy place threads.old threads.new loopers.old loopers.new poster.old poster.new }
{
    threads_tell(queue, place, threads, poster);
    loopers_tell(queue, place, loopers, poster);
    threads_hear(queue, place, threads, poster);
    loopers_hear(queue, place, loopers, poster);
}

/// This pass of a choreographer hears those of all threads and the one of its looper, and then they hear it.
fn share_passes(
    choreographer: &Choreographer,
    place: usize,
    threads: &mut [PostingThread],
    looper: &mut StageLooper,
    pass: &mut FramePass,
)
    requires { CanSharePasses place choreographer.now threads.old looper.old pass.old }
    ensures { HaveSharedPasses place threads.old threads.new looper.old looper.new pass.old pass.new }
{
    threads_tell_pass(choreographer, place, threads, pass);
    looper.tell_pass(choreographer, pass);
    threads_hear_pass(choreographer, place, threads, pass);
    looper.hear_pass(choreographer, pass);
}

/// Another pass of the choreographer hears those of the threads.
fn threads_tell_pass(
    choreographer: &Choreographer,
    place: usize,
    threads: &mut [PostingThread],
    other: &mut FramePass,
)
    requires { CanHearPasses place choreographer.now threads.old other.old }
    ensures { HaveToldPass place threads.old threads.new other.old other.new }
{
    for k in 0..threads.len() {
        threads[k].tell_pass(choreographer, place, other);
    }
}

/// The threads' passes of the choreographer hear another one, which has heard all that they have.
fn threads_hear_pass(
    choreographer: &Choreographer,
    place: usize,
    threads: &mut [PostingThread],
    other: &mut FramePass,
)
    requires at { CanHearPasses place choreographer.now threads.old other.old }
    requires known { OfPasses (ArePassesKnown place other.old.view.heard) threads.old }
    ensures kept { AtEach (HearsPass place other.old.view.heard) threads.old threads.new }
    ensures other { other.new ≡ other.old }
{
    for k in 0..threads.len() {
        threads[k].hear_pass(choreographer, place, other);
    }
}

/// Another poster of the queue hears those of the threads.
fn threads_tell(
    queue: &SharedQueue<PoolClaim>,
    place: usize,
    threads: &mut [PostingThread],
    other: &mut Poster<PoolClaim>,
)
    requires { CanHearFrom place queue.now threads.old other.old }
    ensures { ThreadsHaveTold place threads.old threads.new other.old other.new }
{
    for k in 0..threads.len() {
        threads[k].tell(queue, place, other);
    }
}

/// Another poster of the queue hears those of the loopers.
fn loopers_tell(
    queue: &SharedQueue<PoolClaim>,
    place: usize,
    loopers: &mut [StageLooper],
    other: &mut Poster<PoolClaim>,
)
    requires { CanHearLoopers place queue.now loopers.old other.old }
    ensures { LoopersHaveTold place loopers.old loopers.new other.old other.new }
{
    for k in 0..loopers.len() {
        loopers[k].tell(queue, place, other);
    }
}

/// The threads' posters of the queue hear another one, which has seen all that they have.
fn threads_hear(
    queue: &SharedQueue<PoolClaim>,
    place: usize,
    threads: &mut [PostingThread],
    other: &mut Poster<PoolClaim>,
)
    requires at { CanHearFrom place queue.now threads.old other.old }
    requires known { OfThreads (AreKnown place other.old.view.seen) threads.old }
    ensures kept { AtEach (ThreadKeeps (HaveHeardAt place other.old.view.seen)) threads.old threads.new }
    ensures other { other.new ≡ other.old }
{
    for k in 0..threads.len() {
        threads[k].hear(queue, place, other);
    }
}

/// The loopers' posters of the queue hear another one, which has seen all that they have.
fn loopers_hear(
    queue: &SharedQueue<PoolClaim>,
    place: usize,
    loopers: &mut [StageLooper],
    other: &mut Poster<PoolClaim>,
)
    requires at { CanHearLoopers place queue.now loopers.old other.old }
    requires known { OfLoopers (AreKnown place other.old.view.seen) loopers.old }
    ensures kept { AtEach (LooperKeeps (HaveHeardAt place other.old.view.seen)) loopers.old loopers.new }
    ensures other { other.new ≡ other.old }
{
    for k in 0..loopers.len() {
        loopers[k].hear(queue, place, other);
    }
}
