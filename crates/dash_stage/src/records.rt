//! The records of a run's queues and choreographers.
ghost use Rattle.std.specs.Prelude.{◌≡◌, ◌<◌, ◌+◌, length, IfOk, OnOk, Bool};
ghost use Rattle.atomic_table.specs.Seated.{TableId};
ghost use Rattle.run_model.specs.Planned.{history_of};
ghost use Rattle.dash_hall.specs.Kits.{AreQueuesOf};
ghost use Rattle.dash_hall.specs.Dealing.{EachGivesPoster, given_of};
ghost use Rattle.dash_stage.specs.Ending.{CanEnd, CanEndQueues, CanEndQueue, CanEndFrames, CanEndChoreographer};
ghost use Rattle.dash_stage.specs.Ending.{HavePosters, IsKeptOf, EachEndsPoster, KeepFrames, HaveFramesLeft, AreOfNextPasses, AreOfPool};
ghost use Rattle.dash_stage.specs.Records.{AreRecordsIn, AreFramesIn};
ghost use Rattle.run_model.specs.Run.{IsFrameRun};

use choreographer::{Choreographer, FramePass};
use dash_hall::{Hall, Kit, holder, recycle_all};
use dash_script::Script;
use frame_phases::{FrameEntry, FrameRecord};
use loop_model::{NoMemory, QueueRecord, Segment, Sequence};
use message_pool::{Pool, PoolClaim, PoolPass};
use shared_queue::{Poster, SharedQueue};
use std::alloc::Global;

/// Ends the sharing: the records of the queues and of the choreographers, by looper number. What is left in the queues is recycled,
/// and the pool is closed.
pub(crate) fn records(
    alloc: Global,
    script: &Script,
    hall: Hall,
    mut kits: Vec<Kit>,
    mut pass: PoolPass,
    sealed: Vec<Vec<Segment>>,
    sealed_frames: Vec<Vec<Sequence<FrameEntry>>>,
) -> Result<(Vec<QueueRecord>, Vec<FrameRecord>), NoMemory>
    requires { CanEnd script.now hall kits.items pass sealed.items sealed_frames.items }
    ensures queues { IfOk result (λ r. AreRecordsIn hall.lockstep script.now kits.items r.0.items) }
    ensures frames { IfOk result (λ r. AreFramesIn script.now kits.items r.1.items) }
{
    let Hall {
        lockstep: _,
        pool,
        queues,
        choreographers,
        sources: _,
        stop: _,
    } = hall;
    let queues = queue_records(alloc, script, &pool, &mut pass, queues, &mut kits, sealed)?;
    let frames = frame_records(alloc, script, choreographers, &mut kits, sealed_frames)?;
    close(pool, pass, kits);
    Ok((queues, frames))
}

/// The records of the queues, by looper number.
fn queue_records(
    alloc: Global,
    script: &Script,
    pool: &Pool,
    pass: &mut PoolPass,
    queues: Vec<SharedQueue<PoolClaim>>,
    kits: &mut Vec<Kit>,
    mut sealed: Vec<Vec<Segment>>,
) -> Result<Vec<QueueRecord>, NoMemory>
    requires { CanEndQueues script.now pool.now pass.old queues.items kits.old.items sealed.items }
    ensures pass { OnOk result (pass.new.home ≡ pool.now) }
    ensures records { (lockstep : Bool) → AreQueuesOf lockstep script.now pool.now queues.items → IfOk result (λ v. AreRecordsIn lockstep script.now kits.old.items v.items) }
    ensures kits { OnOk result (KeepFrames kits.old.items kits.new.items) }
{
    let mut records = Vec::new(alloc);
    for queue in queues {
        let parts = sealed.remove(0);
        let record = queue_record(alloc, pool, pass, queue, kits, parts)?;
        records.push(record)?;
    }
    Ok(records)
}

/// The record of a queue. What is left in it is recycled.
fn queue_record(
    alloc: Global,
    pool: &Pool,
    pass: &mut PoolPass,
    queue: SharedQueue<PoolClaim>,
    kits: &mut Vec<Kit>,
    sealed: Vec<Segment>,
) -> Result<QueueRecord, NoMemory>
    requires { CanEndQueue pool.now pass.old queue kits.old.items sealed.items }
    ensures pass { OnOk result (pass.new.home ≡ pool.now) }
    ensures kept { IfOk result (λ r. IsKeptOf queue.constants r) }
    ensures kits { IfOk result (λ r. EachEndsPoster (history_of r) kits.old.items kits.new.items) }
{
    let posters = posters(alloc, kits)?;
    let retired = queue.retire(posters, sealed)?;
    recycle_all(pool, pass, retired.left);
    Ok(retired.kept)
}

/// The next poster of each kit.
fn posters(alloc: Global, kits: &mut Vec<Kit>) -> Result<Vec<Poster<PoolClaim>>, NoMemory>
    requires { HavePosters kits.old.items }
    ensures { IfOk result (λ v. EachGivesPoster kits.old.items v.items kits.new.items) }
{
    let mut posters = Vec::new(alloc);
    for place in 0..kits.len() {
        posters.push(kits[place].next_poster())?;
    }
    Ok(posters)
}

/// The records of the choreographers, by looper number.
fn frame_records(
    alloc: Global,
    script: &Script,
    choreographers: Vec<Choreographer>,
    kits: &mut Vec<Kit>,
    mut sealed: Vec<Vec<Sequence<FrameEntry>>>,
) -> Result<Vec<FrameRecord>, NoMemory>
    requires { CanEndFrames script.now choreographers.items kits.old.items sealed.items }
    ensures frames { IfOk result (λ v. AreFramesIn script.now kits.old.items v.items) }
    ensures pool { (pool : TableId) → AreOfPool pool kits.old.items → OnOk result (AreOfPool pool kits.new.items) }
{
    let mut records = Vec::new(alloc);
    let mut looper = 0;
    for choreographer in choreographers {
        let parts = sealed.remove(0);
        let record = frame_record(alloc, script, looper, choreographer, kits, parts)?;
        records.push(record)?;
        looper += 1;
    }
    Ok(records)
}

/// The record of this looper's choreographer, which takes all its passes and the parts that were handed out.
fn frame_record(
    alloc: Global,
    script: &Script,
    looper: u32,
    choreographer: Choreographer,
    kits: &mut Vec<Kit>,
    parts: Vec<Sequence<FrameEntry>>,
) -> Result<FrameRecord, NoMemory>
    requires { CanEndChoreographer script.now looper choreographer kits.old.items parts.items }
    ensures record { IfOk result (λ r. IsFrameRun script.now r × (r.looper ≡ looper)) }
    ensures theirs { IfOk result (λ r. AreOfNextPasses script.now looper kits.old.items r.entries) }
    ensures kits { OnOk result (HaveFramesLeft (λ k. length (given_of script.now looper choreographer k)) kits.old.items kits.new.items) }
{
    let mut passes = Vec::new(alloc);
    for number in 0..script.threads + 2 {
        passes.push(kits[holder(script, looper, number)].next_pass())?;
    }
    choreographer.into_whole(passes, parts)
}

/// Closes the pool, with the passes of all kits.
fn close(pool: Pool, mut pass: PoolPass, kits: Vec<Kit>)
    requires pass { pass.home ≡ pool }
    requires kits { AreOfPool pool kits.items }
{
    for kit in kits {
        pass.join(&pool, kit.pass);
    }
    pool.close(pass);
}
