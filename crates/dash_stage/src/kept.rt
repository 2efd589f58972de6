//! The report of a run.
ghost use Rattle.std.specs.Prelude.{IfOk};
ghost use Rattle.dash_hall.specs.Kits.{IsHall};
ghost use Rattle.dash_stage.specs.Keeping.{AreKeptOf, GiveKits, GiveBack, HoldsKept};
ghost use Rattle.dash_stage.specs.Stages.{CanBeKept, AreThreads, AreLoopers, AreThreadKits};

use crate::control::Controller;
use crate::records::records;
use crate::stage::Stage;
use dash_hall::{Hall, Kit};
use dash_loopers::StageLooper;
use dash_script::Script;
use dash_threads::PostingThread;
use frame_phases::FrameRecord;
use loop_model::{Journal, NoMemory, QueueRecord, Sequence};
use run_model::Report;
use std::alloc::Global;

/// The report of a run that left this; the clock was read so at its start, in lockstep 0.
pub(crate) fn report(
    alloc: Global,
    script: Script,
    stage: Stage,
    start: u64,
) -> Result<Report, NoMemory>
    requires { CanBeKept script stage }
    ensures { IfOk result (HoldsKept script stage start) }
{
    let (queues, journals, frames) = kept(alloc, &script, stage)?;
    Ok(Report {
        script,
        queues: Sequence::from_vec(queues),
        journals: Sequence::from_vec(journals),
        frames: Sequence::from_vec(frames),
        start,
    })
}

/// The records of the queues, of the loopers and of the choreographers.
fn kept(
    alloc: Global,
    script: &Script,
    stage: Stage,
) -> Result<(Vec<QueueRecord>, Vec<Journal>, Vec<FrameRecord>), NoMemory>
    requires { CanBeKept script.now stage }
    ensures { IfOk result (λ r. AreKeptOf script.now stage r.0.items r.1.items r.2.items) }
{
    let Stage {
        hall,
        threads,
        loopers,
        controller,
        pass,
        time: _,
    } = stage;
    let mut kits = thread_kits(alloc, script, &hall, threads)?;
    let journals = looper_kits(alloc, script, &hall, loopers, &mut kits)?;
    let Controller {
        kit,
        sealed,
        sealed_frames,
    } = controller;
    kits.push(kit)?;
    let (queues, frames) = records(alloc, script, hall, kits, pass, sealed, sealed_frames)?;
    Ok((queues, journals, frames))
}

/// What the threads worked with.
fn thread_kits(
    alloc: Global,
    script: &Script,
    hall: &Hall,
    mut threads: Vec<PostingThread>,
) -> Result<Vec<Kit>, NoMemory>
    requires threads { AreThreads script.now hall.now threads.items }
    ensures give { IfOk result (λ v. GiveKits script.now hall.now threads.items v.items) }
{
    let mut kits = Vec::new(alloc);
    'each: while !threads.is_empty() {
        kits.push(threads.remove(0).into_kit())?;
    }
    Ok(kits)
}

/// The loopers' journals. What they worked with comes behind the other kits.
fn looper_kits(
    alloc: Global,
    script: &Script,
    hall: &Hall,
    mut loopers: Vec<StageLooper>,
    kits: &mut Vec<Kit>,
) -> Result<Vec<Journal>, NoMemory>
    requires hall { IsHall script.now hall.now }
    requires loopers { AreLoopers script.now hall.now loopers.items }
    requires kits { AreThreadKits script.now hall.now kits.old.items }
    ensures back { IfOk result (λ v. GiveBack script.now hall.now loopers.items kits.old.items kits.new.items v.items) }
{
    let mut journals = Vec::new(alloc);
    'each: while !loopers.is_empty() {
        let (journal, kit) = loopers.remove(0).into_kit(alloc, hall, script)?;
        journals.push(journal)?;
        kits.push(kit)?;
    }
    Ok(journals)
}
