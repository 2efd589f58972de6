//! A stage before the first event.
ghost use Rattle.std.specs.Prelude.{◌≡◌, ◌<◌, ◌+◌, [], IfOk, OnOk, replicate};
ghost use Rattle.dash_script.specs.Reading.{HasText};
ghost use Rattle.dash_hall.specs.Kits.{IsHall};
ghost use Rattle.dash_stage.specs.Controllers.{parts_in};
ghost use Rattle.dash_stage.specs.Opening.{AreUnusedFrom, AreOpenedThreads, AreOpenedLoopers, HasOpened};

use crate::control::Controller;
use crate::stage::Stage;
use dash_hall::{Hall, Kit, open};
use dash_loopers::StageLooper;
use dash_script::Script;
use dash_threads::PostingThread;
use loop_model::NoMemory;
use std::alloc::Global;

/// The senders of a script, which have done nothing, in lockstep or by a clock.
#[tactic(auto, using(crate::proofs::BlockTimes::playable))]
pub(crate) fn set_up(alloc: Global, script: &Script, lockstep: bool) -> Result<Stage, NoMemory>
    requires { HasText script.now }
    ensures opened { IfOk result (HasOpened lockstep script.now) }
{
    let (hall, mut kits, pass) = open(alloc, script, lockstep)?;
    let threads = threads(alloc, script, &hall, &mut kits)?;
    let loopers = loopers(alloc, script, &hall, &mut kits)?;
    let sealed = nothing_sealed(alloc, script.loopers)?;
    let sealed_frames = nothing_sealed(alloc, script.loopers)?;
    let controller = Controller {
        kit: kits.remove(0),
        sealed,
        sealed_frames,
    };
    Ok(Stage {
        hall,
        threads,
        loopers,
        controller,
        pass,
        time: 0,
    })
}

/// No parts of any history or frame record, for so many queues or choreographers.
fn nothing_sealed<T: Drop>(alloc: Global, loopers: u32) -> Result<Vec<Vec<T>>, NoMemory>
    ensures { IfOk result (λ v. parts_in v.items ≡ replicate loopers []) }
{
    let mut sealed: Vec<Vec<T>> = Vec::new(alloc);
    for looper in 0..loopers {
        sealed.push(Vec::new(alloc))?;
    }
    Ok(sealed)
}

/// The threads, with the first kits.
fn threads(
    alloc: Global,
    script: &Script,
    hall: &Hall,
    kits: &mut Vec<Kit>,
) -> Result<Vec<PostingThread>, NoMemory>
    requires few { script.now.threads + script.now.loopers < 100 }
    requires kits { AreUnusedFrom script.now hall.now 0 kits.old.items }
    ensures opened { IfOk result (λ v. AreOpenedThreads script.now hall.now v.items) }
    ensures kits { OnOk result (AreUnusedFrom script.now hall.now script.now.threads kits.new.items) }
{
    let mut threads = Vec::new(alloc);
    for number in 0..script.threads {
        threads.push(PostingThread::new(alloc, number, kits.remove(0)))?;
    }
    Ok(threads)
}

/// The loopers, with the kits behind the threads'.
fn loopers(
    alloc: Global,
    script: &Script,
    hall: &Hall,
    kits: &mut Vec<Kit>,
) -> Result<Vec<StageLooper>, NoMemory>
    requires few { script.now.threads + script.now.loopers < 100 }
    requires hall { IsHall script.now hall.now }
    requires kits { AreUnusedFrom script.now hall.now script.now.threads kits.old.items }
    ensures opened { IfOk result (λ v. AreOpenedLoopers script.now hall.now v.items) }
    ensures kits { OnOk result (AreUnusedFrom script.now hall.now (script.now.threads + script.now.loopers) kits.new.items) }
{
    let mut loopers = Vec::new(alloc);
    for number in 0..script.loopers {
        let looper = StageLooper::new(alloc, hall, script, number, kits.remove(0))?;
        loopers.push(looper)?;
    }
    Ok(loopers)
}
