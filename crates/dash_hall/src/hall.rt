//! What the senders of a run share.
ghost use Rattle.std.specs.Prelude.{◌≡◌, ◌<◌, ◌+◌, [], ◌∷◌, map, length, All, IfOk, OnOk};
ghost use Rattle.dash_hall.specs.Kits.{AreQueuesOf, AreChoreographersOf, queue_constants, frame_constants, badge_for, frames_for};
ghost use Rattle.dash_hall.specs.Dealing.{IsEmptyKit, EachGets, nothing, DealsPosters, DealsPasses, given_of, holder_of, HasCountedNothing, IsNewHall};
ghost use Rattle.run_model.specs.Planned.{sender_count};

use crate::kit::Kit;
use crate::stop::Stop;
use choreographer::{Choreographer, Constants, FramePass};
use dash_script::{Script, phase_count};
use loop_model::NoMemory;
use loop_sources::{FdTable, IdleSet};
use looper_run::Sources;
use message_pool::{Pool, PoolClaim, PoolPass};
use shared_queue::{Poster, SharedQueue};
use std::alloc::Global;
use std::sync::Mutex;

/// The queue, the choreographer and the sources of each looper, by looper number, the pool of all messages, and the flag by which the
/// run is given up.
#[derive(Drop)]
pub struct Hall {
    /// Whether the controller moves the queues' time on. Else they go by a clock.
    pub lockstep: bool,
    /// The pool that all messages come from.
    pub pool: Pool,
    /// The queue of each looper.
    pub queues: Vec<SharedQueue<PoolClaim>>,
    /// The choreographer of each looper.
    pub choreographers: Vec<Choreographer>,
    /// The idle handlers and the watched descriptors of each looper.
    pub sources: Vec<Mutex<Sources>>,
    /// Set by whoever finds no memory.
    pub stop: Stop,
}

/// The queues and choreographers of a script's loopers, and what each sender needs to work with them, by sender number:
/// the threads, the loopers, and last the controller. Also a pass of the pool for its end. Nothing was done by any of these yet. The
/// script has fewer than 100 threads and loopers together, and a period above 0. The queues are in lockstep or in free mode. NoMemory
/// where it found none. Lockstep is this project's profile.
pub fn open(
    alloc: Global,
    script: &Script,
    lockstep: bool,
) -> Result<(Hall, Vec<Kit>, PoolPass), NoMemory>
    requires { (script.now.threads + script.now.loopers < 100) × (0 < script.now.period) }
    ensures { IfOk result (λ r. IsNewHall script.now lockstep r.0 r.1.items r.2) }
{
    let (pool, mut pass) = Pool::new(alloc)?;
    let senders = script.threads + script.loopers + 1;
    let mut kits = kits(alloc, &pool, &mut pass, senders)?;
    let queues = queues(alloc, script, lockstep, &pool, &mut kits)?;
    let choreographers = choreographers(alloc, script, &mut kits)?;
    let sources = sources(alloc, script.loopers)?;
    let hall = Hall {
        lockstep,
        pool,
        queues,
        choreographers,
        sources,
        stop: Stop::new(),
    };
    Ok((hall, kits, pass))
}

/// Kits without posters.
fn kits(alloc: Global, pool: &Pool, pass: &mut PoolPass, senders: u32) -> Result<Vec<Kit>, NoMemory>
    requires pass { pass.old.home ≡ pool.now }
    requires counts { HasCountedNothing pass.old }
    ensures pass { pass.new.home ≡ pool.now }
    ensures counts { HasCountedNothing pass.new }
    ensures kits { IfOk result (λ v. (length v.items ≡ senders) × All (IsEmptyKit pool.now) v.items) }
{
    let mut kits = Vec::new(alloc);
    for _ in 0..senders {
        kits.push(Kit::new(alloc, pass.split(pool)))?;
    }
    Ok(kits)
}

/// A queue for each looper, with a poster in each kit.
fn queues(
    alloc: Global,
    script: &Script,
    lockstep: bool,
    pool: &Pool,
    kits: &mut Vec<Kit>,
) -> Result<Vec<SharedQueue<PoolClaim>>, NoMemory>
    requires fits { script.now.threads + script.now.loopers < 100 }
    requires kits { length kits.old.items ≡ sender_count script.now }
    ensures queues { IfOk result (λ v. AreQueuesOf lockstep script.now pool.now v.items) }
    ensures dealt { IfOk result (λ v. EachGets (λ k. map (badge_for k) v.items) nothing kits.old.items kits.new.items) }
{
    let mut queues = Vec::new(alloc);
    for looper in 0..script.loopers {
        let queue = queue(alloc, script, lockstep, pool, looper, kits)?;
        queues.push(queue)?;
    }
    Ok(queues)
}

/// The queue of this looper, with a poster in each kit.
fn queue(
    alloc: Global,
    script: &Script,
    lockstep: bool,
    pool: &Pool,
    looper: u32,
    kits: &mut Vec<Kit>,
) -> Result<SharedQueue<PoolClaim>, NoMemory>
    requires fits { script.now.threads + script.now.loopers < 100 }
    requires kits { length kits.old.items ≡ sender_count script.now }
    ensures constants { IfOk result (λ q. q.constants ≡ queue_constants lockstep script.now pool.now looper) }
    ensures dealt { IfOk result (λ q. EachGets (λ k. badge_for k q ∷ []) nothing kits.old.items kits.new.items) }
{
    let senders = script.threads + script.loopers + 1;
    let (queue, posters) = SharedQueue::make(
        alloc,
        pool.home(),
        looper,
        looper == 0,
        lockstep,
        senders,
    )?;
    deal_posters(kits, posters)?;
    Ok(queue)
}

/// Each kit gets one poster more.
fn deal_posters(kits: &mut Vec<Kit>, posters: Vec<Poster<PoolClaim>>) -> Result<(), NoMemory>
    requires { length posters.items ≡ length kits.old.items }
    ensures { OnOk result (DealsPosters posters.items kits.old.items kits.new.items) }
{
    let mut place = 0;
    for poster in posters {
        kits[place].add_poster(poster)?;
        place += 1;
    }
    Ok(())
}

/// A choreographer for each looper, with a pass in each kit of a thread, of the looper and of the controller.
fn choreographers(
    alloc: Global,
    script: &Script,
    kits: &mut Vec<Kit>,
) -> Result<Vec<Choreographer>, NoMemory>
    requires fits { (script.now.threads + script.now.loopers < 100) × (0 < script.now.period) }
    requires kits { length kits.old.items ≡ sender_count script.now }
    ensures choreographers { IfOk result (λ v. AreChoreographersOf script.now v.items) }
    ensures dealt { IfOk result (λ v. EachGets nothing (frames_for script.now v.items) kits.old.items kits.new.items) }
{
    let mut choreographers = Vec::new(alloc);
    for looper in 0..script.loopers {
        let choreographer = choreographer(alloc, script, looper, kits)?;
        choreographers.push(choreographer)?;
    }
    Ok(choreographers)
}

/// The choreographer of this looper, with its passes in the kits. The looper's pass alone delivers pulses.
fn choreographer(
    alloc: Global,
    script: &Script,
    looper: u32,
    kits: &mut Vec<Kit>,
) -> Result<Choreographer, NoMemory>
    requires fits { (script.now.threads + script.now.loopers < 100) × (0 < script.now.period) }
    requires looper { looper < script.now.loopers }
    requires kits { length kits.old.items ≡ sender_count script.now }
    ensures constants { IfOk result (λ c. c.constants ≡ frame_constants script.now looper) }
    ensures dealt { IfOk result (λ c. EachGets nothing (given_of script.now looper c) kits.old.items kits.new.items) }
{
    let constants = Constants {
        looper,
        interval: script.period,
        phases: phase_count(script.edition),
        passes: script.threads + 2,
        seals: true,
        pulses: Some(script.threads),
    };
    let (choreographer, passes) = Choreographer::make_by(alloc, constants)?;
    deal_passes(kits, script, looper, passes)?;
    Ok(choreographer)
}

/// The passes of a looper's choreographer go to the threads, one to the looper, and the last to the controller.
fn deal_passes(
    kits: &mut Vec<Kit>,
    script: &Script,
    looper: u32,
    passes: Vec<FramePass>,
) -> Result<(), NoMemory>
    requires fits { script.now.threads + script.now.loopers < 100 }
    requires looper { looper < script.now.loopers }
    requires kits { length kits.old.items ≡ sender_count script.now }
    requires passes { length passes.items ≡ script.now.threads + 2 }
    ensures { OnOk result (DealsPasses script.now looper passes.items kits.old.items kits.new.items) }
{
    let mut number = 0;
    for pass in passes {
        kits[holder(script, looper, number)].add_pass(pass)?;
        number += 1;
    }
    Ok(())
}

/// The sender that has the pass of this number to a looper's choreographer: the threads come first, then the looper, and last the
/// controller. The looper is one of the script, which has fewer than 100 threads and loopers together.
pub fn holder(script: &Script, looper: u32, number: u32) -> usize
    requires fits { script.now.threads + script.now.loopers < 100 }
    requires looper { looper < script.now.loopers }
    ensures { result ≡ holder_of script.now looper number }
{
    if number < script.threads {
        return number as usize;
    }
    if number < script.threads + 1 {
        return (script.threads + looper) as usize;
    }
    (script.threads + script.loopers) as usize
}

/// No idle handlers and no descriptors, for each looper.
fn sources(alloc: Global, loopers: u32) -> Result<Vec<Mutex<Sources>>, NoMemory>
    ensures { IfOk result (λ v. length v.items ≡ loopers) }
{
    let mut sources = Vec::new(alloc);
    for _ in 0..loopers {
        sources.push(Mutex::new(Sources {
            idle: IdleSet::empty(alloc),
            fds: FdTable::empty(alloc),
        }))?;
    }
    Ok(sources)
}
