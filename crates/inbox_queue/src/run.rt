//! A run in which the main looper posts what the threads put into an inbox.
ghost use Rattle.std.specs.Prelude.{◌≡◌, ◌<◌, ◌≤◌, [], IfOk, OnOk};
ghost use Rattle.dash_script.specs.Reading.{HasText};
ghost use Rattle.inbox_queue.specs.InboxRun.{AreOfBlocks};
ghost use Rattle.inbox_queue.specs.MainQueue.{HandsAreAt, threads_of, seen, AreSilent};
ghost use Rattle.inbox_queue.specs.Opened.{IsWholeRun, IsOpen, IsInboxPlayed, IsKeptRecord, Runs, RefusesBad};

use crate::bad::bad_line;
use crate::gathering::gather;
use crate::main_queue::{Hands, Place};
use crate::parcel::Parcel;
use dash_script::Script;
use handler_post::recycle_all;
use loop_io::Gate;
use loop_model::{NoMemory, QueueRecord, Sequence};
use message_pool::{Pool, PoolClaim};
use shared_queue::{Poster, SharedQueue};
use std::alloc::Global;
use std::sync::Wait;
use std::thread::Threads;

/// What is kept of such a run.
#[derive(Debug, Drop)]
pub struct InboxReport {
    /// The script that was run.
    pub script: Script,
    /// The history of the main looper's queue.
    pub kept: QueueRecord,
    /// For each block the parcels that the threads put, in the order in which the looper admitted and posted them.
    pub admitted: Sequence<Sequence<Parcel>>,
}

/// What came of such a run.
#[derive(Drop)]
pub enum InboxRan {
    /// The whole script was run.
    Ok(InboxReport),
    /// The script has a line that such a run doesn't know, and this is the number of the least such line, counted from 1.
    Bad { line: u64 },
    /// A sender found no memory, and the run was given up.
    NoMemory,
}

/// Opens the queue, with a poster for each thread, for the looper and for the controller.
#[derive(Drop)]
struct Opened {
    place: Place,
    hands: Hands,
    /// The threads' posters, which make no call.
    threads: Vec<Poster<PoolClaim>>,
}

fn open(alloc: Global, script: &Script) -> Result<Opened, NoMemory>
    requires { script.now.threads ≤ 16 }
    ensures { IfOk result (λ o. IsOpen script.now.threads o × (seen o.hands ≡ [])) }
{
    let (pool, pass) = Pool::new(alloc)?;
    let (queue, mut threads) = SharedQueue::make(
        alloc,
        pool.home(),
        0,
        true,
        true,
        script.threads + 2,
    )?;
    let controller = threads.pop().unwrap();
    let looper = threads.pop().unwrap();
    Ok(Opened {
        place: Place { queue, pool },
        hands: Hands {
            looper,
            controller,
            pass,
        },
        threads,
    })
}

/// Runs the blocks, and the rest up to the end. Answers what was admitted in each block.
fn play<R: Threads + Wait + Sync, G: Gate + Sync>(
    rt: &R,
    alloc: Global,
    script: &Script,
    gate: &G,
    place: &Place,
    hands: &mut Hands,
) -> Result<Sequence<Sequence<Parcel>>, NoMemory>
    requires text { HasText script.now × (0 < script.now.threads) }
    requires at { HandsAreAt place.now hands.old × (threads_of hands.old ≡ script.now.threads) × (seen hands.old ≡ []) }
    ensures at { OnOk result (HandsAreAt place.now hands.new × (threads_of hands.new ≡ threads_of hands.old)) }
    ensures admitted { IfOk result (AreOfBlocks script.now script.now.blocks) }
    ensures played { IfOk result (λ lists. AreSilent script.now.threads (seen hands.new) → IsInboxPlayed script.now script.now.threads lists (seen hands.new)) }
{
    let mut admitted = Sequence::new(alloc);
    for block in script.blocks.as_slice() {
        place.move_to(rt, hands, block.time)?;
        let parcels = gather(rt, alloc, script, gate, block)?;
        place.post_all(rt, alloc, hands, parcels.as_slice())?;
        admitted.push(parcels)?;
    }
    place.move_to(rt, hands, script.end)?;
    place.halt(rt, hands, script.end);
    Ok(admitted)
}

/// The history of the queue, at its end.
fn keep(alloc: Global, opened: Opened) -> Result<QueueRecord, NoMemory>
    requires { IsOpen (threads_of opened.hands) opened }
    ensures { IfOk result (IsKeptRecord (threads_of opened.hands) (seen opened.hands)) }
{
    let Opened {
        place,
        hands,
        mut threads,
    } = opened;
    let Place { queue, pool } = place;
    let Hands {
        looper,
        controller,
        mut pass,
    } = hands;
    threads.push(looper)?;
    threads.push(controller)?;
    let retired = queue.retire(threads, Vec::new(alloc))?;
    recycle_all(&pool, &mut pass, retired.left);
    pool.close(pass);
    Ok(retired.kept)
}

fn run<R: Threads + Wait + Sync, G: Gate + Sync>(
    rt: &R,
    alloc: Global,
    script: &Script,
    gate: &G,
) -> Result<(QueueRecord, Sequence<Sequence<Parcel>>), NoMemory>
    requires { HasText script.now × (0 < script.now.threads) × (script.now.threads ≤ 16) }
    ensures { IfOk result (λ r. IsWholeRun script.now r.0 r.1) }
{
    let mut opened = open(alloc, script)?;
    let admitted = play(rt, alloc, script, gate, &opened.place, &mut opened.hands)?;
    Ok((keep(alloc, opened)?, admitted))
}

/// Runs the script in lockstep, with one looper. For each block the threads put their posts into an inbox side by side, and the
/// looper admits them and posts them by its own poster; else it is as any run. A thread passes the gate before each of its posts,
/// and its passes are counted from 0 in each block. Lockstep and the inbox are this project's profile.
///
/// Bad where a line of the script is `loopers` with more than one, a `gauge` or an `on` line, or a command other than `post`,
/// `post-async`, `front` and `callback`. Else it is refused only when out of memory.
pub fn run_inbox<R: Threads + Wait + Sync, G: Gate + Sync>(
    rt: &R,
    alloc: Global,
    script: Script,
    gate: &G,
) -> InboxRan
    requires { HasText script }
    ensures runs { Runs script result }
    ensures bad { RefusesBad script result }
{
    if let Some(line) = bad_line(&script) {
        return InboxRan::Bad { line };
    }
    match run(rt, alloc, &script, gate) {
        Ok((kept, admitted)) => InboxRan::Ok(InboxReport {
            script,
            kept,
            admitted,
        }),
        Err(_) => InboxRan::NoMemory,
    }
}
