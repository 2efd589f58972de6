// A handler with a pool and a shared queue: what a thread posts by, and the looper's takes.

ghost use Rattle.std.specs.Prelude.{IfOk};
ghost use Rattle.handler_post.specs.Ways.{IsReady, IsSameWay};
ghost use Rattle.loop_bench.specs.Seated.{IsLastSender, IsOpened};

use crate::modes::{Counts, more, no_counts};
use handler_post::{Handler, Sent, Way};
use loop_model::NoMemory;
use message_pool::{Pool, PoolClaim, PoolPass};
use queue_state::Nexted;
use shared_queue::{Poster, SharedQueue};
use std::alloc::Global;
use std::sync::Wait;

/// So many entries a queue makes before it hands them out.
const PART: u64 = 4_096;

const HANDLER: Handler = Handler {
    id: 0,
    asynchronous: false,
};

/// A queue in free time with its looper's poster and the last one, which hands its entries out, and the pool of its messages.
#[derive(Drop)]
pub(crate) struct Opened {
    pub(crate) queue: SharedQueue<PoolClaim>,
    pub(crate) looper: Poster<PoolClaim>,
    pub(crate) last: Poster<PoolClaim>,
    pub(crate) pool: Pool,
    pub(crate) pass: PoolPass,
}

fn open(alloc: Global) -> Result<Opened, NoMemory>
    ensures { IfOk result IsOpened }
{
    let (pool, pass) = Pool::new(alloc)?;
    let (queue, mut posters) = SharedQueue::make(alloc, pool.home(), 0, false, false, 2)?;
    let last = posters.pop().unwrap();
    let looper = posters.pop().unwrap();
    Ok(Opened {
        queue,
        looper,
        last,
        pool,
        pass,
    })
}

/// Posts so many messages for this time. A queue that has quit refuses them, which counts as posted here.
fn post_each<R: Wait>(
    rt: &R,
    alloc: Global,
    way: &mut Way,
    now: u64,
    count: u64,
) -> Result<(), NoMemory>
    requires { IsReady way.old }
    ensures ready { IsReady way.new }
    ensures same { IsSameWay way.old way.new }
{
    for _ in 0..count {
        if HANDLER.send_at(rt, alloc, way, 1, 0, None, now) == Sent::NoMemory {
            return Err(NoMemory);
        }
    }
    Ok(())
}

/// Looks for a message that is due at this moment, recycles it, and tells whether one was taken.
fn take<R: Wait>(rt: &R, way: &mut Way, now: u64) -> bool
    requires { IsReady way.old }
    ensures ready { IsReady way.new }
    ensures same { IsSameWay way.old way.new }
{
    match way.poster.next(rt, way.queue, now, false) {
        Nexted::Taken { node, .. } => {
            way.pool.recycle(way.pass, node);
            true
        }
        _ => false,
    }
}

/// Looks so many times at this moment, and tells how many messages that took.
fn take_each<R: Wait>(rt: &R, way: &mut Way, now: u64, count: u64) -> u64
    requires { IsReady way.old }
    ensures ready { IsReady way.new }
    ensures same { IsSameWay way.old way.new }
{
    let mut taken = 0;
    for _ in 0..count {
        if take(rt, way, now) {
            taken = more(taken);
        }
    }
    taken
}

/// Hands the entries out and drops them, where so many have been made since.
fn forget<R: Wait>(
    rt: &R,
    queue: &SharedQueue<PoolClaim>,
    last: &mut Poster<PoolClaim>,
    since: u64,
) -> Result<u64, NoMemory>
    requires { IsLastSender queue.now last.old }
    ensures { IsLastSender queue.now last.new }
{
    if since < PART {
        return Ok(since);
    }
    match last.seal(rt, queue) {
        Ok(_) => Ok(0),
        Err(_) => Err(NoMemory),
    }
}

/// Posts so many messages for this time and takes them, and tells how many were taken.
fn send_and_take<R: Wait>(
    rt: &R,
    alloc: Global,
    opened: &mut Opened,
    now: u64,
    count: u64,
) -> Result<u64, NoMemory>
    requires { IsOpened opened.old }
    ensures { IsOpened opened.new }
{
    let mut way = Way {
        queue: &opened.queue,
        poster: &mut opened.looper,
        pool: &opened.pool,
        pass: &mut opened.pass,
    };
    post_each(rt, alloc, &mut way, now, count)?;
    Ok(take_each(rt, &mut way, now, count))
}

/// Posts messages through a handler, each for now, so many at a time, and takes them.
pub(crate) fn handled<R: Wait>(
    rt: &R,
    alloc: Global,
    count: u64,
    burst: u64,
) -> Result<Counts, NoMemory> {
    let mut opened = open(alloc)?;
    handle_all(rt, alloc, &mut opened, count, burst)
}

/// Does so on this queue.
fn handle_all<R: Wait>(
    rt: &R,
    alloc: Global,
    opened: &mut Opened,
    count: u64,
    burst: u64,
) -> Result<Counts, NoMemory>
    requires { IsOpened opened.old }
{
    let mut taken: u64 = 0;
    let mut since: u64 = 0;
    let burst = burst.min(count).max(1);
    let rounds = count / burst;
    for now in 0..rounds {
        taken = taken.saturating_add(send_and_take(rt, alloc, opened, now, burst)?);
        since = since.saturating_add(burst).saturating_add(burst);
        since = forget(rt, &opened.queue, &mut opened.last, since)?;
    }
    Ok(Counts {
        posted: rounds.saturating_mul(burst),
        taken,
        ..no_counts()
    })
}
