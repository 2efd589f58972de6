ghost use Rattle.std.specs.Prelude.{◌≡◌, ◌+◌, All, IfOk};
ghost use Rattle.message_pool.specs.Obtain.{IsNodeOf};

use loop_model::NoMemory;
use message_pool::{Obtained, Pool, PoolNode, PoolPass};
use std::alloc::{AllocError, Global};
use std::test::Fail;
use std::thread::{Threads, join};

// What some calls gave: the messages with a slot, and of each call that gave one without its last reading and its lost claims.
#[derive(Drop)]
struct Drawn {
    pass: PoolPass,
    nodes: Vec<PoolNode>,
    fresh: Vec<(u64, u32)>,
}

fn draw(pool: &Pool, mut pass: PoolPass, alloc: Global, count: u32) -> Result<Drawn, AllocError>
    requires { pass.home ≡ pool.now }
    ensures { IfOk result (λ d. (d.pass.home ≡ pool.now) × All (IsNodeOf pool.now) d.nodes.items) }
{
    let mut nodes = Vec::new(alloc);
    let mut fresh = Vec::new(alloc);
    for _ in 0..count {
        match pool.obtain(alloc, &mut pass) {
            Obtained::Pooled(node) => nodes.push(node)?,
            Obtained::Fresh { look, lost, .. } => fresh.push((look, lost))?,
            Obtained::NoMemory => return Err(AllocError),
        }
    }
    Ok(Drawn { pass, nodes, fresh })
}

// Recycles all.
fn give(pool: &Pool, drawn: Drawn) -> PoolPass
    requires { (drawn.pass.home ≡ pool.now) × All (IsNodeOf pool.now) drawn.nodes.items }
    ensures { result.home ≡ pool.now }
{
    let Drawn {
        mut pass,
        mut nodes,
        fresh: _,
    } = drawn;
    while let Some(node) = nodes.pop() {
        pool.recycle(&mut pass, node);
    }
    pass
}

// A set with a bit for each slot, or `None` where one comes twice.
fn slots(nodes: &[PoolNode]) -> Option<u64> {
    let mut seen: u64 = 0;
    for node in nodes {
        let slot = node.item().slot()?;
        if slot >= 50 || (seen >> slot) & 1 == 1 {
            return None;
        }
        seen |= 1 << slot;
    }
    Some(seen)
}

// Draws 30 times on each of two threads.
fn draw_on_two<R: Threads + Sync>(
    rt: &R,
    alloc: Global,
    pool: &Pool,
    pass: PoolPass,
    other: PoolPass,
) -> Result<(Drawn, Drawn), AllocError>
    requires { (pass.home ≡ pool.now) × (other.home ≡ pool.now) }
    ensures here { IfOk result (λ p. (p.0.pass.home ≡ pool.now) × All (IsNodeOf pool.now) p.0.nodes.items) }
    ensures there { IfOk result (λ p. (p.1.pass.home ≡ pool.now) × All (IsNodeOf pool.now) p.1.nodes.items) }
{
    let (here, there) = join(
        rt,
        || draw(pool, pass, alloc, 30),
        || draw(pool, other, alloc, 30),
    );
    match (here, there) {
        (Ok(here), Ok(there)) => Ok((here, there)),
        _ => Err(AllocError),
    }
}

// Whether each was made for a cause: no slot was free, or fifty claims were lost.
fn have_causes(fresh: &[(u64, u32)]) -> bool {
    fresh.iter().all(|(look, lost)| *look == 0 || *lost == 50)
}

#[test]
fn two_threads_share_the_slots(rt: HostRuntime) -> Result<(), Fail> {
    let (pool, mut pass) = Pool::new(rt.alloc())?;
    let other = pass.split(&pool);
    let (here, there) = draw_on_two(&rt, rt.alloc(), &pool, pass, other)?;
    let one = slots(here.nodes.as_slice()).unwrap_or(0);
    let two = slots(there.nodes.as_slice()).unwrap_or(0);
    assert!(rt; one & two == 0 && (one | two).count_ones() == 50);
    assert!(rt; here.fresh.len() + there.fresh.len() == 10);
    assert!(rt; have_causes(here.fresh.as_slice()) && have_causes(there.fresh.as_slice()));
    let mut pass = give(&pool, here);
    let other = give(&pool, there);
    pass.join(&pool, other);
    assert!(rt; pool.close(pass) == 50);
    Ok(())
}

// What one pass obtains another one recycles.
fn obtain_and_recycle(pool: &Pool, taker: &mut PoolPass, giver: &mut PoolPass, alloc: Global)
    requires { (taker.old.home ≡ pool.now) × (giver.old.home ≡ pool.now) }
    ensures home { (taker.new.home ≡ pool.now) × (giver.new.home ≡ pool.now) }
    ensures share { (taker.new.share ≡ taker.old.share) × (giver.new.share ≡ giver.old.share) }
    ensures all { taker.new.taken + giver.new.taken + taker.old.back + giver.old.back ≡ taker.old.taken + giver.old.taken + taker.new.back + giver.new.back }
{
    match pool.obtain(alloc, taker) {
        Obtained::Pooled(node) => pool.recycle(giver, node),
        Obtained::Fresh { node, .. } => pool.recycle(giver, node),
        Obtained::NoMemory => {}
    }
}

// All slots are free where all messages came back, whichever pass brought them, and all passes were joined.
fn all_come_back(alloc: Global) -> Result<u32, NoMemory>
    ensures { IfOk result (λ free. free ≡ 50) }
{
    let (pool, mut pass) = Pool::new(alloc)?;
    let mut other = pass.split(&pool);
    obtain_and_recycle(&pool, &mut pass, &mut other, alloc);
    obtain_and_recycle(&pool, &mut other, &mut pass, alloc);
    pass.join(&pool, other);
    Ok(pool.close(pass))
}

#[test]
fn slots_are_drawn_once_and_given_back(rt: HostRuntime) -> Result<(), Fail> {
    let alloc = rt.alloc();
    let all = Some((1 << 50) - 1);
    let (pool, pass) = Pool::new(alloc)?;
    let drawn = draw(&pool, pass, alloc, 51)?;
    assert!(rt;
        slots(drawn.nodes.as_slice()) == all && drawn.fresh.as_slice() == [(0, 0)].as_slice()
    );
    let again = draw(&pool, give(&pool, drawn), alloc, 50)?;
    assert!(rt;
        slots(again.nodes.as_slice()) == all,
        "recycled slots are free again"
    );
    assert!(rt; pool.close(again.pass) == 0, "none was given back");
    let (pool, mut pass) = Pool::new(alloc)?;
    drop(pool.obtain(alloc, &mut pass));
    let drawn = draw(&pool, pass, alloc, 50)?;
    assert!(rt;
        drawn.nodes.len() == 49,
        "a dropped message leaves its slot out"
    );
    assert!(rt; all_come_back(alloc)? == 50);
    Ok(())
}
