//! The calls of a sender that go by no handler: barriers and quits.
ghost use Rattle.std.specs.Prelude.{IfOk, OnOk, OnErr};
ghost use Rattle.loop_model.specs.declared.call.Call.TheVariants.{Barrier, Unbarrier, Quit};
ghost use Rattle.handler_post.specs.Ways.{IsReady};
ghost use Rattle.dash_hall.specs.Growth.{WayCalled, no_token, one_token, BarsOf, WayQuits, WayQuitsNot};

use handler_post::{Way, recycle_all};
use loop_model::NoMemory;
use message_pool::Obtained;
use queue_state::{BarrierGone, BarrierPosted, Quitting};
use std::alloc::Global;
use std::sync::Wait;

/// Posts a barrier at this moment, in milliseconds, and answers its token.
pub(crate) fn post_barrier<R: Wait>(
    rt: &R,
    alloc: Global,
    way: &mut Way,
    now: u64,
) -> Result<u64, NoMemory>
    requires { IsReady way.old }
    ensures called { WayCalled way.old way.new (Barrier 0) one_token result }
    ensures turn { IfOk result (λ token. BarsOf way.old.poster.now way.new.poster.now now token) }
{
    let node = match way.pool.obtain(alloc, way.pass) {
        Obtained::Pooled(node) => node,
        Obtained::Fresh { node, .. } => node,
        Obtained::NoMemory => return Err(NoMemory),
    };
    match way.poster.post_barrier(rt, way.queue, now, node) {
        BarrierPosted::Token { token } => Ok(token),
        BarrierPosted::NoMemory(node) => {
            way.pool.recycle(way.pass, node);
            Err(NoMemory)
        }
    }
}

/// Removes the barrier of the token, and recycles it. Where there is none, the history says so.
pub(crate) fn remove_barrier<R: Wait>(rt: &R, way: &mut Way, token: u64) -> Result<(), NoMemory>
    requires { IsReady way.old }
    ensures called { WayCalled way.old way.new (Unbarrier token) no_token result }
{
    match way.poster.remove_barrier(rt, way.queue, token) {
        BarrierGone::Unbarriered { node, .. } => {
            way.pool.recycle(way.pass, node);
            Ok(())
        }
        BarrierGone::NotPosted => Ok(()),
        BarrierGone::NoMemory => Err(NoMemory),
    }
}

/// Quits, at this moment in milliseconds, and recycles what is dropped: with `safe` what is due by then stays. Where the queue may not
/// quit or has quit, the history says so. NoMemory only there, where the entry that says so found none: then it made no call. As `quit`
/// and `quitSafely` of AOSP's `Looper`.
pub fn quit<R: Wait>(rt: &R, way: &mut Way, safe: bool, now: u64) -> Result<(), NoMemory>
    requires { IsReady way.old }
    ensures called { WayCalled way.old way.new (Quit safe 0) no_token result }
    ensures quits { OnOk result (WayQuits way.old way.new safe now) }
    ensures refused { OnErr result (WayQuitsNot way.old way.new safe now) }
{
    match way.poster.quit(rt, way.queue, safe, now) {
        Quitting::Done(left) => {
            recycle_all(way.pool, way.pass, left);
            Ok(())
        }
        Quitting::AlreadyQuit { .. } => Ok(()),
        Quitting::NotAllowed => Ok(()),
        Quitting::NoMemory => Err(NoMemory),
    }
}
