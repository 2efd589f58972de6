//! One call of a sender on a queue.
ghost use Rattle.std.specs.Prelude.{OnOk, OnErr};
ghost use Rattle.loop_model.specs.declared.call.Call.TheVariants.{Post as Posts, Remove};
ghost use Rattle.handler_post.specs.Ways.{IsReady};
ghost use Rattle.run_model.specs.Planned.{bare_call};
ghost use Rattle.dash_hall.specs.Growth.{CallsOnce, WayCalled, MayCall, no_token};
ghost use Rattle.dash_hall.specs.QueueCalls.{call_made, tokens_of, AnswersCall, IfSent, IfErased};

use crate::barriers::{post_barrier, quit, remove_barrier};
use handler_post::{Erased, Sent, Way};
use loop_model::{Filter, NoMemory, Post};
use message_pool::{Pool, PoolClaim, PoolPass};
use shared_queue::{Poster, SharedQueue};
use std::alloc::Global;
use std::sync::Wait;

/// A call that a sender makes on a queue. Moments are in milliseconds.
#[derive(Clone, Copy, Debug, PartialEq, Eq)]
pub enum QueueCall {
    /// `sendMessageAtTime` or `sendMessageAtFrontOfQueue` of this message.
    Send { post: Post },
    /// `removeMessages`, `removeCallbacks` or `removeCallbacksAndMessages`, of what the filter names.
    Remove { filter: Filter },
    /// `postSyncBarrier` at this moment.
    PostBarrier { now: u64 },
    /// `removeSyncBarrier` of this token.
    RemoveBarrier { token: u64 },
    /// `quit` at this moment, a safe one where `safe` is set.
    Quit { safe: bool, now: u64 },
}

/// Makes the call on this queue by this poster and this pass of the pool, and answers the token of a barrier that it posts. A refusal
/// stands in the history. NoMemory where it found none, of a quit only where it is refused: then it made no call.
pub fn perform<R: Wait>(
    rt: &R,
    alloc: Global,
    queue: &SharedQueue<PoolClaim>,
    poster: &mut Poster<PoolClaim>,
    pool: &Pool,
    pass: &mut PoolPass,
    call: QueueCall,
) -> Result<Option<u64>, NoMemory>
    requires { MayCall queue.now pool.now poster.old pass.old }
    ensures called { CallsOnce poster.old poster.new pass.old pass.new (call_made call) tokens_of result }
    ensures answered { AnswersCall call poster.old poster.new result }
{
    let mut way = Way {
        queue,
        poster,
        pool,
        pass,
    };
    match call {
        QueueCall::Send { post } => send(rt, alloc, &mut way, &post)?,
        QueueCall::Remove { filter } => remove(rt, &mut way, &filter)?,
        QueueCall::PostBarrier { now } => {
            let token = post_barrier(rt, alloc, &mut way, now)?;
            return Ok(Some(token));
        }
        QueueCall::RemoveBarrier { token } => remove_barrier(rt, &mut way, token)?,
        QueueCall::Quit { safe, now } => quit(rt, &mut way, safe, now)?,
    }
    Ok(None)
}

/// Sends this message. A refusal stands in the history. NoMemory where it found none: then it made no call.
pub fn send<R: Wait>(rt: &R, alloc: Global, way: &mut Way, post: &Post) -> Result<(), NoMemory>
    requires { IsReady way.old }
    ensures called { WayCalled way.old way.new (bare_call (Posts post.now)) no_token result }
{
    sent(way.send(rt, alloc, post))
}

fn sent(answer: Sent) -> Result<(), NoMemory>
    ensures ok { OnOk result (IfSent answer ⊥ (Unit {0})) }
    ensures err { OnErr result (IfSent answer (Unit {0}) ⊥) }
{
    match answer {
        Sent::Accepted { .. } | Sent::Refused { .. } => Ok(()),
        Sent::NoMemory => Err(NoMemory),
    }
}

/// Removes what the filter names. NoMemory where the entry found none: then it made no call.
fn remove<R: Wait>(rt: &R, way: &mut Way, filter: &Filter) -> Result<(), NoMemory>
    requires { IsReady way.old }
    ensures called { WayCalled way.old way.new (Remove filter.now) no_token result }
{
    erased(way.remove(rt, filter))
}

fn erased(answer: Erased) -> Result<(), NoMemory>
    ensures ok { OnOk result (IfErased answer ⊥ (Unit {0})) }
    ensures err { OnErr result (IfErased answer (Unit {0}) ⊥) }
{
    match answer {
        Erased::Removed { .. } => Ok(()),
        Erased::NoMemory => Err(NoMemory),
    }
}
