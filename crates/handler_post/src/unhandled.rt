//! The calls by a way that name no handler: posts and filters as they are, barriers, and quits.
ghost use Rattle.handler_post.specs.Ways.{IsReady, ByWay};
ghost use Rattle.handler_post.specs.Sends.{Sends, Erases, Has, TellsIdle};
ghost use Rattle.handler_post.specs.Unhandled.{WayBars, WayUnbars, Quits};

use crate::supply::{message_of, recycle_all};
use crate::way::{Erased, Sent, Way};
use loop_model::{Filter, NoMemory, Post};
use message_pool::{Obtained, Payload};
use queue_state::{BarrierGone, BarrierPosted, Posted, Quitting, Recorder, Taking};
use std::alloc::Global;
use std::sync::Wait;

/// How a quit ended.
#[derive(Clone, Copy, Debug, PartialEq, Eq)]
pub enum Quit {
    /// It is the first. So many messages were dropped, and recycled.
    Done { dropped: u64 },
    /// A quit was done before, by the entry at this place of the history.
    AlreadyQuit { place: u64 },
    /// The queue of the main looper may not quit.
    NotAllowed,
    /// It comes only where the quit is refused.
    NoMemory,
}

impl<'a, E: Recorder, P: Payload> Way<'a, E, P> {
    /// Obtains a message, makes it this post, whatever handler it names, and posts it. A message that the queue doesn't keep is recycled
    /// (`enqueueMessage`).
    pub fn send<R: Wait>(&mut self, rt: &R, alloc: Global, post: &Post) -> Sent
        requires { IsReady self.old }
        ensures { ByWay (Sends post.now) self.old self.new result }
    {
        let Some(node) = message_of(alloc, self.pool, self.pass, post) else {
            return Sent::NoMemory;
        };
        match self.poster.post(rt, self.queue, node) {
            Posted::Accepted { number, wake } => Sent::Accepted { number, wake },
            Posted::Refused { place, node } => {
                self.pool.recycle(self.pass, node);
                Sent::Refused { place }
            }
            Posted::NoMemory(node) => {
                self.pool.recycle(self.pass, node);
                Sent::NoMemory
            }
        }
    }

    /// Removes the messages that the filter names, and recycles them.
    pub fn remove<R: Wait>(&mut self, rt: &R, filter: &Filter) -> Erased
        requires { IsReady self.old }
        ensures { ByWay (Erases filter.now) self.old self.new result }
    {
        match self.poster.remove(rt, self.queue, filter) {
            Taking::Removed(nodes) => {
                let count = nodes.len() as u64;
                recycle_all(self.pool, self.pass, nodes);
                Erased::Removed { count }
            }
            Taking::NoMemory => Erased::NoMemory,
        }
    }

    /// Whether a message that the filter names stands in the queue. It makes no entry.
    pub fn has<R: Wait>(&mut self, rt: &R, filter: &Filter) -> bool
        requires { IsReady self.old }
        ensures { ByWay (Has filter.now) self.old self.new result }
    {
        self.poster.has(rt, self.queue, filter)
    }

    /// Whether nothing stands at the head of the queue, or the head is later than `now`, in milliseconds; a barrier is a head too
    /// (`isIdle` of the Android API reference's `MessageQueue`). It makes no entry.
    pub fn is_idle<R: Wait>(&mut self, rt: &R, now: u64) -> bool
        requires { IsReady self.old }
        ensures { ByWay (TellsIdle now) self.old self.new result }
    {
        self.poster.is_idle(rt, self.queue, now)
    }

    /// Posts a barrier at this moment, in milliseconds, and answers its token: from then on the queue holds back what comes behind it
    /// and is not asynchronous (`postSyncBarrier`). NoMemory where the message or its entry found none; then it made none.
    pub fn post_barrier<R: Wait>(
        &mut self,
        rt: &R,
        alloc: Global,
        now: u64,
    ) -> Result<u64, NoMemory>
        requires { IsReady self.old }
        ensures { ByWay (WayBars now) self.old self.new result }
    {
        let node = match self.pool.obtain(alloc, self.pass) {
            Obtained::Pooled(node) => node,
            Obtained::Fresh { node, .. } => node,
            Obtained::NoMemory => return Err(NoMemory),
        };
        match self.poster.post_barrier(rt, self.queue, now, node) {
            BarrierPosted::Token { token } => Ok(token),
            BarrierPosted::NoMemory(node) => {
                self.pool.recycle(self.pass, node);
                Err(NoMemory)
            }
        }
    }

    /// Removes the barrier of the token and recycles it, and answers whether there was one; either stands in the history
    /// (`removeSyncBarrier`). NoMemory where the entry found none; then it made none.
    pub fn remove_barrier<R: Wait>(&mut self, rt: &R, token: u64) -> Result<bool, NoMemory>
        requires { IsReady self.old }
        ensures { ByWay (WayUnbars token) self.old self.new result }
    {
        match self.poster.remove_barrier(rt, self.queue, token) {
            BarrierGone::Unbarriered { node, .. } => {
                self.pool.recycle(self.pass, node);
                Ok(true)
            }
            BarrierGone::NotPosted => Ok(false),
            BarrierGone::NoMemory => Err(NoMemory),
        }
    }

    /// Quits at this moment, in milliseconds, and recycles what is dropped: with `safe` what is due by then stays (`quitSafely`), else
    /// nothing (`quit`).
    pub fn quit<R: Wait>(&mut self, rt: &R, safe: bool, now: u64) -> Quit
        requires { IsReady self.old }
        ensures { ByWay (Quits safe now) self.old self.new result }
    {
        match self.poster.quit(rt, self.queue, safe, now) {
            Quitting::Done(left) => {
                let dropped = left.len() as u64;
                recycle_all(self.pool, self.pass, left);
                Quit::Done { dropped }
            }
            Quitting::AlreadyQuit { place } => Quit::AlreadyQuit { place },
            Quitting::NotAllowed => Quit::NotAllowed,
            Quitting::NoMemory => Quit::NoMemory,
        }
    }
}
