//! A line to a looper's queue: a way to post, with what it asks for beside.
ghost use Rattle.std.specs.Prelude.{◌≡◌, IsTrue, true, false, OnErr, IfOk};
ghost use Rattle.loop_model.specs.Posts.{moment_after};
ghost use Rattle.handler_post.specs.Ways.{IsReady, MadeNone};
ghost use Rattle.handler_post.specs.Sends.{Sends, Erases, Has, TellsIdle};
ghost use Rattle.handler_post.specs.Unhandled.{Bars, Unbars, Quits};
ghost use Rattle.plain_loop.specs.Lines.{KeepsLine, post_for, way_of, AtNow};

use handler_post::{Erased, Quit, Sent, Way};
use loop_io::Clock;
use loop_model::{Filter, NoMemory, Post};
use message_pool::{Payload, Pool, PoolClaim, PoolPass};
use queue_state::{Recorder, Unkept};
use shared_queue::{Poster, SharedQueue};
use std::alloc::Global;
use std::sync::Wait;

/// A way to post, with what locks and waits go through, where memory comes from, and the clock that tells the time. Moments and
/// delays are milliseconds of uptime. What is posted is made by a `Handler`, as `handler.obtain(what, arg)` and
/// `handler.runnable(callback)`, and what is removed or asked for is named by it, as `handler.messages(what)`. The methods in
/// brackets are those of the Android API reference's `Handler`. The queue's entries go where `E` says.
#[derive(Drop)]
pub struct Line<'a, R: Wait, C: Clock, E: Recorder = Unkept, P: Payload = ()> {
    /// What locks and waits go through.
    pub rt: &'a R,
    /// Where memory comes from.
    pub alloc: Global,
    /// The clock.
    pub clock: &'a C,
    /// The queue.
    pub queue: &'a SharedQueue<PoolClaim<P>, E>,
    /// The thread's poster of the queue.
    pub poster: &'a mut Poster<PoolClaim<P>, E>,
    /// The pool that messages come from and go back to.
    pub pool: &'a Pool<P>,
    /// The thread's pass of the pool.
    pub pass: &'a mut PoolPass<P>,
}

/// The line of a mailbox, or of what else has its fields, by the poster and the pass of what is lent. It is no function, since what calls on
/// a line leave behind its references is told only where the line was made (this project's profile).
#[macro_export]
macro_rules! lent_line {
    ($of:expr, $lent:expr) => {
        $crate::Line {
            rt: $of.rt,
            alloc: $of.alloc,
            clock: $of.clock,
            queue: $of.queue,
            poster: $lent.poster,
            pool: $of.pool,
            pass: $lent.pass,
        }
    };
}

// The way of a line.
macro_rules! lent_way {
    ($line:expr) => {
        Way {
            queue: $line.queue,
            poster: $line.poster,
            pool: $line.pool,
            pass: $line.pass,
        }
    };
}

pub(crate) use lent_way;

pub(crate) fn due(post: Post, when: u64) -> Post
    ensures { result ≡ post_for post when }
{
    Post { when, ..post }
}

impl<'a, R: Wait, C: Clock, E: Recorder, P: Payload> Line<'a, R, C, E, P> {
    /// The time now (`SystemClock.uptimeMillis`).
    pub fn now(&self) -> u64
        ensures { IsTrue (C.shows self.now.clock.now result) }
    {
        self.clock.uptime_millis()
    }

    /// Sends this now (`sendMessage`, `post`).
    pub fn send(&mut self, post: Post) -> Sent
        requires { IsReady (way_of self.old) }
        ensures keeps { KeepsLine (way_of self.old) (way_of self.new) }
        ensures sent { AtNow (C.shows self.old.clock.now) (λ now. Sends (post_for post now) (way_of self.old) (way_of self.new) result) }
    {
        let now = self.clock.uptime_millis();
        self.send_at(post, now)
    }

    /// Sends this for the moment `when` (`sendMessageAtTime`, `postAtTime`).
    pub fn send_at(&mut self, post: Post, when: u64) -> Sent
        requires { IsReady (way_of self.old) }
        ensures keeps { KeepsLine (way_of self.old) (way_of self.new) }
        ensures sent { Sends (post_for post when) (way_of self.old) (way_of self.new) result }
    {
        let due = due(post, when);
        let mut way = lent_way!(self);
        way.send(self.rt, self.alloc, &due)
    }

    /// Sends this for `delay` from now on, or for the last moment where that lies behind it (`sendMessageDelayed`, `postDelayed`).
    pub fn send_delayed(&mut self, post: Post, delay: u64) -> Sent
        requires { IsReady (way_of self.old) }
        ensures keeps { KeepsLine (way_of self.old) (way_of self.new) }
        ensures sent { AtNow (C.shows self.old.clock.now) (λ now. Sends (post_for post (moment_after now delay)) (way_of self.old) (way_of self.new) result) }
    {
        let now = self.clock.uptime_millis();
        self.send_at(post, now.saturating_add(delay))
    }

    /// Sends this to the head of the queue (`sendMessageAtFrontOfQueue`, `postAtFrontOfQueue`).
    pub fn send_at_front(&mut self, post: Post) -> Sent
        requires { IsReady (way_of self.old) }
        ensures keeps { KeepsLine (way_of self.old) (way_of self.new) }
        ensures sent { Sends (post_for post 0) (way_of self.old) (way_of self.new) result }
    {
        self.send_at(post, 0)
    }

    /// Removes what is named (`removeMessages`, `removeCallbacks`, `removeCallbacksAndMessages`).
    pub fn remove(&mut self, filter: Filter) -> Erased
        requires { IsReady (way_of self.old) }
        ensures keeps { KeepsLine (way_of self.old) (way_of self.new) }
        ensures erased { Erases filter (way_of self.old) (way_of self.new) result }
    {
        let mut way = lent_way!(self);
        way.remove(self.rt, &filter)
    }

    /// Whether some of what is named stands in the queue (`hasMessages`, `hasCallbacks`).
    pub fn has(&mut self, filter: Filter) -> bool
        requires { IsReady (way_of self.old) }
        ensures keeps { KeepsLine (way_of self.old) (way_of self.new) }
        ensures has { Has filter (way_of self.old) (way_of self.new) result }
    {
        let mut way = lent_way!(self);
        way.has(self.rt, &filter)
    }

    /// Whether nothing stands at the head of the queue, or the head is later than now (`MessageQueue.isIdle`).
    pub fn is_idle(&mut self) -> bool
        requires { IsReady (way_of self.old) }
        ensures keeps { KeepsLine (way_of self.old) (way_of self.new) }
        ensures idle { AtNow (C.shows self.old.clock.now) (λ now. TellsIdle now (way_of self.old) (way_of self.new) result) }
    {
        let now = self.clock.uptime_millis();
        let mut way = lent_way!(self);
        way.is_idle(self.rt, now)
    }

    /// Posts a barrier now, and answers its token (`MessageQueue.postSyncBarrier`).
    pub fn post_barrier(&mut self) -> Result<u64, NoMemory>
        requires { IsReady (way_of self.old) }
        ensures keeps { KeepsLine (way_of self.old) (way_of self.new) }
        ensures barred { IfOk result (λ token. AtNow (C.shows self.old.clock.now) (λ now. Bars now token (way_of self.old) (way_of self.new))) }
        ensures none { OnErr result (MadeNone self.old.poster.now self.new.poster.now) }
    {
        let now = self.clock.uptime_millis();
        let mut way = lent_way!(self);
        way.post_barrier(self.rt, self.alloc, now)
    }

    /// Removes the barrier of the token, and answers whether there was one (`MessageQueue.removeSyncBarrier`).
    pub fn remove_barrier(&mut self, token: u64) -> Result<bool, NoMemory>
        requires { IsReady (way_of self.old) }
        ensures keeps { KeepsLine (way_of self.old) (way_of self.new) }
        ensures unbarred { IfOk result (λ was. Unbars token was (way_of self.old) (way_of self.new)) }
        ensures none { OnErr result (MadeNone self.old.poster.now self.new.poster.now) }
    {
        let mut way = lent_way!(self);
        way.remove_barrier(self.rt, token)
    }

    /// Quits: what is due now is still handled, and what is due later is dropped (`Looper.quitSafely`).
    pub fn quit_safely(&mut self) -> Quit
        requires { IsReady (way_of self.old) }
        ensures keeps { KeepsLine (way_of self.old) (way_of self.new) }
        ensures quits { AtNow (C.shows self.old.clock.now) (λ now. Quits true now (way_of self.old) (way_of self.new) result) }
    {
        self.end(true)
    }

    /// Quits: all is dropped (`Looper.quit`).
    pub fn quit(&mut self) -> Quit
        requires { IsReady (way_of self.old) }
        ensures keeps { KeepsLine (way_of self.old) (way_of self.new) }
        ensures quits { AtNow (C.shows self.old.clock.now) (λ now. Quits false now (way_of self.old) (way_of self.new) result) }
    {
        self.end(false)
    }

    // Quits, with what is due now still handled where this is safe.
    fn end(&mut self, safe: bool) -> Quit
        requires { IsReady (way_of self.old) }
        ensures keeps { KeepsLine (way_of self.old) (way_of self.new) }
        ensures quits { AtNow (C.shows self.old.clock.now) (λ now. Quits safe now (way_of self.old) (way_of self.new) result) }
    {
        let now = self.clock.uptime_millis();
        let mut way = lent_way!(self);
        way.quit(self.rt, safe, now)
    }
}
