//! A screen's calls on its looper's own queue: those of a line.
ghost use Rattle.std.specs.Prelude.{IsTrue, true, false, OnErr, IfOk};
ghost use Rattle.loop_model.specs.Posts.{moment_after};
ghost use Rattle.handler_post.specs.Ways.{MadeNone};
ghost use Rattle.handler_post.specs.Sends.{Sends, Erases, Has};
ghost use Rattle.handler_post.specs.Unhandled.{Bars, Unbars, Quits};
ghost use Rattle.plain_loop.specs.Lines.{post_for, AtNow};
ghost use Rattle.frame_loop.specs.Screens.{IsScreen, KeepsCallbacks, screen_way};

use crate::screen::Screen;
use handler_post::{Erased, Quit, Sent};
use loop_io::Clock;
use loop_model::{Filter, NoMemory, Post};
use plain_loop::lent_line;
use queue_state::Recorder;
use std::sync::Wait;

impl<'a, 'b, R: Wait, C: Clock, E: Recorder> Screen<'a, 'b, R, C, E> {
    /// The time now (`SystemClock.uptimeMillis`).
    pub fn now(&self) -> u64
        ensures { IsTrue (C.shows self.now.clock.now result) }
    {
        self.clock.uptime_millis()
    }

    /// Sends this now (`sendMessage`, `post`).
    pub fn send(&mut self, post: Post) -> Sent
        requires { IsScreen self.old }
        ensures keeps { KeepsCallbacks self.old self.new }
        ensures sent { AtNow (C.shows self.old.clock.now) (λ now. Sends (post_for post now) (screen_way self.old) (screen_way self.new) result) }
    {
        let mut line = lent_line!(self, self);
        line.send(post)
    }

    /// Sends this for the moment `when` (`sendMessageAtTime`, `postAtTime`).
    pub fn send_at(&mut self, post: Post, when: u64) -> Sent
        requires { IsScreen self.old }
        ensures keeps { KeepsCallbacks self.old self.new }
        ensures sent { Sends (post_for post when) (screen_way self.old) (screen_way self.new) result }
    {
        let mut line = lent_line!(self, self);
        line.send_at(post, when)
    }

    /// Sends this for `delay` from now on, or for the last moment where that lies behind it (`sendMessageDelayed`, `postDelayed`).
    pub fn send_delayed(&mut self, post: Post, delay: u64) -> Sent
        requires { IsScreen self.old }
        ensures keeps { KeepsCallbacks self.old self.new }
        ensures sent { AtNow (C.shows self.old.clock.now) (λ now. Sends (post_for post (moment_after now delay)) (screen_way self.old) (screen_way self.new) result) }
    {
        let mut line = lent_line!(self, self);
        line.send_delayed(post, delay)
    }

    /// Sends this to the head of the queue (`sendMessageAtFrontOfQueue`, `postAtFrontOfQueue`).
    pub fn send_at_front(&mut self, post: Post) -> Sent
        requires { IsScreen self.old }
        ensures keeps { KeepsCallbacks self.old self.new }
        ensures sent { Sends (post_for post 0) (screen_way self.old) (screen_way self.new) result }
    {
        let mut line = lent_line!(self, self);
        line.send_at_front(post)
    }

    /// Removes the messages that are named (`removeMessages`, `removeCallbacks`, `removeCallbacksAndMessages`).
    pub fn remove(&mut self, filter: Filter) -> Erased
        requires { IsScreen self.old }
        ensures keeps { KeepsCallbacks self.old self.new }
        ensures erased { Erases filter (screen_way self.old) (screen_way self.new) result }
    {
        let mut line = lent_line!(self, self);
        line.remove(filter)
    }

    /// Whether some of what is named stands in the queue (`hasMessages`, `hasCallbacks`).
    pub fn has(&mut self, filter: Filter) -> bool
        requires { IsScreen self.old }
        ensures keeps { KeepsCallbacks self.old self.new }
        ensures has { Has filter (screen_way self.old) (screen_way self.new) result }
    {
        let mut line = lent_line!(self, self);
        line.has(filter)
    }

    /// Posts a barrier now, and answers its token (`MessageQueue.postSyncBarrier`).
    pub fn post_barrier(&mut self) -> Result<u64, NoMemory>
        requires { IsScreen self.old }
        ensures keeps { KeepsCallbacks self.old self.new }
        ensures barred { IfOk result (λ token. AtNow (C.shows self.old.clock.now) (λ now. Bars now token (screen_way self.old) (screen_way self.new))) }
        ensures none { OnErr result (MadeNone self.old.poster.now self.new.poster.now) }
    {
        let mut line = lent_line!(self, self);
        line.post_barrier()
    }

    /// Removes the barrier of the token, and answers whether there was one (`MessageQueue.removeSyncBarrier`).
    pub fn remove_barrier(&mut self, token: u64) -> Result<bool, NoMemory>
        requires { IsScreen self.old }
        ensures keeps { KeepsCallbacks self.old self.new }
        ensures unbarred { IfOk result (λ was. Unbars token was (screen_way self.old) (screen_way self.new)) }
        ensures none { OnErr result (MadeNone self.old.poster.now self.new.poster.now) }
    {
        let mut line = lent_line!(self, self);
        line.remove_barrier(token)
    }

    /// Quits: what is due now is still handled, and what is due later is dropped (`Looper.quitSafely`).
    pub fn quit_safely(&mut self) -> Quit
        requires { IsScreen self.old }
        ensures keeps { KeepsCallbacks self.old self.new }
        ensures quits { AtNow (C.shows self.old.clock.now) (λ now. Quits true now (screen_way self.old) (screen_way self.new) result) }
    {
        let mut line = lent_line!(self, self);
        line.quit_safely()
    }

    /// Quits: all is dropped (`Looper.quit`).
    pub fn quit(&mut self) -> Quit
        requires { IsScreen self.old }
        ensures keeps { KeepsCallbacks self.old self.new }
        ensures quits { AtNow (C.shows self.old.clock.now) (λ now. Quits false now (screen_way self.old) (screen_way self.new) result) }
    {
        let mut line = lent_line!(self, self);
        line.quit()
    }
}
