//! The looper on which a choreographer runs, as the choreographer sees it.
ghost use Rattle.std.specs.Prelude.{◌≡◌, ◌<◌, Some, IfOk, OnOk, OnErr};
ghost use mathlib.Core.List.{IsPrefix};
ghost use Rattle.loop_model.specs.declared.call.Call.TheVariants.{Barrier, Unbarrier};
ghost use Rattle.choreographer.specs.Known.{IsPassOf, MayDeliver, MayBegin};
ghost use Rattle.choreographer.specs.Within.{InFrame, MayTake, BegunAt, IfBegan, TakenAt};
ghost use Rattle.choreographer.specs.Calls.{PulsedBy, HasPulse, DueBy, stamp_in};
ghost use Rattle.dash_hall.specs.Growth.{GoesOn, CallsOnce, no_token, one_token, BarsOf};
ghost use Rattle.dash_hall.specs.Kits.{frame_badge_of};
ghost use Rattle.dash_hall.specs.Hosts.{HostOrigin, origin_now, IsHostNow, StaysHost, sends_of, IsPlaced, IsUnplaced, PlacesBy, PlacesNot};

use crate::barriers::{post_barrier, remove_barrier};
use crate::uptime::{Still, Uptime};
use choreographer::{
    Choreographer, FrameHost, FramePass, HostSent, NANOS_PER_MILLI, Placed, Pulse,
};
use frame_phases::{Beginning, Took};
use handler_post::{Handler, Sent, Way};
use loop_model::NoMemory;
use message_pool::{Pool, PoolClaim, PoolPass};
use shared_queue::{Poster, SharedQueue};
use std::alloc::Global;
use std::snapshot::Snapshot;
use std::sync::Wait;

/// A sender's way to a looper's queue, by which the choreographer sends its messages, at a moment in milliseconds, and an uptime that the
/// choreographer reads.
#[derive(Drop)]
pub struct Host<'a, R: Wait, U: Uptime> {
    /// What locks and waits go through.
    pub rt: &'a R,
    /// Where memory comes from.
    pub alloc: Global,
    /// The handler that the messages are for.
    pub handler: Handler,
    /// The queue that they are sent to.
    pub queue: &'a SharedQueue<PoolClaim>,
    /// The pool that they come from.
    pub pool: &'a Pool,
    /// The sender's poster of the queue.
    pub poster: &'a mut Poster<PoolClaim>,
    /// The sender's pass of the pool.
    pub pass: &'a mut PoolPass,
    /// The poster as it was when the host was made.
    pub began: &'a Snapshot<Poster<PoolClaim>>,
    /// The pass as it was when the host was made.
    pub pass_began: &'a Snapshot<PoolPass>,
    /// The moment of its calls on the queue, in milliseconds.
    pub now: u64,
    /// The uptime that the choreographer reads.
    pub uptime: &'a U,
}

impl<'a, R: Wait, U: Uptime> FrameHost for Host<'a, R, U> {
    ghost Origin = { HostOrigin U };

    ghost origin = { λ h. origin_now h };

    ghost Ready = { λ h. IsHostNow h };

    ghost is_moment = { λ h. U.is_moment h.uptime.now };

    ghost sends = { λ h. sends_of h };

    ghost Reads = { λ h n k. k ≡ h };

    fn now_nanos(&mut self) -> u64 {
        self.uptime.now_millis().saturating_mul(NANOS_PER_MILLI)
    }

    fn send(&mut self, what: u32, arg: u32, when: u64) -> HostSent {
        let mut way = Way {
            queue: self.queue,
            poster: self.poster,
            pool: self.pool,
            pass: self.pass,
        };
        match self
            .handler
            .send_async_at(self.rt, self.alloc, &mut way, what, arg, when)
        {
            Sent::Accepted { .. } => HostSent::Accepted,
            Sent::Refused { .. } => HostSent::Refused,
            Sent::NoMemory => HostSent::NoMemory,
        }
    }
}

impl<'a, R: Wait, U: Uptime> Host<'a, R, U> {
    /// Posts a barrier at the host's moment, and answers its token. NoMemory where it found none.
    pub fn post_barrier(&mut self) -> Result<u64, NoMemory>
        requires { IsHostNow self.old }
        ensures stays { StaysHost self.old self.new }
        ensures called { CallsOnce self.old.poster.now self.new.poster.now self.old.pass.now self.new.pass.now (Barrier 0) one_token result }
        ensures turn { IfOk result (λ token. BarsOf self.old.poster.now self.new.poster.now self.old.now token) }
    {
        let mut way = Way {
            queue: self.queue,
            poster: self.poster,
            pool: self.pool,
            pass: self.pass,
        };
        post_barrier(self.rt, self.alloc, &mut way, self.now)
    }

    /// Removes the barrier of the token. Where there is none, the history says so. NoMemory where it found none.
    pub fn remove_barrier(&mut self, token: u64) -> Result<(), NoMemory>
        requires { IsHostNow self.old }
        ensures stays { StaysHost self.old self.new }
        ensures called { CallsOnce self.old.poster.now self.new.poster.now self.old.pass.now self.new.pass.now (Unbarrier token) no_token result }
    {
        let mut way = Way {
            queue: self.queue,
            poster: self.poster,
            pool: self.pool,
            pass: self.pass,
        };
        remove_barrier(self.rt, &mut way, token)
    }

    /// Delivers the pulse that is asked for at the choreographer, and answers it. None where none is asked for, or it has not come
    /// yet. The pass is one of the choreographer, and the one that alone delivers pulses, where there is such a one.
    pub fn deliver(&mut self, c: &Choreographer, pass: &mut FramePass) -> Option<Pulse>
        requires ready { IsHostNow self.old }
        requires pass { IsPassOf pass.old c.now }
        requires delivers { MayDeliver pass.old c.now }
        ensures stays { StaysHost self.old self.new }
        ensures pass { frame_badge_of pass.new ≡ frame_badge_of pass.old }
        ensures pulse { PulsedBy pass.old pass.new (U.is_moment self.old.uptime.now) (sends_of self.old) (sends_of self.new) result }
        ensures latest { HasPulse c.now.constants.interval pass.old pass.new (stamp_in result) }
    {
        c.on_vsync(self.rt, pass, self)
    }

    /// Schedules a frame where the phase has a due callback and none is scheduled, and answers whether it did (`doScheduleCallback` of
    /// AOSP's `Choreographer`). The pass is one of the choreographer, and the phase one of its phases.
    pub fn on_due(&mut self, c: &Choreographer, pass: &mut FramePass, phase: u32) -> bool
        requires ready { IsHostNow self.old }
        requires pass { IsPassOf pass.old c.now × (phase < c.now.constants.phases) }
        ensures stays { StaysHost self.old self.new }
        ensures pass { frame_badge_of pass.new ≡ frame_badge_of pass.old }
        ensures due { DueBy pass.old pass.new (U.is_moment self.old.uptime.now) phase result }
        ensures seen { IsPrefix pass.old.view.seen pass.new.view.seen }
        ensures sends { sends_of self.new ≡ sends_of self.old }
    {
        c.on_due(self.rt, pass, self, phase)
    }

    /// Begins the frame that is to begin, by a start that the uptime gives, or answers why not. It calls nothing on its queue. The pass
    /// is one of the choreographer, and the one that alone delivers pulses, where there is such a one: then a pulse came whose frame has
    /// neither begun nor would have gone back.
    pub fn begin_frame(&mut self, c: &Choreographer, pass: &mut FramePass) -> Beginning
        requires ready { IsHostNow self.old }
        requires pass { IsPassOf pass.old c.now }
        requires begins { MayBegin pass.old c.now }
        ensures same { self.new ≡ self.old }
        ensures turn { BegunAt (U.is_moment self.old.uptime.now) pass.old pass.new result }
        ensures frame { IfBegan result (InFrame c.now.constants.phases pass.new (Some 0)) }
    {
        c.begin_frame(self.rt, pass, self)
    }

    /// Takes the phase that is next of the frame that the pass has in progress, at a moment that the uptime gives. It calls nothing on its
    /// queue.
    pub fn take_phase(&mut self, c: &Choreographer, pass: &mut FramePass, phase: u32) -> Took
        requires ready { IsHostNow self.old }
        requires takes { MayTake c.now phase pass.old × (phase < c.now.constants.phases) }
        ensures same { self.new ≡ self.old }
        ensures turn { TakenAt (U.is_moment self.old.uptime.now) c.now.constants.phases phase pass.old pass.new result }
    {
        c.take_phase(self.rt, pass, self, phase)
    }

    /// Posts a frame callback for `delay` milliseconds after the host's moment, by which it goes in place of its uptime. A refused message for its due time stands in the history. The pass
    /// is one of the choreographer, and the phase one of its phases. NoMemory where it found none: then it sent no message.
    pub fn post_callback(
        &mut self,
        c: &Choreographer,
        pass: &mut FramePass,
        phase: u32,
        id: u64,
        delay: u64,
    ) -> Result<(), NoMemory>
        requires ready { IsHostNow self.old }
        requires pass { IsPassOf pass.old c.now × (phase < c.now.constants.phases) }
        ensures stays { StaysHost self.old self.new }
        ensures pass { frame_badge_of pass.new ≡ frame_badge_of pass.old }
        ensures on { GoesOn self.old.poster.now self.new.poster.now self.old.pass.now self.new.pass.now }
        ensures turn { OnOk result (PlacesBy pass.old pass.new self.old.now (sends_of self.old) (sends_of self.new) phase id delay) }
        ensures none { OnErr result (PlacesNot pass.old pass.new self.old.now (sends_of self.old) (sends_of self.new) phase id delay) }
    {
        let began = Snapshot::of(&*self.poster);
        let pass_began = Snapshot::of(&*self.pass);
        let still = Still { now: self.now };
        let mut here = Host {
            rt: self.rt,
            alloc: self.alloc,
            handler: self.handler,
            queue: self.queue,
            pool: self.pool,
            poster: self.poster,
            pass: self.pass,
            began: &began,
            pass_began: &pass_began,
            now: self.now,
            uptime: &still,
        };
        placed(c.post_callback(self.rt, pass, &mut here, phase, id, None, delay))
    }
}

/// Ok unless memory ran out.
fn placed(answer: Placed) -> Result<(), NoMemory>
    ensures ok { OnOk result (IsPlaced answer) }
    ensures err { OnErr result (IsUnplaced answer) }
{
    match answer {
        Placed::Asked => Ok(()),
        Placed::Sent => Ok(()),
        Placed::Already => Ok(()),
        Placed::Refused => Ok(()),
        Placed::NoMemory => Err(NoMemory),
    }
}
