//! The queue of the main looper in an inbox run, with the looper's and the controller's way to it.
ghost use Rattle.std.specs.Prelude.{◌≡◌, ◌+◌, true, false, Option, IfSome, OnOk};
ghost use Rattle.loop_model.specs.Items.{is_barrier};
ghost use Rattle.message_pool.specs.Obtain.{IsNodeOf};
ghost use Rattle.shared_queue.specs.Known.{IsOf};
ghost use Rattle.inbox_queue.specs.MainQueue.{HandsAreAt, HeardEachOther, AreSameHands, IsSameButLooper, threads_of, seen, Leads, LooksOn, MovesTime, GrowsByEntry, IsPostOf, IsHaltAt, HasDrained, HasMoved, HasPosted, HasHalted, IsEarlier, time_after};
ghost use Rattle.inbox_queue.specs.Turned.{LookedBy, MovedBy, PostsBy, HasFields};

use crate::parcel::Parcel;
use loop_model::{NoMemory, Post};
use message_pool::{Obtained, Pool, PoolClaim, PoolNode, PoolPass};
use queue_state::{Advancing, Halting, Nexted, Posted};
use shared_queue::{Poster, SharedQueue};
use std::alloc::Global;
use std::sync::Wait;

/// The queue and the pool of its messages.
#[derive(Drop)]
pub(crate) struct Place {
    pub(crate) queue: SharedQueue<PoolClaim>,
    pub(crate) pool: Pool,
}

/// The posters of the looper and of the controller, and a pass of the pool. After each call each poster has heard the other.
#[derive(Drop)]
pub(crate) struct Hands {
    pub(crate) looper: Poster<PoolClaim>,
    pub(crate) controller: Poster<PoolClaim>,
    pub(crate) pass: PoolPass,
}

/// How the time was moved on.
#[derive(Clone, Copy)]
enum Move {
    /// The queue's time is this or later.
    There,
    /// A message is due, so it stays.
    Stays,
    NoMemory,
}

/// How a look for a message ended.
#[derive(Clone, Copy)]
enum Look {
    /// A message was taken and recycled.
    Taken,
    /// Nothing is due until this moment in milliseconds, or without limit.
    Waits { until: Option<u64> },
    /// Nothing came of it.
    Other,
}

impl Place {
    /// A message with these fields, from the pool. None where a new one found no memory.
    fn message(&self, alloc: Global, pass: &mut PoolPass, post: &Post) -> Option<PoolNode>
        requires { pass.old.home ≡ self.now.pool }
        ensures home { pass.new.home ≡ self.now.pool }
        ensures node { IfSome result (λ node. HasFields post.now node × (is_barrier node.item ≡ false) × IsNodeOf self.now.pool node) }
    {
        let mut node = match self.pool.obtain(alloc, pass) {
            Obtained::Pooled(node) => node,
            Obtained::Fresh { node, .. } => node,
            Obtained::NoMemory => return None,
        };
        node.item_mut().set_post(post);
        Some(node)
    }

    /// Each of the two posters hears the other.
    fn share(&self, hands: &mut Hands)
        requires { IsOf hands.old.looper self.now.queue × IsOf hands.old.controller self.now.queue }
        ensures same { AreSameHands hands.old hands.new }
        ensures looper { HeardEachOther hands.old.controller.view.seen (seen hands.old) (seen hands.new) hands.new.controller.view.seen }
        ensures controller { HeardEachOther (seen hands.old) hands.old.controller.view.seen (seen hands.new) hands.new.controller.view.seen }
    {
        hands.controller.hear(&self.queue, &mut hands.looper);
        hands.looper.hear(&self.queue, &mut hands.controller);
    }

    /// The looper posts a message with these fields, and the controller doesn't hear of it yet.
    fn post_once<R: Wait>(
        &self,
        rt: &R,
        alloc: Global,
        hands: &mut Hands,
        post: &Post,
    ) -> Result<(), NoMemory>
        requires { HandsAreAt self.now hands.old }
        ensures kept { IsSameButLooper self.now hands.old hands.new }
        ensures done { OnOk result (PostsBy post.now hands.old.looper hands.new.looper) }
    {
        let Some(node) = self.message(alloc, &mut hands.pass, post) else {
            return Err(NoMemory);
        };
        match hands.looper.post(rt, &self.queue, node) {
            Posted::Accepted { .. } => Ok(()),
            Posted::Refused { node, .. } => {
                self.pool.recycle(&mut hands.pass, node);
                Ok(())
            }
            Posted::NoMemory(node) => {
                self.pool.recycle(&mut hands.pass, node);
                Err(NoMemory)
            }
        }
    }

    /// The looper posts a message with these fields.
    fn post<R: Wait>(
        &self,
        rt: &R,
        alloc: Global,
        hands: &mut Hands,
        post: &Post,
    ) -> Result<(), NoMemory>
        requires { HandsAreAt self.now hands.old }
        ensures at { OnOk result (HandsAreAt self.now hands.new × (threads_of hands.new ≡ threads_of hands.old)) }
        ensures made { OnOk result (Leads (GrowsByEntry (threads_of hands.old) (IsPostOf post.now)) hands.old hands.new) }
    {
        self.post_once(rt, alloc, hands, post)?;
        self.share(hands);
        Ok(())
    }

    /// The looper posts what these parcels hold, in order.
    pub(crate) fn post_all<R: Wait>(
        &self,
        rt: &R,
        alloc: Global,
        hands: &mut Hands,
        parcels: &[Parcel],
    ) -> Result<(), NoMemory>
        requires { HandsAreAt self.now hands.old }
        ensures at { OnOk result (HandsAreAt self.now hands.new × (threads_of hands.new ≡ threads_of hands.old)) }
        ensures made { OnOk result (Leads (HasPosted (threads_of hands.old) parcels.now) hands.old hands.new) }
    {
        for parcel in parcels {
            self.post(rt, alloc, hands, &parcel.post)?;
        }
        Ok(())
    }

    /// The looper looks for a message once, and recycles what it takes. The controller doesn't hear of it yet.
    fn look_once<R: Wait>(&self, rt: &R, hands: &mut Hands) -> Look
        requires { HandsAreAt self.now hands.old }
        ensures kept { (hands.new.controller ≡ hands.old.controller) × (hands.new.pass.home ≡ self.now.pool) }
        ensures done { LookedBy hands.old.looper hands.new.looper result }
    {
        match hands.looper.next(rt, &self.queue, 0, false) {
            Nexted::Taken { node, .. } => {
                self.pool.recycle(&mut hands.pass, node);
                Look::Taken
            }
            Nexted::Wait { until } => Look::Waits { until },
            Nexted::Idle => Look::Other,
            Nexted::End(_) => Look::Other,
            Nexted::Over => Look::Other,
        }
    }

    /// The looper looks for a message once, and recycles what it takes.
    fn look<R: Wait>(&self, rt: &R, hands: &mut Hands) -> Look
        requires { HandsAreAt self.now hands.old }
        ensures at { HandsAreAt self.now hands.new × (threads_of hands.new ≡ threads_of hands.old) }
        ensures made { Leads (LooksOn (threads_of hands.old) result) hands.old hands.new }
    {
        let look = self.look_once(rt, hands);
        self.share(hands);
        look
    }

    /// The looper takes all that is due. Answers until when it waits.
    fn drain<R: Wait>(&self, rt: &R, hands: &mut Hands) -> Option<u64>
        requires { HandsAreAt self.now hands.old }
        ensures at { HandsAreAt self.now hands.new × (threads_of hands.new ≡ threads_of hands.old) }
        ensures made { Leads (HasDrained (threads_of hands.old) result) hands.old hands.new }
    {
        for _ in rt.forever() {
            if let Look::Waits { until } = self.look(rt, hands) {
                return until;
            }
        }
        unreachable!()
    }

    /// The controller moves the time on, and the looper doesn't hear of it yet.
    fn advance_once<R: Wait>(&self, rt: &R, hands: &mut Hands, time: u64) -> Move
        requires { HandsAreAt self.now hands.old }
        ensures kept { (hands.new.looper ≡ hands.old.looper) × (hands.new.pass ≡ hands.old.pass) }
        ensures done { MovedBy hands.old.controller hands.new.controller time result }
    {
        match hands.controller.advance(rt, &self.queue, time) {
            Advancing::Advanced => Move::There,
            Advancing::Reached { .. } => Move::There,
            Advancing::NotDrained { .. } => Move::Stays,
            Advancing::Over => Move::Stays,
            Advancing::NoMemory => Move::NoMemory,
        }
    }

    /// The controller moves the time on.
    fn advance<R: Wait>(&self, rt: &R, hands: &mut Hands, time: u64) -> Move
        requires { HandsAreAt self.now hands.old }
        ensures at { HandsAreAt self.now hands.new × (threads_of hands.new ≡ threads_of hands.old) }
        ensures made { Leads (MovesTime (threads_of hands.old) time result) hands.old hands.new }
    {
        let moved = self.advance_once(rt, hands, time);
        self.share(hands);
        moved
    }

    /// The time is moved on to this one, in milliseconds; whatever comes due before it is taken at its own time. It begins at 0, so for 0
    /// nothing is done.
    pub(crate) fn move_to<R: Wait>(
        &self,
        rt: &R,
        hands: &mut Hands,
        time: u64,
    ) -> Result<(), NoMemory>
        requires { HandsAreAt self.now hands.old }
        ensures at { OnOk result (HandsAreAt self.now hands.new × (threads_of hands.new ≡ threads_of hands.old)) }
        ensures made { OnOk result (Leads (HasMoved (threads_of hands.old) time) hands.old hands.new) }
    {
        if time == 0 {
            return Ok(());
        }
        for _ in rt.forever() {
            let next = at_most(self.drain(rt, hands), time);
            match self.advance(rt, hands, next) {
                Move::There => {
                    if next == time {
                        return Ok(());
                    }
                }
                Move::Stays => {}
                Move::NoMemory => return Err(NoMemory),
            }
        }
        unreachable!()
    }

    /// The controller halts the queue. Answers false where it is not halted by that.
    fn halt_once<R: Wait>(&self, rt: &R, hands: &mut Hands, time: u64) -> bool
        requires { HandsAreAt self.now hands.old }
        ensures at { HandsAreAt self.now hands.new × (threads_of hands.new ≡ threads_of hands.old) }
        ensures halted { result ≡ true → Leads (λ past now. GrowsByEntry (threads_of hands.old + 1) (IsHaltAt (time_after past)) past now) hands.old hands.new }
        ensures same { result ≡ false → Leads (λ past now. now ≡ past) hands.old hands.new }
    {
        let halted = hands.controller.halt(rt, &self.queue, time);
        self.share(hands);
        match halted {
            Halting::Halted => true,
            Halting::Over => false,
            Halting::NotDrained { .. } => false,
        }
    }

    /// The looper takes all that is due, and the controller halts the queue at its time.
    pub(crate) fn halt<R: Wait>(&self, rt: &R, hands: &mut Hands, time: u64)
        requires { HandsAreAt self.now hands.old }
        ensures at { HandsAreAt self.now hands.new × (threads_of hands.new ≡ threads_of hands.old) }
        ensures made { Leads (HasHalted (threads_of hands.old)) hands.old hands.new }
    {
        for _ in rt.forever() {
            self.drain(rt, hands);
            if self.halt_once(rt, hands, time) {
                return;
            }
        }
        unreachable!()
    }
}

/// The earlier of the two, where there are two.
fn at_most(until: Option<u64>, time: u64) -> u64
    ensures { IsEarlier until time result }
{
    match until {
        Some(until) => until.min(time),
        None => time,
    }
}
