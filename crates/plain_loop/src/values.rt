//! Messages that carry a value: how a line sends one, and how what leaves the queue unhandled hands its values back.
ghost use Rattle.std.specs.Prelude.{◌≡◌, true, false, length, OnErr, IfOk, Some};
ghost use Rattle.loop_model.specs.Posts.{moment_after};
ghost use Rattle.handler_post.specs.Ways.{IsReady, IsSameWay};
ghost use Rattle.handler_post.specs.Values.{SendsWith};
ghost use Rattle.plain_loop.specs.Lines.{KeepsLine, post_for, way_of, AtNow};
ghost use Rattle.plain_loop.specs.Values.{AreOf, AreAsAccepted, HandsValueOut, TakesOut, TakesNone, QuitsWith, IsValueOf, IfAccepted};

use crate::lines::{Line, due, lent_way};
use handler_post::{Quit, SentWith, Way, recycle_with};
use loop_io::Clock;
use loop_model::{Filter, NoMemory, Post};
use message_list::NodeList;
use message_pool::{Payload, PoolClaim};
use message_slot::Message;
use queue_state::{Quitting, Recorder, Taking};
use std::alloc::Global;
use std::sync::Wait;

/// The messages that a removal or a quit took out of a queue, with the values that they carry. `next_value` of the line hands these out and
/// recycles the messages. Where it is dropped before it is empty, the values are dropped, and the slots of these messages stay out.
#[derive(Drop)]
pub struct Values<P: Payload> {
    /// Those that are left, in the order in which they stood in the queue.
    pub nodes: NodeList<Message<PoolClaim<P>>>,
}

impl<P: Payload> Values<P> {
    /// How many messages are left, with a value or without.
    pub fn len(&self) -> usize
        ensures { result ≡ length self.now.nodes }
    {
        self.nodes.len()
    }
}

// Removes what the filter names, and keeps it.
fn take_out<R: Wait, E: Recorder, P: Payload>(
    rt: &R,
    way: &mut Way<E, P>,
    filter: &Filter,
) -> Result<Values<P>, NoMemory>
    requires { IsReady way.old }
    ensures ready { IsReady way.new }
    ensures same { IsSameWay way.old way.new }
    ensures of { IfOk result (AreOf way.old.pool.now) }
    ensures accepted { IfOk result (AreAsAccepted way.new.poster.now) }
    ensures taken { IfOk result (TakesOut filter.now way.old way.new) }
    ensures none { OnErr result (TakesNone way.old way.new) }
{
    match way.poster.remove(rt, way.queue, filter) {
        Taking::Removed(nodes) => Ok(Values { nodes }),
        Taking::NoMemory => Err(NoMemory),
    }
}

// Quits, and keeps what is dropped.
fn quit_with<R: Wait, E: Recorder, P: Payload>(
    rt: &R,
    alloc: Global,
    way: &mut Way<E, P>,
    safe: bool,
    now: u64,
) -> (Quit, Values<P>)
    requires { IsReady way.old }
    ensures ready { IsReady way.new }
    ensures same { IsSameWay way.old way.new }
    ensures of { AreOf way.old.pool.now result.1 }
    ensures accepted { AreAsAccepted way.new.poster.now result.1 }
    ensures quits { QuitsWith safe now way.old way.new result.0 result.1 }
{
    let none = Values {
        nodes: NodeList::empty(alloc),
    };
    match way.poster.quit(rt, way.queue, safe, now) {
        Quitting::Done(nodes) => {
            let dropped = nodes.len() as u64;
            (Quit::Done { dropped }, Values { nodes })
        }
        Quitting::AlreadyQuit { place } => (Quit::AlreadyQuit { place }, none),
        Quitting::NotAllowed => (Quit::NotAllowed, none),
        Quitting::NoMemory => (Quit::NoMemory, none),
    }
}

// Recycles messages up to the first that carries a value, and answers this value.
fn hand_out<E: Recorder, P: Payload>(way: &mut Way<E, P>, values: &mut Values<P>) -> Option<P>
    requires ready { IsReady way.old }
    requires of { AreOf way.old.pool.now values.old }
    ensures ready { IsReady way.new }
    ensures same { IsSameWay way.old way.new }
    ensures of { AreOf way.new.pool.now values.new }
    ensures value { HandsValueOut P.content values.old values.new way.old way.new result }
{
    while let Some(node) = values.nodes.pop_front() {
        if let Some(value) = recycle_with(way.pool, way.pass, node) {
            return Some(value);
        }
    }
    None
}

impl<'a, R: Wait, C: Clock, E: Recorder, P: Payload> Line<'a, R, C, E, P> {
    /// Sends this now with a value, which its handler is given (`sendMessage` of a `Message` with an `obj`). Where the queue doesn't keep
    /// the message, the value is handed back; and so it is where no slot of the pool is free, as a value wants one (this project's profile).
    pub fn send_value(&mut self, post: Post, value: P) -> SentWith<P>
        requires { IsReady (way_of self.old) }
        ensures keeps { KeepsLine (way_of self.old) (way_of self.new) }
        ensures sent { AtNow (C.shows self.old.clock.now) (λ now. SendsWith P.content (post_for post now) value (way_of self.old) (way_of self.new) result) }
        ensures accepted { IfAccepted result (λ number. IsValueOf P.content self.new.poster.now number (Some value)) }
    {
        let now = self.clock.uptime_millis();
        self.send_value_at(post, value, now)
    }

    /// Sends this with a value for the moment `when` (`sendMessageAtTime`), as `send_value` does.
    pub fn send_value_at(&mut self, post: Post, value: P, when: u64) -> SentWith<P>
        requires { IsReady (way_of self.old) }
        ensures keeps { KeepsLine (way_of self.old) (way_of self.new) }
        ensures sent { SendsWith P.content (post_for post when) value (way_of self.old) (way_of self.new) result }
        ensures accepted { IfAccepted result (λ number. IsValueOf P.content self.new.poster.now number (Some value)) }
    {
        let due = due(post, when);
        let mut way = lent_way!(self);
        way.send_with(self.rt, self.alloc, &due, value)
    }

    /// Sends this with a value for `delay` from now on, or for the last moment where that lies behind it (`sendMessageDelayed`), as
    /// `send_value` does.
    pub fn send_value_delayed(&mut self, post: Post, value: P, delay: u64) -> SentWith<P>
        requires { IsReady (way_of self.old) }
        ensures keeps { KeepsLine (way_of self.old) (way_of self.new) }
        ensures sent { AtNow (C.shows self.old.clock.now) (λ now. SendsWith P.content (post_for post (moment_after now delay)) value (way_of self.old) (way_of self.new) result) }
        ensures accepted { IfAccepted result (λ number. IsValueOf P.content self.new.poster.now number (Some value)) }
    {
        let now = self.clock.uptime_millis();
        self.send_value_at(post, value, now.saturating_add(delay))
    }

    /// Sends this with a value to the head of the queue (`sendMessageAtFrontOfQueue`), as `send_value` does.
    pub fn send_value_at_front(&mut self, post: Post, value: P) -> SentWith<P>
        requires { IsReady (way_of self.old) }
        ensures keeps { KeepsLine (way_of self.old) (way_of self.new) }
        ensures sent { SendsWith P.content (post_for post 0) value (way_of self.old) (way_of self.new) result }
        ensures accepted { IfAccepted result (λ number. IsValueOf P.content self.new.poster.now number (Some value)) }
    {
        self.send_value_at(post, value, 0)
    }

    /// Removes what is named, as `remove` does, and hands it out with its values. NoMemory where the entry found none; then all stay
    /// (this project's profile).
    pub fn remove_values(&mut self, filter: Filter) -> Result<Values<P>, NoMemory>
        requires { IsReady (way_of self.old) }
        ensures keeps { KeepsLine (way_of self.old) (way_of self.new) }
        ensures of { IfOk result (AreOf self.old.pool.now) }
        ensures accepted { IfOk result (AreAsAccepted self.new.poster.now) }
        ensures taken { IfOk result (TakesOut filter (way_of self.old) (way_of self.new)) }
        ensures none { OnErr result (TakesNone (way_of self.old) (way_of self.new)) }
    {
        let mut way = lent_way!(self);
        take_out(self.rt, &mut way, &filter)
    }

    /// Quits as `quit_safely` does, and hands out what is dropped with its values. There are none unless the answer is Done (this
    /// project's profile).
    pub fn quit_safely_for_values(&mut self) -> (Quit, Values<P>)
        requires { IsReady (way_of self.old) }
        ensures keeps { KeepsLine (way_of self.old) (way_of self.new) }
        ensures of { AreOf self.old.pool.now result.1 }
        ensures accepted { AreAsAccepted self.new.poster.now result.1 }
        ensures quits { AtNow (C.shows self.old.clock.now) (λ now. QuitsWith true now (way_of self.old) (way_of self.new) result.0 result.1) }
    {
        self.end_for_values(true)
    }

    /// Quits as `quit` does, and hands out what is dropped with its values. There are none unless the answer is Done (this project's
    /// profile).
    pub fn quit_for_values(&mut self) -> (Quit, Values<P>)
        requires { IsReady (way_of self.old) }
        ensures keeps { KeepsLine (way_of self.old) (way_of self.new) }
        ensures of { AreOf self.old.pool.now result.1 }
        ensures accepted { AreAsAccepted self.new.poster.now result.1 }
        ensures quits { AtNow (C.shows self.old.clock.now) (λ now. QuitsWith false now (way_of self.old) (way_of self.new) result.0 result.1) }
    {
        self.end_for_values(false)
    }

    // Quits, and hands out what is dropped.
    fn end_for_values(&mut self, safe: bool) -> (Quit, Values<P>)
        requires { IsReady (way_of self.old) }
        ensures keeps { KeepsLine (way_of self.old) (way_of self.new) }
        ensures of { AreOf self.old.pool.now result.1 }
        ensures accepted { AreAsAccepted self.new.poster.now result.1 }
        ensures quits { AtNow (C.shows self.old.clock.now) (λ now. QuitsWith safe now (way_of self.old) (way_of self.new) result.0 result.1) }
    {
        let now = self.clock.uptime_millis();
        let mut way = lent_way!(self);
        quit_with(self.rt, self.alloc, &mut way, safe, now)
    }

    /// The value of the first of these messages that carries one, and None where none does. This message and those before it are
    /// recycled (this project's profile).
    pub fn next_value(&mut self, values: &mut Values<P>) -> Option<P>
        requires ready { IsReady (way_of self.old) }
        requires of { AreOf self.old.pool.now values.old }
        ensures keeps { KeepsLine (way_of self.old) (way_of self.new) }
        ensures of { AreOf self.new.pool.now values.new }
        ensures value { HandsValueOut P.content values.old values.new (way_of self.old) (way_of self.new) result }
    {
        let mut way = lent_way!(self);
        hand_out(&mut way, values)
    }
}
