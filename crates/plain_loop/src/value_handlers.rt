//! A dispatcher over handlers that are given the values of their messages.
ghost use Rattle.std.specs.Prelude.{◌≡◌, IsTrue, true, None, OnOk};
ghost use Rattle.handler_post.specs.Ways.{IsReady};
ghost use Rattle.message_pool.specs.Values.{content_in, content_of, without_value};
ghost use Rattle.plain_loop.specs.Handling.{IsWorkplaceOf, HasJustTaken, HasJustTakenCallback};
ghost use Rattle.plain_loop.specs.Lines.{KeepsLine, way_of};
ghost use Rattle.plain_loop.specs.Values.{IsValueOf};

use crate::handlers::{Handled, Msg, did};
use crate::lent_line;
use crate::lines::Line;
use crate::mailbox::Mailbox;
use loop_io::Clock;
use loop_model::Post;
use looper_run::{Did, Dispatcher, Own};
use message_pool::Payload;
use queue_state::Unkept;
use std::sync::Wait;

/// The code of a looper's handlers, whose messages may carry a value, as `handleMessage` of the Android API reference's `Handler` finds one
/// in `obj`. It is as `Handle`, for a queue that keeps no entry: what they send themselves they send by the line that they are lent. After
/// NoMemory the looper gives up.
pub trait HandleValues<R: Wait, C: Clock> {
    /// What the messages of its looper's queue may carry.
    type Value: Payload;

    /// A fact of the handlers' own, which each call keeps unless memory ran out. By default there is none.
    ghost Holds: { Self → Type 0 } = { λ h. Unit {0} };

    /// Takes the value out of a message, and leaves all else of it: `take_value(message)` of message_pool, which the handlers' own code calls,
    /// since it knows the type of the value (this project's profile).
    fn take_out(message: &mut Msg<Self::Value>) -> Option<Self::Value>
        ensures value { content_of Self.Value.content result ≡ content_in message.old.claim }
        ensures rest { without_value message.new ≡ without_value message.old };

    /// Handles the message of this number, as its sending answered it. It has no callback, was due at `now` or before, in milliseconds, and
    /// was posted with these fields. The value is the one that was sent with it; `value.take()` takes it, and what is left is dropped. This
    /// one does nothing.
    fn handle(
        &mut self,
        line: &mut Line<R, C, Unkept, Self::Value>,
        number: u64,
        post: &Post,
        value: &mut Option<Self::Value>,
        now: u64,
    ) -> Handled
        requires line { IsReady (way_of line.old) }
        requires taken { HasJustTaken line.old.poster.now number post.now now }
        requires value { IsValueOf Self.Value.content line.old.poster.now number value.old }
        requires holds { Holds self.old }
        ensures keeps { KeepsLine (way_of line.old) (way_of line.new) }
        ensures holds { OnOk result (Holds self.new) }
    {
        Ok(())
    }

    /// Runs the callback `id` of the message of this number, which was posted in a message's place, with the value that was sent with it
    /// (`Runnable.run`). This one does nothing.
    fn run_callback(
        &mut self,
        line: &mut Line<R, C, Unkept, Self::Value>,
        number: u64,
        id: u64,
        value: &mut Option<Self::Value>,
        now: u64,
    ) -> Handled
        requires line { IsReady (way_of line.old) }
        requires taken { HasJustTakenCallback line.old.poster.now number id now }
        requires value { IsValueOf Self.Value.content line.old.poster.now number value.old }
        requires holds { Holds self.old }
        ensures keeps { KeepsLine (way_of line.old) (way_of line.new) }
        ensures holds { OnOk result (Holds self.new) }
    {
        Ok(())
    }

    /// Runs the idle handler of this number, as `Handle::idle` does. This one answers `keep`.
    fn idle(&mut self, id: u32, keep: bool) -> bool
        ensures holds { Holds self.old → Holds self.new }
    {
        keep
    }

    /// Told of the events on a watched descriptor, as `Handle::listen` is. This one watches no longer.
    fn listen(&mut self, fd: u32, events: u32, listener: u32) -> u32
        ensures holds { Holds self.old → Holds self.new }
    {
        0
    }
}

/// A dispatcher that leaves all to these handlers, as `Handling` does, and hands them the values.
#[derive(Drop)]
pub struct HandlingValues<'a, R: Wait, C: Clock, H: HandleValues<R, C>> {
    /// The looper's mailbox.
    pub mailbox: &'a Mailbox<'a, R, C, Unkept, H::Value>,
    /// The value of the message that is dispatched, until the handlers are given it; None at first.
    pub carried: Option<H::Value>,
    /// The handlers.
    pub handlers: H,
}

impl<'a, R: Wait, C: Clock, H: HandleValues<R, C>> Dispatcher for HandlingValues<'a, R, C, H> {
    type Record = Unkept;

    type Value = H::Value;

    ghost Serves = { λ d w. IsWorkplaceOf d.mailbox.now.queue.now d.mailbox.now.pool.now w };

    ghost Origin = { Unit {0} };

    ghost origin = { λ d. tt };

    ghost nudges = { λ d. 0 };

    ghost asked = { λ d. None };

    ghost Meets = { λ d s es acts. IsTrue true };

    ghost Awaits = { λ d awaited. H.Holds d.handlers };

    ghost Took = { λ d claim. content_of H.Value.content d.carried ≡ content_in claim };

    fn before(&mut self, number: u64, m: &mut Msg<H::Value>) {
        self.carried = H::take_out(m);
    }

    fn pulse(&mut self, own: &mut Own<Unkept, H::Value>, now: u64) -> Did {
        Did::Yes
    }

    fn listen(&mut self, fd: u32, events: u32, listener: u32) -> Option<u32> {
        Some(self.handlers.listen(fd, events, listener).min(7))
    }

    fn idle(&mut self, id: u32, keep: bool) -> Option<bool> {
        Some(self.handlers.idle(id, keep))
    }

    fn run_callback(
        &mut self,
        own: &mut Own<Unkept, H::Value>,
        id: u64,
        m: &Msg<H::Value>,
        now: u64,
    ) -> Did {
        let mut carried = self.carried.take();
        let mut line = lent_line!(self.mailbox, own);
        did(
            self.handlers
                .run_callback(&mut line, m.number(), id, &mut carried, now),
        )
    }

    fn intercept(&mut self, own: &mut Own<Unkept, H::Value>, m: &Msg<H::Value>, now: u64) -> Did {
        Did::No
    }

    fn handle(&mut self, own: &mut Own<Unkept, H::Value>, m: &Msg<H::Value>, now: u64) -> Did {
        let mut carried = self.carried.take();
        let post = m.as_post();
        let mut line = lent_line!(self.mailbox, own);
        did(
            self.handlers
                .handle(&mut line, m.number(), &post, &mut carried, now),
        )
    }

    ghost others = { λ d s es e acts apart meets. meets };

    ghost disposal = { λ d s es e now acts own call reply meets. meets };

    ghost quiet = { λ d s es a acts is meets. meets };
}
