//! The dispatcher of a looper with frames.
ghost use Rattle.std.specs.Prelude.{◌≡◌, [], IsTrue, true, None, OnOk};
ghost use Rattle.choreographer.specs.Known.{IsPassOf};
ghost use Rattle.handler_post.specs.Ways.{IsReady};
ghost use Rattle.looper_run.specs.Holding.{workplace, held};
ghost use Rattle.plain_loop.specs.Lines.{KeepsLine, way_of};
ghost use Rattle.frame_loop.specs.Dispatching.{FoundMemory, HasFrames, Serving, MayServe, MayServeTaken, KeepsOwn, KeepsHandlers, KeepsBell, KeepsRings};
ghost use Rattle.frame_loop.specs.FrameLooping.{AsksPulse, DropsFrames};

use crate::handlers::FrameHandle;
use crate::outbox::FrameOutbox;
use crate::painting::Painting;
use crate::screen::{PHASES, Screen, lent_screen};
use choreographer::{
    Choreographer, DUE_MESSAGE, FRAME_MESSAGE, FramePass, Framed, NANOS_PER_MILLI,
};
use handler_post::{Handler, Sent};
use loop_io::Clock;
use loop_model::NoMemory;
use looper_run::{Did, Dispatcher, Own};
use message_pool::PoolClaim;
use message_slot::Message;
use plain_loop::{Handled, Line, Mailbox, did, lent_line};
use queue_state::Recorder;
use std::snapshot::Snapshot;
use std::sync::Wait;

/// The handler of the choreographer's own messages.
const FRAMES: Handler = Handler {
    id: u32::MAX,
    asynchronous: true,
};

/// Handlers with their looper's choreographer.
#[derive(Drop)]
pub(crate) struct FrameHandling<'a, R: Wait, C: Clock, E: Recorder, H: FrameHandle<R, C, E>> {
    pub(crate) mailbox: &'a Mailbox<'a, R, C, E>,
    pub(crate) choreographer: &'a Choreographer,
    /// The pass by which pulses are delivered, frames run and the record is let go: the last one.
    pub(crate) frames: FramePass,
    /// The pass by which the handlers post and remove callbacks.
    pub(crate) asks: FramePass,
    pub(crate) outbox: FrameOutbox<'a, C>,
    /// The pulse that the looper waits for, in nanoseconds.
    pub(crate) awaited: Option<u64>,
    /// How often the bell was rung, wrapping.
    pub(crate) nudged: u64,
    pub(crate) handlers: H,
}

// Whether a frame found memory.
fn found_memory(framed: Framed) -> Handled
    ensures { OnOk result (FoundMemory framed) }
{
    match framed {
        Framed::NoMemory => Err(NoMemory),
        Framed::Done => Ok(()),
        Framed::Elsewhere { next: _ } => Ok(()),
        Framed::Unscheduled => Ok(()),
        Framed::Backwards { last: _ } => Ok(()),
    }
}

/// Sends what the choreographer is to send, in order. At NoMemory some is not sent.
fn flush<R: Wait, C: Clock, E: Recorder>(
    line: &mut Line<R, C, E>,
    outbox: &mut FrameOutbox<C>,
) -> Handled
    requires { IsReady (way_of line.old) }
    ensures keeps { KeepsLine (way_of line.old) (way_of line.new) }
    ensures sent { OnOk result (outbox.new.sent.items ≡ []) }
{
    for sending in &outbox.sent {
        let post = FRAMES.obtain(sending.what, sending.arg);
        match line.send_at(post, sending.when) {
            Sent::Accepted { .. } | Sent::Refused { .. } => {}
            Sent::NoMemory => return Err(NoMemory),
        }
    }
    outbox.sent.clear();
    Ok(())
}

impl<'a, R: Wait, C: Clock, E: Recorder, H: FrameHandle<R, C, E>> FrameHandling<'a, R, C, E, H> {
    /// The pulse that is asked for, which the looper waits for from now on, in milliseconds rounded up.
    pub(crate) fn next_pulse(&mut self) -> Option<u64>
        requires { IsPassOf self.old.frames self.old.choreographer.now }
        ensures asks { AsksPulse self.old.frames self.new.frames result }
        ensures keeps { KeepsHandlers self.old self.new }
    {
        self.awaited = self.choreographer.asked(self.mailbox.rt, &mut self.frames);
        let pulse = self.awaited?;
        Some(pulse.div_ceil(NANOS_PER_MILLI))
    }

    /// Drops the part of the choreographer's record that was not dropped before. At NoMemory it stays.
    pub(crate) fn let_frames_go(&mut self) -> Handled
        requires { HasFrames self.old.choreographer.now self.old.frames self.old.asks }
        ensures drops { OnOk result (DropsFrames self.old.frames self.new.frames) }
        ensures keeps { KeepsHandlers self.old self.new }
    {
        drop(self.choreographer.seal(self.mailbox.rt, &mut self.frames)?);
        Ok(())
    }

    // Delivers the pulse that is asked for, if it came, and sends what the choreographer is to send.
    fn deliver_pulse(&mut self, own: &mut Own<E>) -> Handled
        requires serves { Serving self.old (workplace (held own.old)) }
        ensures keeps { KeepsHandlers self.old self.new }
        ensures own { KeepsOwn own.old own.new }
    {
        self.choreographer
            .on_vsync(self.mailbox.rt, &mut self.frames, &mut self.outbox);
        let mut line = lent_line!(self.mailbox, own);
        flush(&mut line, &mut self.outbox)
    }

    // Begins a frame where one is scheduled, and runs its callbacks.
    fn do_frame(&mut self, own: &mut Own<E>) -> Handled
        requires { MayServe H.Holds self.old (workplace (held own.old)) }
        ensures keeps { KeepsBell self.old self.new own.old own.new }
        ensures holds { OnOk result (H.Holds self.new.handlers) }
    {
        let began = Snapshot::of(&*own.poster);
        let pass_began = Snapshot::of(&*own.pass);
        let mut painting = Painting {
            rt: self.mailbox.rt,
            alloc: self.mailbox.alloc,
            clock: self.mailbox.clock,
            queue: self.mailbox.queue,
            poster: own.poster,
            pool: self.mailbox.pool,
            pass: own.pass,
            choreographer: self.choreographer,
            asks: &mut self.asks,
            handlers: &mut self.handlers,
            began: &began,
            pass_began: &pass_began,
        };
        let framed = self.choreographer.do_frame(
            self.mailbox.rt,
            &mut self.frames,
            &mut self.outbox,
            &mut painting,
        );
        found_memory(framed)
    }

    // Schedules a frame where the phase has a due callback and none is scheduled.
    fn on_due(&mut self, phase: u32)
        requires { HasFrames self.old.choreographer.now self.old.frames self.old.asks }
        ensures keeps { KeepsHandlers self.old self.new }
    {
        if phase < PHASES {
            self.choreographer
                .on_due(self.mailbox.rt, &mut self.frames, &mut self.outbox, phase);
        }
    }

    // A message of the choreographer.
    fn on_frames(&mut self, own: &mut Own<E>, what: u32, arg: u32) -> Handled
        requires { MayServe H.Holds self.old (workplace (held own.old)) }
        ensures keeps { KeepsBell self.old self.new own.old own.new }
        ensures holds { OnOk result (H.Holds self.new.handlers) }
    {
        match what {
            FRAME_MESSAGE => self.do_frame(own),
            DUE_MESSAGE => {
                self.on_due(arg);
                Ok(())
            }
            _ => Ok(()),
        }
    }

    // A message of a handler.
    fn on_message(&mut self, own: &mut Own<E>, m: &Message<PoolClaim>, now: u64) -> Handled
        requires { MayServeTaken H.Holds self.old own.old m.now now }
        ensures keeps { KeepsBell self.old self.new own.old own.new }
        ensures holds { OnOk result (H.Holds self.new.handlers) }
    {
        let mut screen = lent_screen!(
            self.mailbox,
            own,
            self.choreographer,
            &mut self.asks,
            &mut self.outbox
        );
        match m.callback() {
            Some(id) => self.handlers.run_callback(&mut screen, id, now),
            None => self.handlers.handle(&mut screen, m, now),
        }
    }

    fn dispatch(&mut self, own: &mut Own<E>, m: &Message<PoolClaim>, now: u64) -> Handled
        requires { MayServeTaken H.Holds self.old own.old m.now now }
        ensures keeps { KeepsBell self.old self.new own.old own.new }
        ensures holds { OnOk result (H.Holds self.new.handlers) }
    {
        if m.handler() == Some(FRAMES.id) {
            return self.on_frames(own, m.what(), m.arg());
        }
        self.on_message(own, m, now)
    }

    // Rings the looper's bell where another pulse is asked for than it waits for.
    fn ring(&mut self, own: &mut Own<E>)
        requires serves { Serving self.old (workplace (held own.old)) }
        ensures keeps { KeepsRings self.old self.new own.old own.new }
        ensures handlers { self.new.handlers ≡ self.old.handlers }
    {
        let asked = self.choreographer.asked(self.mailbox.rt, &mut self.frames);
        if asked.is_none() || asked == self.awaited {
            return;
        }
        self.nudged = self.nudged.wrapping_add(1);
        own.poster.nudge(self.mailbox.rt, self.mailbox.queue);
    }

    // Dispatches a message, delivers the pulse that came meanwhile, and rings the bell where another is asked for.
    fn deliver(&mut self, own: &mut Own<E>, m: &Message<PoolClaim>, now: u64) -> Handled
        requires { MayServeTaken H.Holds self.old own.old m.now now }
        ensures keeps { KeepsRings self.old self.new own.old own.new }
        ensures holds { OnOk result (H.Holds self.new.handlers) }
    {
        self.dispatch(own, m, now)?;
        self.deliver_pulse(own)?;
        self.ring(own);
        Ok(())
    }
}

impl<'a, R: Wait, C: Clock, E: Recorder, H: FrameHandle<R, C, E>> Dispatcher
    for FrameHandling<'a, R, C, E, H> {
    type Record = E;

    type Value = ();

    ghost Serves = { λ d w. Serving d w };

    ghost Origin = { Unit {0} };

    ghost origin = { λ d. tt };

    ghost nudges = { λ d. d.nudged };

    ghost asked = { λ d. None };

    ghost Meets = { λ d s es acts. IsTrue true };

    ghost Awaits = { λ d awaited. H.Holds d.handlers };

    fn before(&mut self, number: u64, m: &mut Message<PoolClaim>) {}

    fn pulse(&mut self, own: &mut Own<E>, now: u64) -> Did {
        did(self.deliver_pulse(own))
    }

    fn listen(&mut self, fd: u32, events: u32, listener: u32) -> Option<u32> {
        Some(self.handlers.listen(fd, events, listener).min(7))
    }

    fn idle(&mut self, id: u32, keep: bool) -> Option<bool> {
        Some(self.handlers.idle(id, keep))
    }

    fn run_callback(&mut self, own: &mut Own<E>, id: u64, m: &Message<PoolClaim>, now: u64) -> Did {
        did(self.deliver(own, m, now))
    }

    fn intercept(&mut self, own: &mut Own<E>, m: &Message<PoolClaim>, now: u64) -> Did {
        Did::No
    }

    fn handle(&mut self, own: &mut Own<E>, m: &Message<PoolClaim>, now: u64) -> Did {
        did(self.deliver(own, m, now))
    }

    ghost others = { λ d s es e acts apart meets. meets };

    ghost disposal = { λ d s es e now acts own call reply meets. meets };

    ghost quiet = { λ d s es a acts is meets. meets };
}
