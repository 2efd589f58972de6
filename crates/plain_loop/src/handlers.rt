//! A dispatcher over handlers that state nothing.
ghost use Rattle.std.specs.Prelude.{◌≡◌, ℕ, IsTrue, true, None, OnOk};
ghost use Rattle.message_slot.specs.Letter.{number_in, post_of};
ghost use Rattle.handler_post.specs.Ways.{IsReady};
ghost use Rattle.plain_loop.specs.Lines.{KeepsLine, way_of};
ghost use Rattle.plain_loop.specs.Handling.{IsWorkplaceOf, HasJustTaken, HasJustTakenCallback, did_of};

use crate::lent_line;
use crate::lines::Line;
use crate::mailbox::Mailbox;
use loop_io::Clock;
use loop_model::NoMemory;
use looper_run::{Did, Dispatcher, Own};
use message_pool::PoolClaim;
use message_slot::Message;
use queue_state::Recorder;
use std::sync::Wait;

/// A message, as a handler is given it.
pub type Msg<P = ()> = Message<PoolClaim<P>>;

/// How the code of a handler ends.
pub type Handled = Result<(), NoMemory>;

/// The code of a looper's handlers, as `handleMessage` of the Android API reference's `Handler`. What they send themselves they
/// send by the line that they are lent, which is the looper's own. Its queue's entries go where `E` says: `Unkept` is for a queue that
/// keeps none. After NoMemory the looper gives up.
pub trait Handle<R: Wait, C: Clock, E: Recorder> {
    /// A fact of the handlers' own, which each call keeps unless memory ran out. By default there is none.
    ghost Holds: { Self → Type 0 } = { λ h. Unit {0} };

    /// Handles a message without a callback, which the looper just took, and which was due at `now` or before, in milliseconds. Which
    /// handler it was sent to is its `handler`. This one does nothing.
    fn handle(&mut self, line: &mut Line<R, C, E>, message: &Msg, now: u64) -> Handled
        requires line { IsReady (way_of line.old) }
        requires taken { HasJustTaken line.old.poster.now (number_in message.now.item) (post_of message.now.item) now }
        requires holds { Holds self.old }
        ensures keeps { KeepsLine (way_of line.old) (way_of line.new) }
        ensures holds { OnOk result (Holds self.new) }
    {
        Ok(())
    }

    /// Runs the callback of this number, which was posted in a message's place (`Runnable.run`). This one does nothing.
    fn run_callback(&mut self, line: &mut Line<R, C, E>, id: u64, now: u64) -> Handled
        requires line { IsReady (way_of line.old) }
        requires taken { (number : ℕ) × HasJustTakenCallback line.old.poster.now number id now }
        requires holds { Holds self.old }
        ensures keeps { KeepsLine (way_of line.old) (way_of line.new) }
        ensures holds { OnOk result (Holds self.new) }
    {
        Ok(())
    }

    /// Runs the idle handler of this number, and answers whether it is kept (`MessageQueue.IdleHandler.queueIdle`). `keep` is what it
    /// was added with, which this one answers.
    fn idle(&mut self, id: u32, keep: bool) -> bool
        ensures holds { Holds self.old → Holds self.new }
    {
        keep
    }

    /// Told of the events on a watched descriptor; answers the new mask, of INPUT 1, OUTPUT 2 and ERROR 4, and 0 to watch no
    /// longer. This one watches no longer.
    fn listen(&mut self, fd: u32, events: u32, listener: u32) -> u32
        ensures holds { Holds self.old → Holds self.new }
    {
        0
    }
}

/// A dispatcher that leaves all to these handlers: it has no callback object of a handler, asks for no pulse, and states no more than
/// they do. It lends them a line to its looper's queue.
#[derive(Drop)]
pub struct Handling<'a, R: Wait, C: Clock, E: Recorder, H: Handle<R, C, E>> {
    /// The looper's mailbox.
    pub mailbox: &'a Mailbox<'a, R, C, E>,
    /// The handlers.
    pub handlers: H,
}

/// What a dispatcher answers where its code ended so.
pub fn did(answer: Handled) -> Did
    ensures { result ≡ did_of answer }
{
    match answer {
        Ok(()) => Did::Yes,
        Err(_) => Did::NoMemory,
    }
}

impl<'a, R: Wait, C: Clock, E: Recorder, H: Handle<R, C, E>> Dispatcher
    for Handling<'a, R, C, E, H> {
    type Record = E;

    type Value = ();

    ghost Serves = { λ d w. IsWorkplaceOf d.mailbox.now.queue.now d.mailbox.now.pool.now w };

    ghost Origin = { Unit {0} };

    ghost origin = { λ d. tt };

    ghost nudges = { λ d. 0 };

    ghost asked = { λ d. None };

    ghost Meets = { λ d s es acts. IsTrue true };

    ghost Awaits = { λ d awaited. H.Holds d.handlers };

    fn before(&mut self, number: u64, m: &mut Message<PoolClaim>) {}

    fn pulse(&mut self, own: &mut Own<E>, now: u64) -> Did {
        Did::Yes
    }

    fn listen(&mut self, fd: u32, events: u32, listener: u32) -> Option<u32> {
        Some(self.handlers.listen(fd, events, listener).min(7))
    }

    fn idle(&mut self, id: u32, keep: bool) -> Option<bool> {
        Some(self.handlers.idle(id, keep))
    }

    fn run_callback(&mut self, own: &mut Own<E>, id: u64, m: &Message<PoolClaim>, now: u64) -> Did {
        let mut line = lent_line!(self.mailbox, own);
        did(self.handlers.run_callback(&mut line, id, now))
    }

    fn intercept(&mut self, own: &mut Own<E>, m: &Message<PoolClaim>, now: u64) -> Did {
        Did::No
    }

    fn handle(&mut self, own: &mut Own<E>, m: &Message<PoolClaim>, now: u64) -> Did {
        let mut line = lent_line!(self.mailbox, own);
        did(self.handlers.handle(&mut line, m, now))
    }

    ghost others = { λ d s es e acts apart meets. meets };

    ghost disposal = { λ d s es e now acts own call reply meets. meets };

    ghost quiet = { λ d s es a acts is meets. meets };
}
