//! The code of a looper with frames.
ghost use Rattle.std.specs.Prelude.{ℕ, OnOk};
ghost use Rattle.message_slot.specs.Letter.{number_in, post_of};
ghost use Rattle.plain_loop.specs.Handling.{HasJustTaken, HasJustTakenCallback};
ghost use Rattle.frame_loop.specs.Screens.{IsScreen, KeepsScreen};

use crate::screen::Screen;
use frame_phases::Callback;
use loop_io::Clock;
use plain_loop::{Handled, Msg};
use queue_state::Recorder;
use std::sync::Wait;

/// The code of a looper's handlers and frame callbacks. What they post themselves they post by the screen that they are lent. After
/// NoMemory the looper gives up.
pub trait FrameHandle<R: Wait, C: Clock, E: Recorder> {
    /// A fact of the handlers' own, which each call keeps unless memory ran out. By default there is none.
    ghost Holds: { Self → Type 0 } = { λ h. Unit {0} };

    /// Handles a message without a callback, which the looper just took, and which was due at `now` or before, in milliseconds. Which
    /// handler it was sent to is its `handler` (`handleMessage` of the Android API reference's `Handler`). This one does nothing.
    fn handle(&mut self, screen: &mut Screen<R, C, E>, message: &Msg, now: u64) -> Handled
        requires screen { IsScreen screen.old }
        requires taken { HasJustTaken screen.old.poster.now (number_in message.now.item) (post_of message.now.item) now }
        requires holds { Holds self.old }
        ensures keeps { KeepsScreen screen.old screen.new }
        ensures holds { OnOk result (Holds self.new) }
    {
        Ok(())
    }

    /// Runs the callback of this number, which was posted in a message's place (`Runnable.run`). This one does nothing.
    fn run_callback(&mut self, screen: &mut Screen<R, C, E>, id: u64, now: u64) -> Handled
        requires screen { IsScreen screen.old }
        requires taken { (number : ℕ) × HasJustTakenCallback screen.old.poster.now number id now }
        requires holds { Holds self.old }
        ensures keeps { KeepsScreen screen.old screen.new }
        ensures holds { OnOk result (Holds self.new) }
    {
        Ok(())
    }

    /// Runs a callback of a frame, with the frame's time in nanoseconds (`Choreographer.FrameCallback.doFrame`). This one does nothing.
    fn draw(&mut self, screen: &mut Screen<R, C, E>, callback: &Callback, time: u64) -> Handled
        requires screen { IsScreen screen.old }
        requires holds { Holds self.old }
        ensures keeps { KeepsScreen screen.old screen.new }
        ensures holds { OnOk result (Holds self.new) }
    {
        Ok(())
    }

    /// Runs the idle handler of this number, and answers whether it is kept (`MessageQueue.IdleHandler.queueIdle`). `keep` is what it
    /// was added with, which this one answers.
    fn idle(&mut self, id: u32, keep: bool) -> bool
        ensures holds { Holds self.old → Holds self.new }
    {
        keep
    }

    /// Told of the events on a watched descriptor; answers the new mask, of INPUT 1, OUTPUT 2 and ERROR 4, and 0 to watch no
    /// longer. This one watches no longer.
    fn listen(&mut self, fd: u32, events: u32, listener: u32) -> u32
        ensures holds { Holds self.old → Holds self.new }
    {
        0
    }
}
