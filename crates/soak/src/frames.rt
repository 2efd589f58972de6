//! Frames on a looper, each with a callback that posts itself again.
ghost use Rattle.std.specs.Prelude.{◌<◌, length};
ghost use Rattle.plain_loop.specs.Senders.{AreSenders};
ghost use Rattle.frame_loop.specs.Screens.{IsScreen, KeepsScreen};

use crate::calls::{Soaked, begin};
use choreographer::Placed;
use frame_loop::{FrameHandle, Screen, run_frame_looper};
use frame_phases::Callback;
use handler_post::Handler;
use loop_io::{Clock, StepClock};
use loop_model::NoMemory;
use plain_loop::{Handled, LetGo, Mailbox, Msg, Opened, Senders, Settings, open};
use queue_state::Recorder;
use std::alloc::Global;
use std::sync::Wait;
use std::time;

const PERIOD_NANOS: u64 = 16_666_667;

/// By how many milliseconds the clock goes on at each reading, so that each pulse has come by then.
const STEP: u64 = 20;

/// The number of the callback that posts itself, and one that is never posted.
const AGAIN: u64 = 7;

const NEVER: u64 = 8;

/// A callback that posts itself again so many times, removes nothing, and quits.
#[derive(Drop)]
struct Again {
    left: u64,
    soaked: Soaked,
}

impl Again {
    /// Posts the callback for the next frame, and removes one that isn't there.
    fn post<R: Wait + time::Clock, C: Clock, E: Recorder>(
        &mut self,
        screen: &mut Screen<R, C, E>,
    ) -> Handled
        requires { IsScreen screen.old }
        ensures keeps { KeepsScreen screen.old screen.new }
    {
        let began = begin(screen.rt);
        let placed = screen.post_frame_callback(AGAIN);
        screen.remove_frame_callback(NEVER)?;
        self.soaked.hear(screen.rt, began);
        self.soaked.removals = self.soaked.removals.saturating_add(1);
        if placed == Placed::NoMemory {
            return Err(NoMemory);
        }
        Ok(())
    }
}

impl<R: Wait + time::Clock, C: Clock, E: Recorder> FrameHandle<R, C, E> for Again {
    fn handle(&mut self, screen: &mut Screen<R, C, E>, message: &Msg, now: u64) -> Handled {
        self.post(screen)
    }

    fn draw(&mut self, screen: &mut Screen<R, C, E>, callback: &Callback, time: u64) -> Handled {
        self.soaked.handled = self.soaked.handled.saturating_add(1);
        self.left = self.left.saturating_sub(1);
        if self.left == 0 {
            screen.quit();
            return Ok(());
        }
        self.post(screen)
    }
}

/// Posts the message that asks for the first frame.
fn start<R: Wait, C: Clock, E: Recorder>(mailbox: &Mailbox<R, C, E>, mut senders: Senders<E>)
    requires { AreSenders mailbox.now.queue.now mailbox.now.pool.now senders × (0 < length senders.posters.items) }
{
    let mut sender = senders.next(mailbox);
    sender.line(mailbox).send(Handler::new(0).obtain(0, 0));
}

/// So many frames, as fast as they go, of a callback that posts itself. Answers what was done.
pub fn soak<R: Wait + time::Clock, E: LetGo>(
    rt: &R,
    alloc: Global,
    count: u64,
) -> Result<Soaked, NoMemory> {
    let Opened {
        parts,
        mut looper,
        senders,
    } = open::<E>(alloc, Settings::new(1))?;
    let clock = StepClock::new(STEP);
    let mailbox = parts.mailbox(rt, alloc, &clock);
    start(&mailbox, senders);
    let again = Again {
        left: count,
        soaked: Soaked::none(),
    };
    let again = run_frame_looper(&mailbox, &mut looper, PERIOD_NANOS, again)?;
    Ok(again.soaked)
}
