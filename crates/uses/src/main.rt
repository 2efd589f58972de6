//! A thermostat over the library, to be copied: two sensors post from threads of their own, and a dial follows the highest reading.
#![tactic(auto)]

ghost use Rattle.std.specs.Prelude.{◌<◌, length};
ghost use Rattle.plain_loop.specs.Senders.{IsSender, AreSenders};

use frame_loop::{FrameHandle, FrameSettings, Screen, run_frames_with};
use frame_phases::Callback;
use handler_post::Handler;
use loop_io::{Clock, StdClock};
use loop_model::Post;
use plain_loop::{Handled, Mailbox, Msg, Sender, Senders};
use queue_state::Unkept;
use std::sync::Wait;
use std::thread::{Threads, join};

/// Nanoseconds between two pulses, and the frame callback that moves the dial.
const PERIOD: u64 = 16_666_667;

const DIAL: u64 = 7;
/// What came, and where the dial stands and goes.
#[derive(Clone, Copy, Default)]
struct Thermostat {
    readings: u32,
    alarms: u32,
    idle: u32,
    dial: u32,
    target: u32,
}

impl<R: Wait, C: Clock> FrameHandle<R, C, Unkept> for Thermostat {
    fn handle(&mut self, screen: &mut Screen<R, C>, message: &Msg, now: u64) -> Handled {
        if let Some(token) = message.obj() {
            self.alarms = self.alarms.saturating_add(1);
            screen.remove_barrier(token)?;
            return Ok(());
        }
        self.readings = self.readings.saturating_add(1);
        self.target = self.target.max(message.arg());
        screen.remove_frame_callback(DIAL)?;
        screen.post_frame_callback(DIAL);
        Ok(())
    }

    fn run_callback(&mut self, screen: &mut Screen<R, C>, id: u64, now: u64) -> Handled {
        if self.readings == 3 && self.idle == 1 && self.dial == self.target {
            screen.quit_safely();
        } else {
            screen.send_delayed(Handler::new(0).runnable(id), 5);
        }
        Ok(())
    }

    fn draw(&mut self, screen: &mut Screen<R, C>, callback: &Callback, time: u64) -> Handled {
        if self.dial < self.target {
            self.dial = self.dial.saturating_add(1);
            screen.post_frame_callback(DIAL);
        }
        Ok(())
    }

    fn idle(&mut self, id: u32, keep: bool) -> bool {
        self.idle = self.idle.saturating_add(1);
        false
    }
}

/// A reading, a callback, and a reading of the next hour, which it takes back.
fn first<R: Wait, C: Clock>(mailbox: &Mailbox<R, C>, mut sender: Sender)
    requires { IsSender mailbox.now.queue.now mailbox.now.pool.now sender }
{
    let mut line = sender.line(mailbox);
    line.send_at_front(Handler::new(0).obtain(0, 17));
    line.send(Handler::new(0).runnable(5));
    line.send_delayed(Handler::new(0).obtain(1, 99), 3_600_000);
    line.remove(Handler::new(0).messages(1));
}

/// A reading; behind a barrier another one; and an alarm, which passes the barrier and removes it.
fn second<R: Wait, C: Clock>(mailbox: &Mailbox<R, C>, mut sender: Sender) -> Handled
    requires { IsSender mailbox.now.queue.now mailbox.now.pool.now sender }
{
    let mut line = sender.line(mailbox);
    line.send(Handler::new(0).obtain(0, 20));
    let obj = Some(line.post_barrier()?);
    line.send(Handler::new(0).obtain(0, 21));
    let alarm = Handler::new_async(1).obtain(0, 0);
    line.send(Post { obj, ..alarm });
    Ok(())
}

/// Adds an idle handler, and measures in two threads.
fn measure<R: Threads + Wait + Sync, C: Clock + Sync>(
    mailbox: &Mailbox<R, C>,
    mut senders: Senders,
) -> Handled
    requires { AreSenders mailbox.now.queue.now mailbox.now.pool.now senders × (1 < length senders.posters.items) }
{
    mailbox.add_idle_handler(1)?;
    let (one, other) = (senders.next(mailbox), senders.next(mailbox));
    let (_, sent) = join(
        mailbox.rt,
        || first(mailbox, one),
        || second(mailbox, other),
    );
    sent
}

fn main(rt: HostRuntime) -> std::io::Result<()> {
    let (clock, settings) = (StdClock::new(&rt), FrameSettings::new(2, PERIOD));
    let kept = Thermostat::default();
    let work = |mailbox: &_, senders| measure(mailbox, senders);
    match run_frames_with(&rt, &clock, settings, kept, work) {
        Ok((Ok(()), it)) => {
            println!(rt; "{} readings, {} alarm", it.readings, it.alarms)?;
            println!(rt; "the dial stands at {}, idle {}", it.dial, it.idle)
        }
        _ => println!(rt; "no memory"),
    }
}
