//! The loop of a looper with frames.
ghost use Rattle.std.specs.Prelude.{◌≡◌, ◌<◌, true, false, OnOk, IfOk};
ghost use Rattle.frame_loop.specs.Dispatching.{HasFrames};
ghost use Rattle.frame_loop.specs.FrameLooping.{FramesToItsEnd};
ghost use Rattle.plain_loop.specs.Senders.{IsQueueLooper};

use crate::dispatching::FrameHandling;
use crate::handlers::FrameHandle;
use crate::outbox::FrameOutbox;
use crate::screen::PHASES;
use choreographer::{Choreographer, FramePass};
use loop_io::Clock;
use loop_model::NoMemory;
use looper_run::Looper;
use plain_loop::{LetGo, Mailbox, loop_and_let_go};
use std::alloc::Global;
use std::sync::Wait;
use std::time;

/// A choreographer that lets its record go, with its last pass, which hands the record out, and the other one.
fn open_frames(
    alloc: Global,
    period: u64,
) -> Result<(Choreographer, FramePass, FramePass), NoMemory>
    requires { 0 < period }
    ensures { IfOk result (λ r. HasFrames r.0 r.1 r.2) }
{
    let (choreographer, mut passes) = Choreographer::make_sealing(alloc, 0, period, PHASES, 2)?;
    let frames = passes.pop().unwrap();
    let asks = passes.pop().unwrap();
    Ok((choreographer, frames, asks))
}

/// Loops until the queue is over, and answers the handlers: the looper has a choreographer of its own, with a pulse each `period`
/// nanoseconds (not 0), and wakes at the pulses that its handlers ask for (`Choreographer.getInstance`, `Looper.loop`). Moments are
/// uptime. As `loop_and_let_go` says it drops the acts that it told, and its queue's entries where they are kept; behind that it drops
/// the choreographer's record so far. So it may run for ever in bounded memory. NoMemory where a handler, a call of the loop or the letting go found none.
pub fn run_frame_looper<R: Wait + time::Clock, C: Clock, E: LetGo, H: FrameHandle<R, C, E> + Drop>(
    mailbox: &Mailbox<R, C, E>,
    looper: &mut Looper<E>,
    period: u64,
    handlers: H,
) -> Result<H, NoMemory>
    requires looper { IsQueueLooper mailbox.now.queue.now mailbox.now.pool.now looper.old }
    requires free { mailbox.now.queue.now.constants.setting.lockstep ≡ false }
    requires period { 0 < period }
    requires holds { H.Holds handlers }
    ensures ended { OnOk result (looper.new.ended ≡ true) }
    ensures looped { OnOk result (FramesToItsEnd E.keeps (C.shows mailbox.now.clock.now) mailbox.now.queue.now.constants.setting looper.old looper.new) }
    ensures holds { IfOk result H.Holds }
{
    let (choreographer, frames, asks) = open_frames(mailbox.alloc, period)?;
    let mut dispatcher = FrameHandling {
        mailbox: &*mailbox,
        choreographer: &choreographer,
        frames,
        asks,
        outbox: FrameOutbox {
            clock: mailbox.clock,
            sent: Vec::new(mailbox.alloc),
        },
        awaited: None,
        nudged: 0,
        handlers,
    };
    for _ in mailbox.rt.forever() {
        let pulse = dispatcher.next_pulse();
        if loop_and_let_go(mailbox, looper, &mut dispatcher, pulse)? {
            return Ok(dispatcher.handlers);
        }
        dispatcher.let_frames_go()?;
    }
    unreachable!()
}
