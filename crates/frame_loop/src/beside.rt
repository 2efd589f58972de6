//! Loopers with frames, alone and beside other work.
ghost use Rattle.std.specs.Prelude.{◌≡◌, ◌<◌, false, length, IfOk, IfSome};
ghost use Rattle.plain_loop.specs.Senders.{IsSender, AreSenders, IsQueueLooper};

use crate::handlers::FrameHandle;
use crate::looping::run_frame_looper;
use loop_io::Clock;
use loop_model::NoMemory;
use looper_run::Looper;
use plain_loop::{Mailbox, Opened, Sender, Senders, Settings, open, open_with, work_and_quit};
use queue_state::Unkept;
use std::alloc::AllocGlobal;
use std::sync::Wait;
use std::thread::{Threads, join};
use std::time;

/// How a looper with frames begins.
#[derive(Clone, Copy, Debug, PartialEq, Eq)]
pub struct FrameSettings {
    /// Its number, whether it is the main one, and how many threads post to it.
    pub looper: Settings,
    /// The time from one vsync to the next, in nanoseconds.
    pub period: u64,
}

impl FrameSettings {
    /// The looper of `Settings::new`, with this period in nanoseconds.
    pub fn new(senders: u16, period: u64) -> FrameSettings
        ensures looper { (result.looper.senders ≡ senders) × (result.looper.main ≡ false) × (result.looper.looper ≡ 0) }
        ensures period { result.period ≡ period }
    {
        FrameSettings {
            looper: Settings::new(senders),
            period,
        }
    }
}

/// Makes a looper with a choreographer, does what comes before its loop, as to post its first messages, and loops as
/// `run_frame_looper` until the queue is over. Answers the handlers (`Looper.prepare`, `loop`).
pub fn run_frames_here<
    R: AllocGlobal + Wait + time::Clock,
    C: Clock,
    H: FrameHandle<R, C, Unkept> + Drop,
    W: FnOnce(&Mailbox<R, C>, Senders) + Drop,
>(rt: &R, clock: &C, settings: FrameSettings, handlers: H, before: W) -> Result<H, NoMemory>
    requires before { (m : _) (s : _) → AreSenders m.now.queue.now m.now.pool.now s × (length s.posters.items ≡ settings.looper.senders) → W.pre before m s }
    requires period { 0 < settings.period }
    requires holds { H.Holds handlers }
    ensures holds { IfOk result H.Holds }
{
    let alloc = rt.alloc();
    let Opened {
        parts,
        mut looper,
        senders,
    } = open(alloc, settings.looper)?;
    let mailbox = parts.mailbox(rt, alloc, clock);
    before(&mailbox, senders);
    run_frame_looper(&mailbox, &mut looper, settings.period, handlers)
}

// Does the work, and then quits the queue safely by this sender, where one is named.
fn work_through<R: Wait, C: Clock, T, W: FnOnce(&Mailbox<R, C>, Senders) -> T>(
    mailbox: &Mailbox<R, C>,
    senders: Senders,
    last: Option<Sender>,
    work: W,
) -> T
    requires last { IfSome last (IsSender mailbox.now.queue.now mailbox.now.pool.now) }
    requires work { W.pre work mailbox senders }
{
    match last {
        Some(last) => work_and_quit(mailbox, senders, last, work),
        None => work(mailbox, senders),
    }
}

// Does the work beside the looper.
fn side_by_side<
    R: Threads + Wait + time::Clock + Sync,
    C: Clock + Sync,
    H: FrameHandle<R, C, Unkept> + Send + Drop,
    T: Send + Drop,
    W: FnOnce(&Mailbox<R, C>, Senders) -> T + Send + Drop,
>(
    mailbox: &Mailbox<R, C>,
    mut looper: Looper<Unkept>,
    senders: Senders,
    last: Option<Sender>,
    period: u64,
    handlers: H,
    work: W,
) -> Result<(T, H), NoMemory>
    requires looper { IsQueueLooper mailbox.now.queue.now mailbox.now.pool.now looper }
    requires free { mailbox.now.queue.now.constants.setting.lockstep ≡ false }
    requires last { IfSome last (IsSender mailbox.now.queue.now mailbox.now.pool.now) }
    requires period { 0 < period }
    requires work { W.pre work mailbox senders }
    requires holds { H.Holds handlers }
    ensures holds { IfOk result (λ r. H.Holds r.1) }
{
    let (answer, handlers) = join(
        mailbox.rt,
        || work_through(mailbox, senders, last, work),
        || run_frame_looper(mailbox, &mut looper, period, handlers),
    );
    Ok((answer, handlers?))
}

/// Runs a looper with a choreographer in a thread of its own, as `run_frame_looper`, and beside it this work, which is handed the
/// looper's mailbox and its senders; when the work is done the queue is quit safely, so it isn't that of a main looper. Answers what
/// the work did, and the handlers (`HandlerThread.start`, `quitSafely`, `join`).
pub fn run_frames_beside<
    R: AllocGlobal + Threads + Wait + time::Clock + Sync,
    C: Clock + Sync,
    H: FrameHandle<R, C, Unkept> + Send + Drop,
    T: Send + Drop,
    W: FnOnce(&Mailbox<R, C>, Senders) -> T + Send + Drop,
>(rt: &R, clock: &C, settings: FrameSettings, handlers: H, work: W) -> Result<(T, H), NoMemory>
    requires work { (m : _) (s : _) → AreSenders m.now.queue.now m.now.pool.now s × (length s.posters.items ≡ settings.looper.senders) → W.pre work m s }
    requires quits { settings.looper.main ≡ false }
    requires period { 0 < settings.period }
    requires holds { H.Holds handlers }
    ensures holds { IfOk result (λ r. H.Holds r.1) }
{
    let alloc = rt.alloc();
    let Opened {
        parts,
        looper,
        mut senders,
    } = open_with(
        alloc,
        settings.looper,
        u32::from(settings.looper.senders) + 1,
    )?;
    let mailbox = parts.mailbox(rt, alloc, clock);
    let last = senders.next(&mailbox);
    side_by_side(
        &mailbox,
        looper,
        senders,
        Some(last),
        settings.period,
        handlers,
        work,
    )
}

/// Runs a looper with a choreographer in a thread of its own, as `run_frame_looper`, and beside it this work, which is handed the
/// looper's mailbox and its senders. It goes on until a handler or a sender quits it. Answers what the work did, and the handlers
/// (`HandlerThread.start`, `join`).
pub fn run_frames_with<
    R: AllocGlobal + Threads + Wait + time::Clock + Sync,
    C: Clock + Sync,
    H: FrameHandle<R, C, Unkept> + Send + Drop,
    T: Send + Drop,
    W: FnOnce(&Mailbox<R, C>, Senders) -> T + Send + Drop,
>(rt: &R, clock: &C, settings: FrameSettings, handlers: H, work: W) -> Result<(T, H), NoMemory>
    requires work { (m : _) (s : _) → AreSenders m.now.queue.now m.now.pool.now s × (length s.posters.items ≡ settings.looper.senders) → W.pre work m s }
    requires quits { settings.looper.main ≡ false }
    requires period { 0 < settings.period }
    requires holds { H.Holds handlers }
    ensures holds { IfOk result (λ r. H.Holds r.1) }
{
    let alloc = rt.alloc();
    let Opened {
        parts,
        looper,
        senders,
    } = open(alloc, settings.looper)?;
    let mailbox = parts.mailbox(rt, alloc, clock);
    side_by_side(
        &mailbox,
        looper,
        senders,
        None,
        settings.period,
        handlers,
        work,
    )
}
