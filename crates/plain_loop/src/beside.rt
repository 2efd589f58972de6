//! Loops of loopers over handlers, alone and beside other work.
ghost use Rattle.std.specs.Prelude.{◌≡◌, ◌≢◌, ◌<◌, true, false, length, Some, None, OnOk, OnErr, IfOk};
ghost use Rattle.looper_run.specs.declared.by_clock.Loop.TheVariants as loop;
ghost use Rattle.looper_run.specs.Loops.{is_over_then};
ghost use Rattle.looper_run.specs.Holding.{workplace};
ghost use Rattle.plain_loop.specs.Looping.{ServesAlways, KeepsDispatcher, HasLoopedOn, LoopsToItsEnd};
ghost use Rattle.plain_loop.specs.Senders.{IsSender, AreSenders, IsOneFewer, IsQueueLooper};

use crate::handlers::{Handle, Handling};
use crate::mailbox::{Mailbox, Opened, Sender, Senders, Settings, open, open_with};
use crate::records::LetGo;
use loop_io::Clock;
use loop_model::NoMemory;
use looper_run::{ByClock, Dispatcher, Loop, Looper};
use queue_state::Unkept;
use std::alloc::AllocGlobal;
use std::sync::Wait;
use std::thread::{Threads, join};
use std::time;

/// After how many dispatches a looper lets go of its records.
pub(crate) const MOST_AT_ONCE: u64 = 1_024;

// Whether a loop with this answer ended the looper. NoMemory where it found none.
pub(crate) fn is_over(answer: Option<Loop>) -> Result<bool, NoMemory>
    ensures over { IfOk result (λ over. over ≡ is_over_then answer) }
    ensures none { OnErr result (answer ≡ Some loop.NoMemory) }
    ensures kept { OnOk result (answer ≢ Some loop.NoMemory) }
{
    match answer {
        Some(Loop::Ended) => Ok(true),
        Some(Loop::NoMemory) => Err(NoMemory),
        Some(Loop::Cap { .. }) | Some(Loop::Nudged) | None => Ok(false),
    }
}

/// Loops until this moment at the latest, where there is one, or 1,024 dispatches, and where the queue's entries are kept no longer than
/// a second. Answers whether the queue is over. If not it drops the acts that the looper told, and the queue's entries so far where they
/// are kept, so that a looper which does so again and again runs in bounded memory. NoMemory where the dispatcher, a call of the loop or
/// the letting go found none (this project's profile).
pub fn loop_and_let_go<
    R: Wait + time::Clock,
    C: Clock,
    E: LetGo,
    D: Dispatcher<Record = E, Value = ()>,
>(
    mailbox: &Mailbox<R, C, E>,
    looper: &mut Looper<E>,
    dispatcher: &mut D,
    until: Option<u64>,
) -> Result<bool, NoMemory>
    requires looper { IsQueueLooper mailbox.now.queue.now mailbox.now.pool.now looper.old }
    requires free { mailbox.now.queue.now.constants.setting.lockstep ≡ false }
    requires ready { ServesAlways D.Serves D.Awaits D.Meets dispatcher.old (workplace looper.old.held) }
    ensures looped { IfOk result (HasLoopedOn E.keeps (C.shows mailbox.now.clock.now) until mailbox.now.queue.now mailbox.now.pool.now looper.old looper.new) }
    ensures keeps { KeepsDispatcher D.Serves D.origin dispatcher.old dispatcher.new }
    ensures awaits { OnOk result (D.Awaits dispatcher.new None) }
{
    let by = ByClock {
        clock: mailbox.clock,
        start: 0,
        cap: E::waits_to(mailbox.clock, until),
    };
    let answer = looper.run_some(
        mailbox.rt,
        mailbox.queue,
        mailbox.pool,
        mailbox.sources,
        dispatcher,
        &by,
        MOST_AT_ONCE,
    );
    if is_over(answer)? {
        return Ok(true);
    }
    E::let_go(looper, mailbox.rt, mailbox.alloc, mailbox.queue)?;
    Ok(false)
}

/// Loops until the queue is over, and answers the handlers (`Looper.loop`). Moments are uptime. Each 1,024 dispatches, and where the
/// queue's entries are kept each second too, it drops the acts that it told and those entries, so that it may run for ever in bounded
/// memory. NoMemory where a handler, a call of the loop or the letting go found none.
pub fn run_looper<R: Wait + time::Clock, C: Clock, E: LetGo, H: Handle<R, C, E> + Drop>(
    mailbox: &Mailbox<R, C, E>,
    looper: &mut Looper<E>,
    handlers: H,
) -> Result<H, NoMemory>
    requires looper { IsQueueLooper mailbox.now.queue.now mailbox.now.pool.now looper.old }
    requires free { mailbox.now.queue.now.constants.setting.lockstep ≡ false }
    requires holds { H.Holds handlers }
    ensures ended { OnOk result (looper.new.ended ≡ true) }
    ensures looped { OnOk result (LoopsToItsEnd E.keeps (C.shows mailbox.now.clock.now) mailbox.now.queue.now.constants.setting None looper.old looper.new) }
    ensures holds { IfOk result H.Holds }
{
    let mut dispatcher = Handling {
        mailbox: &*mailbox,
        handlers,
    };
    for _ in mailbox.rt.forever() {
        if loop_and_let_go(mailbox, looper, &mut dispatcher, None)? {
            return Ok(dispatcher.handlers);
        }
    }
    unreachable!()
}

/// Makes a looper, does what comes before its loop, as to post its first messages, and loops until the queue is over. Answers the
/// handlers (`Looper.prepare`, `loop`).
pub fn run_here<
    R: AllocGlobal + Wait + time::Clock,
    C: Clock,
    H: Handle<R, C, Unkept> + Drop,
    W: FnOnce(&Mailbox<R, C>, Senders) + Drop,
>(rt: &R, clock: &C, settings: Settings, handlers: H, before: W) -> Result<H, NoMemory>
    requires before { (m : _) (s : _) → AreSenders m.now.queue.now m.now.pool.now s × (length s.posters.items ≡ settings.senders) → W.pre before m s }
    requires holds { H.Holds handlers }
    ensures holds { IfOk result H.Holds }
{
    let alloc = rt.alloc();
    let Opened {
        parts,
        mut looper,
        senders,
    } = open(alloc, settings)?;
    let mailbox = parts.mailbox(rt, alloc, clock);
    before(&mailbox, senders);
    run_looper(&mailbox, &mut looper, handlers)
}

/// Does the work, and then quits the queue safely by this sender (`Looper.quitSafely`). Answers what the work did.
pub fn work_and_quit<R: Wait, C: Clock, T, W: FnOnce(&Mailbox<R, C>, Senders) -> T>(
    mailbox: &Mailbox<R, C>,
    senders: Senders,
    mut last: Sender,
    work: W,
) -> T
    requires last { IsSender mailbox.now.queue.now mailbox.now.pool.now last }
    requires work { W.pre work mailbox senders }
    ensures answer { W.post work mailbox.entry senders result }
{
    let answer = work(mailbox, senders);
    let mut line = last.line(mailbox);
    line.quit_safely();
    answer
}

// Does the work beside the looper.
fn side_by_side<
    R: Threads + Wait + time::Clock + Sync,
    C: Clock + Sync,
    H: Handle<R, C, Unkept> + Send + Drop,
    T: Send + Drop,
    W: FnOnce(&Mailbox<R, C>, Senders) -> T + Send + Drop,
>(
    mailbox: &Mailbox<R, C>,
    mut looper: Looper<Unkept>,
    mut senders: Senders,
    handlers: H,
    work: W,
) -> Result<(T, H), NoMemory>
    requires looper { IsQueueLooper mailbox.now.queue.now mailbox.now.pool.now looper }
    requires free { mailbox.now.queue.now.constants.setting.lockstep ≡ false }
    requires senders { AreSenders mailbox.now.queue.now mailbox.now.pool.now senders × (0 < length senders.posters.items) }
    requires work { (s : _) → AreSenders mailbox.now.queue.now mailbox.now.pool.now s × IsOneFewer s senders → W.pre work mailbox s }
    requires holds { H.Holds handlers }
    ensures holds { IfOk result (λ r. H.Holds r.1) }
{
    let last = senders.next(mailbox);
    let (answer, handlers) = join(
        mailbox.rt,
        || work_and_quit(mailbox, senders, last, work),
        || run_looper(mailbox, &mut looper, handlers),
    );
    Ok((answer, handlers?))
}

/// Runs a looper with these handlers in a thread of its own, and beside it this work, which is handed the looper's mailbox and its
/// senders; when the work is done the queue is quit safely, so it isn't that of a main looper. Answers what the work did, and the
/// handlers (`HandlerThread.start`, `quitSafely`, `join`).
pub fn run_beside<
    R: AllocGlobal + Threads + Wait + time::Clock + Sync,
    C: Clock + Sync,
    H: Handle<R, C, Unkept> + Send + Drop,
    T: Send + Drop,
    W: FnOnce(&Mailbox<R, C>, Senders) -> T + Send + Drop,
>(rt: &R, clock: &C, settings: Settings, handlers: H, work: W) -> Result<(T, H), NoMemory>
    requires work { (m : _) (s : _) → AreSenders m.now.queue.now m.now.pool.now s × (length s.posters.items ≡ settings.senders) → W.pre work m s }
    requires quits { settings.main ≡ false }
    requires holds { H.Holds handlers }
    ensures holds { IfOk result (λ r. H.Holds r.1) }
{
    let alloc = rt.alloc();
    let Opened {
        parts,
        looper,
        senders,
    } = open_with(alloc, settings, u32::from(settings.senders) + 1)?;
    let mailbox = parts.mailbox(rt, alloc, clock);
    side_by_side(&mailbox, looper, senders, handlers, work)
}
