//! Loops of loopers whose messages may carry a value.
ghost use Rattle.std.specs.Prelude.{◌≡◌, ◌+◌, ◌<◌, ℕ, false, None, true, length, OnOk, IfOk};
ghost use Rattle.looper_run.specs.Holding.{workplace};
ghost use Rattle.looper_run.specs.Tests.{IsSameLooper};
ghost use Rattle.plain_loop.specs.Looping.{LetsGoOf, ServesAlways, KeepsDispatcher, HasLoopedOn, LoopsToItsEnd};
ghost use Rattle.plain_loop.specs.Senders.{IsSender, AreSenders, IsQueueLooper};

use crate::beside::{MOST_AT_ONCE, is_over};
use crate::mailbox::{Mailbox, Opened, Sender, Senders, Settings, open_queue};
use crate::value_handlers::{HandleValues, HandlingValues};
use loop_io::Clock;
use loop_model::NoMemory;
use looper_run::{ByClock, Dispatcher, Looper};
use message_pool::Payload;
use queue_state::Unkept;
use std::alloc::{AllocGlobal, Global};
use std::sync::Wait;
use std::thread::{Threads, join};
use std::time;

// Drops the acts that a looper over a queue without a record told.
fn drop_told<P: Payload>(looper: &mut Looper<Unkept, P>, alloc: Global) -> Result<(), NoMemory>
    ensures gone { LetsGoOf false result looper.old looper.new }
    ensures same { IsSameLooper looper.old.held looper.new.held }
{
    looper.drop_acts(alloc);
    Ok(())
}

// Loops as `loop_and_let_go` does, over a queue without a record whose messages may carry values.
fn loop_and_drop<
    R: Wait + time::Clock,
    C: Clock,
    P: Payload,
    D: Dispatcher<Record = Unkept, Value = P>,
>(
    mailbox: &Mailbox<R, C, Unkept, P>,
    looper: &mut Looper<Unkept, P>,
    dispatcher: &mut D,
    until: Option<u64>,
) -> Result<bool, NoMemory>
    requires looper { IsQueueLooper mailbox.now.queue.now mailbox.now.pool.now looper.old }
    requires free { mailbox.now.queue.now.constants.setting.lockstep ≡ false }
    requires ready { ServesAlways D.Serves D.Awaits D.Meets dispatcher.old (workplace looper.old.held) }
    ensures looped { IfOk result (HasLoopedOn false (C.shows mailbox.now.clock.now) until mailbox.now.queue.now mailbox.now.pool.now looper.old looper.new) }
    ensures keeps { KeepsDispatcher D.Serves D.origin dispatcher.old dispatcher.new }
    ensures awaits { OnOk result (D.Awaits dispatcher.new None) }
{
    let by = ByClock {
        clock: mailbox.clock,
        start: 0,
        cap: until,
    };
    let answer = looper.run_some(
        mailbox.rt,
        mailbox.queue,
        mailbox.pool,
        mailbox.sources,
        dispatcher,
        &by,
        MOST_AT_ONCE,
    );
    if is_over(answer)? {
        return Ok(true);
    }
    drop_told(looper, mailbox.alloc)?;
    Ok(false)
}

/// Loops as `run_looper` does until the queue is over, and answers the handlers, over a queue that keeps no entry and whose messages may
/// carry values (`Looper.loop`). NoMemory where a handler or a call of the loop found none.
pub fn run_value_looper<R: Wait + time::Clock, C: Clock, H: HandleValues<R, C> + Drop>(
    mailbox: &Mailbox<R, C, Unkept, H::Value>,
    looper: &mut Looper<Unkept, H::Value>,
    handlers: H,
) -> Result<H, NoMemory>
    requires looper { IsQueueLooper mailbox.now.queue.now mailbox.now.pool.now looper.old }
    requires free { mailbox.now.queue.now.constants.setting.lockstep ≡ false }
    requires holds { H.Holds handlers }
    ensures ended { OnOk result (looper.new.ended ≡ true) }
    ensures looped { OnOk result (LoopsToItsEnd false (C.shows mailbox.now.clock.now) mailbox.now.queue.now.constants.setting None looper.old looper.new) }
    ensures holds { IfOk result H.Holds }
{
    let mut dispatcher = HandlingValues {
        mailbox: &*mailbox,
        carried: None,
        handlers,
    };
    for _ in mailbox.rt.forever() {
        if loop_and_drop(mailbox, looper, &mut dispatcher, None)? {
            return Ok(dispatcher.handlers);
        }
    }
    unreachable!()
}

/// Work beside a looper whose messages may carry a value. It is a trait, since a closure's bound can't name a mailbox for any type of
/// value (this project's profile).
pub trait WorkBeside<R: Wait, C: Clock, P: Payload> {
    /// What it answers.
    type Answer: Send + Drop;

    /// How many senders it asks for.
    ghost count: { Self → ℕ };

    /// Does the work, with the looper's mailbox and its senders.
    fn run(
        self,
        mailbox: &Mailbox<R, C, Unkept, P>,
        senders: &mut Senders<Unkept, P>,
    ) -> Self::Answer
        requires senders { AreSenders mailbox.now.queue.now mailbox.now.pool.now senders.old }
        requires count { length senders.old.posters.items ≡ count self };
}

// Does the work, and then quits the queue safely by this sender.
fn work_and_quit<R: Wait, C: Clock, P: Payload, W: WorkBeside<R, C, P>>(
    mailbox: &Mailbox<R, C, Unkept, P>,
    mut senders: Senders<Unkept, P>,
    mut last: Sender<Unkept, P>,
    work: W,
) -> W::Answer
    requires last { IsSender mailbox.now.queue.now mailbox.now.pool.now last }
    requires senders { AreSenders mailbox.now.queue.now mailbox.now.pool.now senders }
    requires count { length senders.posters.items ≡ W.count work }
{
    let answer = work.run(mailbox, &mut senders);
    let mut line = last.line(mailbox);
    line.quit_safely();
    answer
}

// Does the work beside the looper.
fn side_by_side<
    R: Threads + Wait + time::Clock + Sync,
    C: Clock + Sync,
    H: HandleValues<R, C> + Send + Drop,
    W: WorkBeside<R, C, H::Value> + Send + Drop,
>(
    mailbox: &Mailbox<R, C, Unkept, H::Value>,
    mut looper: Looper<Unkept, H::Value>,
    mut senders: Senders<Unkept, H::Value>,
    handlers: H,
    work: W,
) -> Result<(W::Answer, H), NoMemory>
    requires looper { IsQueueLooper mailbox.now.queue.now mailbox.now.pool.now looper }
    requires free { mailbox.now.queue.now.constants.setting.lockstep ≡ false }
    requires senders { AreSenders mailbox.now.queue.now mailbox.now.pool.now senders }
    requires count { length senders.posters.items ≡ W.count work + 1 }
    requires holds { H.Holds handlers }
    ensures holds { IfOk result (λ r. H.Holds r.1) }
{
    let last = senders.next(mailbox);
    let (answer, handlers) = join(
        mailbox.rt,
        ||
            requires { IsSender mailbox.now.queue.now mailbox.now.pool.now last × AreSenders mailbox.now.queue.now mailbox.now.pool.now senders × (length senders.posters.items ≡ W.count work) }
        { work_and_quit(mailbox, senders, last, work) },
        ||
            requires { IsQueueLooper mailbox.now.queue.now mailbox.now.pool.now looper × (mailbox.now.queue.now.constants.setting.lockstep ≡ false) × H.Holds handlers }
        { run_value_looper(mailbox, &mut looper, handlers) },
    );
    Ok((answer, handlers?))
}

/// Runs a looper with these handlers in a thread of its own, and beside it this work, which is handed the looper's mailbox and its
/// senders; when the work is done the queue is quit safely, so it isn't that of a main looper. Answers what the work did, and the
/// handlers (`HandlerThread.start`, `quitSafely`, `join`).
pub fn run_values_beside<
    R: AllocGlobal + Threads + Wait + time::Clock + Sync,
    C: Clock + Sync,
    H: HandleValues<R, C> + Send + Drop,
    W: WorkBeside<R, C, H::Value> + Send + Drop,
>(rt: &R, clock: &C, settings: Settings, handlers: H, work: W) -> Result<(W::Answer, H), NoMemory>
    requires count { settings.senders ≡ W.count work }
    requires quits { settings.main ≡ false }
    requires holds { H.Holds handlers }
    ensures holds { IfOk result (λ r. H.Holds r.1) }
{
    let alloc = rt.alloc();
    let Opened {
        parts,
        looper,
        senders,
    } = open_queue(alloc, settings, u32::from(settings.senders) + 1)?;
    let mailbox = parts.mailbox(rt, alloc, clock);
    side_by_side(&mailbox, looper, senders, handlers, work)
}
