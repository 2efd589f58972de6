//! A looper that always has a message due, beside four threads that post; and loopers that have quit.
ghost use Rattle.std.specs.Prelude.{◌≡◌, ◌<◌, false, length};
ghost use Rattle.plain_loop.specs.Senders.{IsSender, AreSenders, IsQueueLooper};

use crate::calls::{Soaked, Window};
use crate::posting::{Again, OWN, post, post_in_vain, post_many};
use loop_io::Clock;
use loop_model::NoMemory;
use looper_run::Looper;
use plain_loop::{Handled, LetGo, Mailbox, Opened, Sender, Senders, Settings, open, run_looper};
use std::alloc::Global;
use std::sync::Wait;
use std::thread::{Threads, join};
use std::time;

/// How many posts each looper refuses that has quit.
const REFUSALS: u64 = 1_000;

/// What was done, if memory was found.
type Done = Result<Soaked, NoMemory>;

/// What both did.
fn sum(one: Done, other: Done) -> Done {
    Ok(one?.and(other?))
}

/// Two post so many messages each, each in a thread of its own.
fn post_both<R: Threads + Wait + time::Clock + Sync, C: Clock + Sync, E: LetGo + Send + Sync>(
    mailbox: &Mailbox<R, C, E>,
    window: &Window,
    first: Sender<E>,
    second: Sender<E>,
    posts: u64,
) -> Done
    requires first { IsSender mailbox.now.queue.now mailbox.now.pool.now first }
    requires second { IsSender mailbox.now.queue.now mailbox.now.pool.now second }
{
    let (first, second) = join(
        mailbox.rt,
        || post_many(mailbox, window, first, posts),
        || post_many(mailbox, window, second, posts),
    );
    sum(first, second)
}

/// Posts the message that the handler posts again.
fn start<R: Wait + time::Clock, C: Clock, E: LetGo>(
    mailbox: &Mailbox<R, C, E>,
    mut sender: Sender<E>,
) -> Handled
    requires { IsSender mailbox.now.queue.now mailbox.now.pool.now sender }
{
    post(&mut sender.line(mailbox), OWN, &mut Soaked::none())
}

/// The handler's own message is posted; and four post so many messages each, each in a thread of its own.
fn post_all<R: Threads + Wait + time::Clock + Sync, C: Clock + Sync, E: LetGo + Send + Sync>(
    mailbox: &Mailbox<R, C, E>,
    window: &Window,
    mut senders: Senders<E>,
    posts: u64,
) -> Done
    requires { AreSenders mailbox.now.queue.now mailbox.now.pool.now senders × (4 < length senders.posters.items) }
{
    start(mailbox, senders.next(mailbox))?;
    let first = senders.next(mailbox);
    let second = senders.next(mailbox);
    let third = senders.next(mailbox);
    let fourth = senders.next(mailbox);
    let (two, others) = join(
        mailbox.rt,
        ||
            requires { IsSender mailbox.now.queue.now mailbox.now.pool.now first × IsSender mailbox.now.queue.now mailbox.now.pool.now second }
        { post_both(mailbox, window, first, second, posts) },
        ||
            requires { IsSender mailbox.now.queue.now mailbox.now.pool.now third × IsSender mailbox.now.queue.now mailbox.now.pool.now fourth }
        { post_both(mailbox, window, third, fourth, posts) },
    );
    sum(two, others)
}

/// The same, and then quits.
fn post_and_quit<R: Threads + Wait + time::Clock + Sync, C: Clock + Sync, E: LetGo + Send + Sync>(
    mailbox: &Mailbox<R, C, E>,
    window: &Window,
    mut senders: Senders<E>,
    posts: u64,
) -> Done
    requires { AreSenders mailbox.now.queue.now mailbox.now.pool.now senders × (5 < length senders.posters.items) }
{
    let mut last = senders.next(mailbox);
    let posted = post_all(mailbox, window, senders, posts);
    last.line(mailbox).quit_safely();
    posted
}

/// A looper whose queue quits at once, and refuses posts.
fn refuse<R: Wait + time::Clock, C: Clock, E: LetGo>(rt: &R, alloc: Global, clock: &C) -> Done {
    let Opened {
        parts,
        mut looper,
        mut senders,
    } = open::<E>(alloc, Settings::new(1))?;
    let mailbox = parts.mailbox(rt, alloc, clock);
    let window = Window::new();
    let again = Again {
        window: &window,
        soaked: Soaked::none(),
    };
    let refused = post_in_vain(&mailbox, senders.next(&mailbox), REFUSALS);
    run_looper(&mailbox, &mut looper, again)?;
    refused
}

/// The looper runs beside them, in a thread of its own.
fn post_beside<R: Threads + Wait + time::Clock + Sync, C: Clock + Sync, E: LetGo + Send + Sync>(
    mailbox: &Mailbox<R, C, E>,
    mut looper: Looper<E>,
    senders: Senders<E>,
    posts: u64,
) -> Done
    requires looper { IsQueueLooper mailbox.now.queue.now mailbox.now.pool.now looper }
    requires free { mailbox.now.queue.now.constants.setting.lockstep ≡ false }
    requires senders { AreSenders mailbox.now.queue.now mailbox.now.pool.now senders × (5 < length senders.posters.items) }
{
    let window = Window::new();
    let again = Again {
        window: &window,
        soaked: Soaked::none(),
    };
    let (posted, again) = join(
        mailbox.rt,
        ||
            requires { AreSenders mailbox.now.queue.now mailbox.now.pool.now senders × (5 < length senders.posters.items) }
        { post_and_quit(mailbox, &window, senders, posts) },
        || run_looper(mailbox, &mut looper, again),
    );
    Ok(posted?.and(again?.soaked))
}

/// Four threads post so many messages together, and a handler its own. Answers what was done.
fn post_four<R: Threads + Wait + time::Clock + Sync, C: Clock + Sync, E: LetGo + Send + Sync>(
    rt: &R,
    alloc: Global,
    clock: &C,
    posts: u64,
) -> Done {
    let Opened {
        parts,
        looper,
        senders,
    } = open::<E>(alloc, Settings::new(6))?;
    let mailbox = parts.mailbox(rt, alloc, clock);
    post_beside(&mailbox, looper, senders, posts)
}

/// Four threads post so many messages together, and a handler its own; then a tenth of so many posts are refused. Answers what was
/// done.
pub fn soak<R: Threads + Wait + time::Clock + Sync, C: Clock + Sync, E: LetGo + Send + Sync>(
    rt: &R,
    alloc: Global,
    clock: &C,
    count: u64,
) -> Done {
    let mut soaked = post_four::<R, C, E>(rt, alloc, clock, count / 4)?;
    for _ in 0..count / 10 / REFUSALS {
        soaked = soaked.and(refuse::<R, C, E>(rt, alloc, clock)?);
    }
    Ok(soaked)
}
