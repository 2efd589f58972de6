//! A looper as its senders see it, and the senders.
ghost use Rattle.std.specs.Prelude.{◌≡◌, ◌+◌, ◌<◌, ◌≤◌, false, length, IfOk};
ghost use Rattle.handler_post.specs.Ways.{IsReady};
ghost use Rattle.shared_queue.specs.Known.{IsOf};
ghost use Rattle.shared_queue.specs.Ends.{IsNewPoster, AreNew};
ghost use Rattle.plain_loop.specs.Lines.{way_of};
ghost use Rattle.plain_loop.specs.Senders.{IsSender, AreSenders, IsOneFewer, IsOpened};

use crate::lines::Line;
use loop_io::Clock;
use loop_model::NoMemory;
use loop_sources::{FdTable, IdleSet};
use looper_run::{Looper, Sources};
use message_pool::{Payload, Pool, PoolClaim, PoolPass};
use queue_state::{Recorder, Unkept};
use shared_queue::{Poster, SharedQueue};
use std::alloc::Global;
use std::sync::{Mutex, Wait};

/// How a looper begins.
#[derive(Clone, Copy, Debug, PartialEq, Eq)]
pub struct Settings {
    /// The number of the looper.
    pub looper: u32,
    /// Whether it is the main one, which may not quit.
    pub main: bool,
    /// How many threads post, beside the looper itself.
    pub senders: u16,
}

impl Settings {
    /// The looper of number 0, which may quit, with so many threads that post to it.
    pub fn new(senders: u16) -> Settings
        ensures { (result.senders ≡ senders) × (result.main ≡ false) × (result.looper ≡ 0) }
    {
        Settings {
            looper: 0,
            main: false,
            senders,
        }
    }
}

/// What one thread posts by: its poster of the queue, and its pass of the pool.
#[derive(Drop)]
pub struct Sender<E: Recorder = Unkept, P: Payload = ()> {
    /// Its poster of the queue.
    pub poster: Poster<PoolClaim<P>, E>,
    /// Its pass of the pool.
    pub pass: PoolPass<P>,
}

impl<E: Recorder, P: Payload> Sender<E, P> {
    /// A line to the queue (`new Handler(looper)`).
    pub fn line<'a, R: Wait, C: Clock>(
        &'a mut self,
        mailbox: &'a Mailbox<'a, R, C, E, P>,
    ) -> Line<'a, R, C, E, P>
        requires { IsSender mailbox.now.queue.now mailbox.now.pool.now self.old }
        ensures ready { IsReady (way_of result) }
        ensures queue { (result.queue.now ≡ mailbox.now.queue.now) × (result.pool.now ≡ mailbox.now.pool.now) }
        ensures clock { result.clock.now ≡ mailbox.now.clock.now }
        ensures sender { (result.poster.now ≡ self.old.poster) × (result.pass.now ≡ self.old.pass) }
    {
        Line {
            rt: mailbox.rt,
            alloc: mailbox.alloc,
            clock: mailbox.clock,
            queue: mailbox.queue,
            poster: &mut self.poster,
            pool: mailbox.pool,
            pass: &mut self.pass,
        }
    }
}

/// The senders that no thread has yet.
#[derive(Drop)]
pub struct Senders<E: Recorder = Unkept, P: Payload = ()> {
    /// Their posters, in order.
    pub posters: Vec<Poster<PoolClaim<P>, E>>,
    /// The pass that theirs are split from.
    pub pass: PoolPass<P>,
}

impl<E: Recorder, P: Payload> Senders<E, P> {
    /// The last sender that no thread has, which has done nothing. There is one.
    pub fn next<R: Wait, C: Clock>(&mut self, mailbox: &Mailbox<R, C, E, P>) -> Sender<E, P>
        requires { AreSenders mailbox.now.queue.now mailbox.now.pool.now self.old × (0 < length self.old.posters.items) }
        ensures sender { IsSender mailbox.now.queue.now mailbox.now.pool.now result }
        ensures unused { IsNewPoster result.poster }
        ensures rest { AreSenders mailbox.now.queue.now mailbox.now.pool.now self.new }
        ensures count { IsOneFewer self.new self.old }
    {
        let poster = last_of(mailbox.queue, &mut self.posters);
        Sender {
            poster,
            pass: self.pass.split(mailbox.pool),
        }
    }
}

/// What a mailbox shows: a queue, the pool of its messages, and what its looper watches.
#[derive(Drop)]
pub struct MailboxParts<E: Recorder = Unkept, P: Payload = ()> {
    /// The queue.
    pub queue: SharedQueue<PoolClaim<P>, E>,
    /// The pool of its messages.
    pub pool: Pool<P>,
    /// The looper's idle handlers and watched descriptors.
    pub sources: Mutex<Sources>,
}

impl<E: Recorder, P: Payload> MailboxParts<E, P> {
    /// The mailbox of these parts, with the runtime, the allocator and the clock that its calls use.
    pub fn mailbox<'a, R: Wait, C: Clock>(
        &'a self,
        rt: &'a R,
        alloc: Global,
        clock: &'a C,
    ) -> Mailbox<'a, R, C, E, P>
        ensures queue { (result.queue.now ≡ self.now.queue) × (result.pool.now ≡ self.now.pool) }
        ensures clock { result.clock.now ≡ clock.now }
    {
        Mailbox {
            rt,
            alloc,
            clock,
            queue: &self.queue,
            pool: &self.pool,
            sources: &self.sources,
        }
    }
}

/// A queue that nobody has used, with its pool, its looper and its senders.
#[derive(Drop)]
pub struct Opened<E: Recorder = Unkept, P: Payload = ()> {
    /// The queue with its pool. There are no idle handlers and no watched descriptors.
    pub parts: MailboxParts<E, P>,
    /// Its looper.
    pub looper: Looper<E, P>,
    /// Its senders, as many as the settings say.
    pub senders: Senders<E, P>,
}

/// A queue with its pool, its looper and as many senders as the settings say (`Looper.prepare`). What it opens is `Opened<Unkept>` for a
/// queue that keeps no entry, and `Opened<Kept>` for one whose history can be read. NoMemory where it found none.
pub fn open<E: Recorder>(alloc: Global, settings: Settings) -> Result<Opened<E>, NoMemory>
    ensures opened { IfOk result (IsOpened settings settings.senders) }
{
    open_with(alloc, settings, u32::from(settings.senders))
}

/// The same with so many senders (this project's profile).
pub fn open_with<E: Recorder>(
    alloc: Global,
    settings: Settings,
    senders: u32,
) -> Result<Opened<E>, NoMemory>
    requires { senders ≤ 65536 }
    ensures opened { IfOk result (IsOpened settings senders) }
{
    open_queue(alloc, settings, senders)
}

/// The same for messages that may carry a value of the type `P`, over a queue that keeps no entry.
pub fn open_for_values<P: Payload>(
    alloc: Global,
    settings: Settings,
) -> Result<Opened<Unkept, P>, NoMemory>
    ensures opened { IfOk result (IsOpened settings settings.senders) }
{
    open_queue(alloc, settings, u32::from(settings.senders))
}

// A queue of either kind with so many senders.
pub(crate) fn open_queue<E: Recorder, P: Payload>(
    alloc: Global,
    settings: Settings,
    senders: u32,
) -> Result<Opened<E, P>, NoMemory>
    requires { senders ≤ 65536 }
    ensures opened { IfOk result (IsOpened settings senders) }
{
    let (pool, mut pass) = Pool::new(alloc)?;
    let (queue, mut posters) = SharedQueue::make(
        alloc,
        pool.home(),
        settings.looper,
        settings.main,
        false,
        senders + 1,
    )?;
    let own = last_of(&queue, &mut posters);
    let looper = Looper::make(alloc, settings.looper, own, pass.split(&pool));
    let sources = Mutex::new(Sources {
        idle: IdleSet::empty(alloc),
        fds: FdTable::empty(alloc),
    });
    Ok(Opened {
        parts: MailboxParts {
            queue,
            pool,
            sources,
        },
        looper,
        senders: Senders { posters, pass },
    })
}

/// A looper as its senders see it: its queue, the pool of the queue's messages, its idle handlers and descriptors, and what calls on
/// it ask for beside.
#[derive(Drop)]
pub struct Mailbox<'a, R: Wait, C: Clock, E: Recorder = Unkept, P: Payload = ()> {
    /// What locks and waits go through.
    pub rt: &'a R,
    /// Where memory comes from.
    pub alloc: Global,
    /// The clock.
    pub clock: &'a C,
    /// The queue.
    pub queue: &'a SharedQueue<PoolClaim<P>, E>,
    /// The pool of its messages.
    pub pool: &'a Pool<P>,
    /// The looper's idle handlers and watched descriptors.
    pub sources: &'a Mutex<Sources>,
}

impl<'a, R: Wait, C: Clock, E: Recorder, P: Payload> Mailbox<'a, R, C, E, P> {
    /// Adds an idle handler of this number, whose code is `Handle::idle` (`MessageQueue.addIdleHandler`). It runs when the looper next
    /// has nothing to do, if it has not waited already.
    pub fn add_idle_handler(&self, id: u32) -> Result<(), NoMemory> {
        self.sources.lock(self.rt).idle.add(id, true)?;
        Ok(())
    }

    /// Removes the first idle handler of this number, and answers whether there was one (`MessageQueue.removeIdleHandler`).
    pub fn remove_idle_handler(&self, id: u32) -> bool {
        self.sources.lock(self.rt).idle.remove(id)
    }
}

/// Takes the last of these posters out.
fn last_of<E: Recorder, P: Payload>(
    queue: &SharedQueue<PoolClaim<P>, E>,
    posters: &mut Vec<Poster<PoolClaim<P>, E>>,
) -> Poster<PoolClaim<P>, E>
    requires { AreNew queue.now posters.old.items × (0 < length posters.old.items) }
    ensures poster { IsOf result queue.now }
    ensures unused { IsNewPoster result }
    ensures rest { AreNew queue.now posters.new.items }
    ensures count { length posters.old.items ≡ length posters.new.items + 1 }
    ensures sender { result.sender + 1 ≡ length posters.old.items }
{
    posters.pop().unwrap()
}
