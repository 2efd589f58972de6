//! Handlers, idle handlers and listeners that change their own queue while they run.
ghost use Rattle.std.specs.Prelude.{◌<◌, length};
ghost use Rattle.plain_loop.specs.Senders.{AreSenders};

use handler_post::Handler;
use loop_io::{Clock, StepClock};
use plain_loop::{
    Handle, Handled, Line, Mailbox, Msg, Opened, Senders, Settings, open, run_here, run_looper,
};
use queue_state::Unkept;
use std::sync::Wait;
use std::test::Fail;

const HANDLER: Handler = Handler {
    id: 3,
    asynchronous: false,
};

const ASYNCHRONOUS: Handler = Handler {
    id: 3,
    asynchronous: true,
};

// What a message makes its handler do, which is one call: its code.
const QUIT_SAFELY: u32 = 0;

const POST_IN_FRONT: u32 = 1;

const POST_BARRIER: u32 = 2;

const POST_BEHIND_IT: u32 = 3;

const POST_PAST_IT: u32 = 4;

const NOTHING: u32 = 5;

const REMOVE_BARRIER: u32 = 6;

const REMOVE: u32 = 7;

const ASK: u32 = 8;

const QUIT: u32 = 9;

// The codes of the messages that were handled, as digits; the barrier that was posted; and whether a message that does nothing
// stood in the queue when it was asked.
#[derive(Clone, Copy)]
struct Acting {
    told: u64,
    token: u64,
    found: bool,
}

const BEGUN: Acting = Acting {
    told: 0,
    token: 0,
    found: false,
};

fn with_digit(told: u64, digit: u32) -> u64 {
    told.saturating_mul(10).saturating_add(u64::from(digit))
}

impl<R: Wait, C: Clock> Handle<R, C, Unkept> for Acting {
    fn handle(&mut self, line: &mut Line<R, C>, message: &Msg, now: u64) -> Handled {
        let what = message.what();
        self.told = with_digit(self.told, what);
        match what {
            QUIT_SAFELY => {
                line.quit_safely();
            }
            POST_IN_FRONT => {
                line.send_at_front(HANDLER.obtain(NOTHING, 0));
            }
            POST_BARRIER => self.token = line.post_barrier()?,
            POST_BEHIND_IT => {
                line.send(HANDLER.obtain(QUIT, 0));
            }
            POST_PAST_IT => {
                line.send(ASYNCHRONOUS.obtain(REMOVE_BARRIER, 0));
            }
            REMOVE_BARRIER => {
                line.remove_barrier(self.token)?;
            }
            REMOVE => {
                line.remove(HANDLER.messages(NOTHING));
            }
            ASK => self.found = line.has(HANDLER.messages(NOTHING)),
            QUIT => {
                line.quit();
            }
            _ => {}
        }
        Ok(())
    }
}

// Messages that are sent before the loop, each with its moment; then the codes of those that were handled, as digits, and whether one
// that does nothing was found.
type Row = (&'static [(u32, u64)], u64, bool);

const ROWS: [Row; 5] = [
    (&[(POST_IN_FRONT, 1), (ASK, 1), (QUIT, 1)], 1589, false),
    (
        &[(POST_BARRIER, 1), (POST_BEHIND_IT, 1), (POST_PAST_IT, 1)],
        23469,
        false,
    ),
    (
        &[(REMOVE, 1), (NOTHING, 1), (ASK, 1), (QUIT, 1)],
        789,
        false,
    ),
    (
        &[(ASK, 1), (NOTHING, 1), (QUIT, 1), (NOTHING, 1)],
        859,
        true,
    ),
    (
        &[
            (NOTHING, 1),
            (QUIT_SAFELY, 1),
            (NOTHING, 1),
            (NOTHING, 1_000_000_000),
        ],
        505,
        false,
    ),
];

// Sends the messages in this order.
fn send_all<R: Wait, C: Clock>(
    mailbox: &Mailbox<R, C>,
    mut senders: Senders,
    messages: &[(u32, u64)],
)
    requires { AreSenders mailbox.now.queue.now mailbox.now.pool.now senders × (0 < length senders.posters.items) }
{
    let mut sender = senders.next(mailbox);
    let mut line = sender.line(mailbox);
    for &(what, when) in messages {
        line.send_at(HANDLER.obtain(what, 0), when);
    }
}

#[test]
fn a_handler_changes_its_queue_while_it_handles(rt: HostRuntime) -> Result<(), Fail> {
    let clock = StepClock::new(100);
    for &(messages, told, found) in &ROWS {
        let begin = |mailbox: &_, senders|
            requires { AreSenders mailbox.now.queue.now mailbox.now.pool.now senders × (0 < length senders.posters.items) }
        { send_all(mailbox, senders, messages) };
        let acting = run_here(&rt, &clock, Settings::new(1), BEGUN, begin)?;
        assert!(rt; acting.told == told && acting.found == found);
    }
    Ok(())
}

// The numbers of the idle handlers that ran and of the listeners that were told, as digits, and how many callbacks ran.
#[derive(Drop)]
struct Changing<'a, R: Wait, C: Clock> {
    mailbox: &'a Mailbox<'a, R, C>,
    told: u64,
    callbacks: u32,
}

impl<'a, R: Wait, C: Clock> Handle<R, C, Unkept> for Changing<'a, R, C> {
    fn run_callback(&mut self, line: &mut Line<R, C>, id: u64, now: u64) -> Handled {
        self.callbacks = self.callbacks.saturating_add(1);
        if self.callbacks < 2 {
            line.send_delayed(HANDLER.runnable(id), 700);
        } else {
            line.quit();
        }
        Ok(())
    }

    // The first removes the second.
    fn idle(&mut self, id: u32, keep: bool) -> bool {
        self.told = with_digit(self.told, id);
        if id == 1 {
            self.mailbox.remove_idle_handler(2);
        }
        keep
    }

    // The third registers the seventh in its place, which removes itself. What they answer has no effect then.
    fn listen(&mut self, fd: u32, events: u32, listener: u32) -> u32 {
        self.told = with_digit(self.told, listener);
        let mask = if listener == 3 { 2 } else { 0 };
        if self
            .mailbox
            .sources
            .lock(self.mailbox.rt)
            .fds
            .set(fd, mask, 7)
            .is_err()
        {
            return 0;
        }
        3
    }
}

#[test]
fn what_runs_between_messages_changes_what_is_watched(rt: HostRuntime) -> Result<(), Fail> {
    let alloc = rt.alloc();
    let clock = StepClock::new(100);
    let Opened {
        parts,
        mut looper,
        mut senders,
    } = open(alloc, Settings::new(1))?;
    let mailbox = parts.mailbox(&rt, alloc, &clock);
    mailbox.add_idle_handler(1)?;
    mailbox.add_idle_handler(2)?;
    parts.sources.lock(&rt).fds.set(5, 1, 3)?;
    for events in [1, 1, 2, 2] {
        parts.sources.lock(&rt).fds.hand_in(5, events)?;
    }
    let mut sender = senders.next(&mailbox);
    sender.line(&mailbox).send_delayed(HANDLER.runnable(1), 700);
    let changing = Changing {
        mailbox: &mailbox,
        told: 0,
        callbacks: 0,
    };
    let changing = run_looper(&mailbox, &mut looper, changing)?;
    assert!(rt; changing.callbacks == 2);
    assert!(rt; changing.told == 37121);
    assert!(rt; parts.sources.lock(&rt).fds.watched(5).is_none());
    Ok(())
}
