//! An idle handler of a ready loop.
ghost use Rattle.std.specs.Prelude.{◌<◌, length};
ghost use Rattle.plain_loop.specs.Senders.{AreSenders};

use handler_post::Handler;
use loop_io::{Clock, StepClock};
use plain_loop::{Handle, Handled, Line, Mailbox, Senders, Settings, run_here};
use queue_state::Unkept;
use std::sync::Wait;
use std::test::Fail;

const HANDLER: Handler = Handler {
    id: 3,
    asynchronous: false,
};

// How often the callback and the idle handler ran, and whether the latter is to be kept.
#[derive(Clone, Copy)]
struct Counter {
    callbacks: u32,
    idle: u32,
    keeps: bool,
}

impl<R: Wait, C: Clock> Handle<R, C, Unkept> for Counter {
    fn run_callback(&mut self, line: &mut Line<R, C>, id: u64, now: u64) -> Handled {
        self.callbacks = self.callbacks.saturating_add(1);
        if self.callbacks < 2 {
            line.send_delayed(HANDLER.runnable(id), 650);
        } else {
            line.quit();
        }
        Ok(())
    }

    fn idle(&mut self, id: u32, keep: bool) -> bool {
        self.idle = self.idle.saturating_add(1);
        self.keeps
    }
}

// One idle handler, and a callback that isn't due when the looper looks first.
fn begin<R: Wait, C: Clock>(mailbox: &Mailbox<R, C>, mut senders: Senders)
    requires { AreSenders mailbox.now.queue.now mailbox.now.pool.now senders × (0 < length senders.posters.items) }
{
    let mut sender = senders.next(mailbox);
    if mailbox.add_idle_handler(4).is_err() {
        return;
    }
    sender.line(mailbox).send_delayed(HANDLER.runnable(1), 650);
}

#[test]
fn an_idle_handler_runs_before_each_wait_until_it_is_not_kept(rt: HostRuntime) -> Result<(), Fail> {
    for keeps in [false, true] {
        let clock = StepClock::new(100);
        let counter = Counter {
            callbacks: 0,
            idle: 0,
            keeps,
        };
        let counter = run_here(&rt, &clock, Settings::new(1), counter, begin)?;
        assert!(rt; counter.callbacks == 2);
        assert!(rt; counter.idle == if keeps { 2 } else { 1 });
    }
    Ok(())
}
