//! One look for a message, and what comes of it.
ghost use Rattle.std.specs.Prelude.{◌≡◌, ℕ, All};
ghost use Rattle.message_pool.specs.Obtain.{IsNodeOf};
ghost use Rattle.shared_queue.specs.Calls.{NextedBy};
ghost use Rattle.looper_run.specs.Holding.{Sender};
ghost use Rattle.looper_run.specs.Going.{MayGoOn, MayAct, GoesThrough};
ghost use Rattle.looper_run.specs.Tests.{IsSameLooper};
ghost use Rattle.looper_run.specs.Told.{AreRecycled};
ghost use Rattle.looper_run.specs.Looks.{StepBy, WaitsAsTold, by_poster};
ghost use Rattle.looper_run.specs.Round.{UnlessStopped};

use crate::dispatch::dispatch;
use crate::dispatcher::Dispatcher;
use crate::looper::Looper;
use crate::own::Own;
use crate::sources::{Sources, run_idle};
use message_list::NodeList;
use message_pool::{Payload, Pool, PoolClaim, PoolPass};
use message_slot::Message;
use queue_state::{Nexted, Recorder};
use shared_queue::SharedQueue;
use std::sync::{Mutex, Wait};

/// What came of a look.
#[derive(Clone, Copy, Debug, PartialEq, Eq)]
pub enum Step {
    /// A message was dispatched.
    Dispatched,
    /// The idle handlers ran.
    Idled,
    /// Nothing is due, until this moment in milliseconds or without limit.
    Waits { until: Option<u64> },
    /// The queue is over.
    Ends,
    /// No memory was found.
    NoMemory,
}

// Recycles the messages that a queue leaves.
fn recycle_all<P: Payload>(
    pool: &Pool<P>,
    pass: &mut PoolPass<P>,
    mut nodes: NodeList<Message<PoolClaim<P>>>,
)
    requires pass { pass.old.home ≡ pool.now }
    requires nodes { All (IsNodeOf pool.now) nodes }
    ensures home { pass.new.home ≡ pool.now }
    ensures recycled { AreRecycled nodes pass.old pass.new }
{
    while let Some(node) = nodes.pop_front() {
        pool.recycle(pass, node);
    }
}

impl<E: Recorder, P: Payload> Looper<E, P> {
    // Looks for a message once, and dispatches it, or runs the idle handlers.
    pub(crate) fn step<R: Wait, D: Dispatcher<Record = E, Value = P>>(
        &mut self,
        rt: &R,
        queue: &SharedQueue<PoolClaim<P>, E>,
        pool: &Pool<P>,
        sources: &Mutex<Sources>,
        d: &mut D,
        now: u64,
    ) -> Step
        requires may { MayGoOn D.Serves D.Awaits D.Meets d.old queue.now pool.now self.old }
        ensures comes { GoesThrough D.Serves D.origin D.nudges D.asked D.Awaits D.Meets IsSameLooper (UnlessStopped result)
            d.old d.new self.old self.new self.old.ended }
        ensures step { StepBy now self.old self.new result }
    {
        let answer = self.poster.next(rt, queue, now, self.idle_owed);
        self.act(rt, pool, sources, d, answer)
    }

    // Does what a look for a message was answered: dispatches the message, or runs the idle handlers.
    pub(crate) fn act<R: Wait, D: Dispatcher<Record = E, Value = P>>(
        &mut self,
        rt: &R,
        pool: &Pool<P>,
        sources: &Mutex<Sources>,
        d: &mut D,
        answer: Nexted<PoolClaim<P>>,
    ) -> Step
        requires may { MayAct D.Serves D.Awaits D.Meets d.old pool.now self.old answer }
        ensures comes { GoesThrough D.Serves D.origin D.nudges D.asked D.Awaits D.Meets IsSameLooper (UnlessStopped result)
            d.old d.new self.old self.new self.old.ended }
        ensures step { (p : Sender) (now : ℕ) → NextedBy p self.old.held.poster now self.old.idle_owed answer
            → StepBy now (by_poster self.old p) self.new result }
        ensures waits { WaitsAsTold answer result }
    {
        match answer {
            Nexted::Taken { number, now, node } => {
                self.idle_owed = true;
                let mut own = Own {
                    poster: &mut self.poster,
                    pass: &mut self.pass,
                    journal: &mut self.journal,
                };
                match dispatch(d, pool, &mut own, number, now, node) {
                    Ok(()) => Step::Dispatched,
                    Err(_) => Step::NoMemory,
                }
            }
            Nexted::Idle => {
                self.idle_owed = false;
                match run_idle(rt, sources, &mut self.journal, d) {
                    Ok(()) => Step::Idled,
                    Err(_) => Step::NoMemory,
                }
            }
            Nexted::Wait { until } => Step::Waits { until },
            Nexted::End(left) => {
                recycle_all(pool, &mut self.pass, left);
                Step::Ends
            }
            Nexted::Over => Step::Ends,
        }
    }
}
