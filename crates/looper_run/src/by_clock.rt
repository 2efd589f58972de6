//! A looper that waits by a clock.
ghost use Rattle.std.specs.Prelude.{◌≡◌, false, map, None, OnOk, IfOk, IfErr};
ghost use Rattle.looper_run.specs.Asked.{Listen, with_asked, AsksByLoop};
ghost use Rattle.looper_run.specs.Carried.{CarriesOver, KeepsLooper, unasked};
ghost use Rattle.looper_run.specs.Ready.{RestsBetween, ServesBetween, MayRun};
ghost use Rattle.looper_run.specs.Going.{MayLoop, GoesThrough};
ghost use Rattle.looper_run.specs.Loops.{IsStill, HasPaced, pace_of, UnlessHalted, IsClosed, IsLoop, LoopBy, has_ended_looper, UnlessLost, LoopsOrGoes, StepsOrGoes};
ghost use Rattle.looper_run.specs.Loops.{IsLoopOrGoes, UnlessLostThen, is_over_then, is_spent, one_less, AnswersWait, Pauses, loop_of};

use crate::dispatcher::Dispatcher;
use crate::looper::Looper;
use crate::sources::{Sources, take_events};
use crate::step::Step;
use loop_io::Clock;
use loop_model::NoMemory;
use message_pool::{Payload, Pool, PoolClaim};
use queue_state::{Nexted, Recorder};
use shared_queue::{SharedQueue, Waited};
use std::sync::{Mutex, Wait};
use std::time;

/// How a loop by a clock ended.
#[derive(Clone, Copy, Debug, PartialEq, Eq)]
pub enum Loop {
    /// The queue is over.
    Ended,
    /// Nothing was due at this moment in milliseconds, which is no earlier than the cap.
    Cap { now: u64 },
    /// Nothing was due, the cap had not come, and the bell was rung.
    Nudged,
    /// No memory was found. What was done till then stands in the journal.
    NoMemory,
}

/// The clock by which a loop goes. A moment is its reading less that at the start, in milliseconds.
#[derive(Drop)]
pub struct ByClock<'a, C: Clock> {
    /// The clock.
    pub clock: &'a C,
    /// Its reading at the start, in milliseconds.
    pub start: u64,
    /// From which moment on the loop waits no more, in milliseconds. None where it waits without limit.
    pub cap: Option<u64>,
}

/// Why a looper looks no further.
#[derive(Clone, Copy, Debug, PartialEq, Eq)]
pub(crate) enum Pause {
    Cap { now: u64 },
    Nudged,
}

/// What came of a wait.
#[derive(Clone, Copy, Debug, PartialEq, Eq)]
pub(crate) enum Pace {
    /// The looper looks again.
    Goes,
    /// The queue is over.
    Ends,
    NoMemory,
    Pauses { pause: Pause },
}

// What a step comes to.
fn paced(step: Step) -> Pace
    ensures { result ≡ pace_of step }
{
    match step {
        Step::Dispatched => Pace::Goes,
        Step::Idled => Pace::Goes,
        Step::Waits { until: _ } => Pace::Goes,
        Step::Ends => Pace::Ends,
        Step::NoMemory => Pace::NoMemory,
    }
}

impl Pause {
    fn as_loop(self) -> Loop
        ensures { result ≡ loop_of self }
    {
        match self {
            Pause::Cap { now } => Loop::Cap { now },
            Pause::Nudged => Loop::Nudged,
        }
    }
}

// What a wait was answered: the answer of a look, or a pause.
fn answer_of<P: Payload>(waited: Waited<PoolClaim<P>>) -> Result<Nexted<PoolClaim<P>>, Pause>
    ensures answer { IfOk result (AnswersWait waited) }
    ensures pause { IfErr result (Pauses waited) }
{
    match waited {
        Waited::Taken { number, now, node } => Ok(Nexted::Taken { number, now, node }),
        Waited::Idle => Ok(Nexted::Idle),
        Waited::End(left) => Ok(Nexted::End(left)),
        Waited::Over => Ok(Nexted::Over),
        Waited::Cap { now } => Err(Pause::Cap { now }),
        Waited::Nudged => Err(Pause::Nudged),
    }
}

// Whether no step is left of this bound, where there is one.
fn is_spent(left: Option<u64>) -> bool
    ensures { result ≡ is_spent left }
{
    match left {
        Some(steps) => steps == 0,
        None => false,
    }
}

// The bound less one step.
fn one_less(left: Option<u64>) -> Option<u64>
    ensures { result ≡ one_less left }
{
    match left {
        Some(steps) => Some(steps.saturating_sub(1)),
        None => None,
    }
}

impl<E: Recorder, P: Payload> Looper<E, P> {
    /// The loop by a clock: the dispatcher's pulse, the events that were handed in, and then waits for messages, each of which
    /// is dispatched, until the queue is over, nothing is due at a moment that is no earlier than the cap, or nothing is due and
    /// the bell was rung; then the events that were handed in since. Idle handlers run as in a round. As `loop` of AOSP's
    /// `Looper`; the cap and the nudge are this project's profile.
    ///
    /// After NoMemory the run is given up.
    pub fn run_loop<R: Wait + time::Clock, D: Dispatcher<Record = E, Value = P>, C: Clock>(
        &mut self,
        rt: &R,
        queue: &SharedQueue<PoolClaim<P>, E>,
        pool: &Pool<P>,
        sources: &Mutex<Sources>,
        d: &mut D,
        by: &ByClock<C>,
    ) -> Loop
        requires looper { MayRun queue.now pool.now self.old }
        requires free { queue.now.constants.setting.lockstep ≡ false }
        requires ready { ServesBetween D.Serves D.Awaits D.Meets d.old self.old.held }
        ensures keeps { KeepsLooper D.Serves D.origin D.nudges unasked IsStill d.old d.new self.old.held self.new.held }
        ensures loops { LoopBy (C.shows by.now.clock.now) by.now.start by.now.cap queue.now.constants.setting self.old.held self.new.held result }
        ensures steps { IsLoop (AsksByLoop (D.asked d.old) (D.asked d.new)) (C.shows by.now.clock.now) by.now.start by.now.cap self.old self.new result }
        ensures rests { UnlessLost result (RestsBetween D.Awaits D.Meets d.new self.new.held) }
        ensures ended { self.new.ended ≡ has_ended_looper result }
    {
        match self.run(rt, queue, pool, sources, d, by, None) {
            Some(ended) => ended,
            None => unreachable!(),
        }
    }

    /// As `run_loop`, but it dispatches a message or runs the idle handlers no more than so many times, each of which counts as one.
    /// None where it did so often, and then it may be called again: for a looper that always has a message due, and is to let
    /// go of its records now and then (this project's profile).
    pub fn run_some<R: Wait + time::Clock, D: Dispatcher<Record = E, Value = P>, C: Clock>(
        &mut self,
        rt: &R,
        queue: &SharedQueue<PoolClaim<P>, E>,
        pool: &Pool<P>,
        sources: &Mutex<Sources>,
        d: &mut D,
        by: &ByClock<C>,
        most: u64,
    ) -> Option<Loop>
        requires looper { MayRun queue.now pool.now self.old }
        requires free { queue.now.constants.setting.lockstep ≡ false }
        requires ready { ServesBetween D.Serves D.Awaits D.Meets d.old self.old.held }
        ensures keeps { KeepsLooper D.Serves D.origin D.nudges unasked IsStill d.old d.new self.old.held self.new.held }
        ensures loops { LoopsOrGoes (C.shows by.now.clock.now) by.now.start by.now.cap queue.now.constants.setting self.old.held self.new.held result }
        ensures steps { IsLoopOrGoes (AsksByLoop (D.asked d.old) (D.asked d.new))
            (C.shows by.now.clock.now) by.now.start by.now.cap (Some most) self.old self.new result }
        ensures rests { UnlessLostThen result (RestsBetween D.Awaits D.Meets d.new self.new.held) }
        ensures ended { self.new.ended ≡ is_over_then result }
    {
        self.run(rt, queue, pool, sources, d, by, Some(most))
    }

    // The loop, with a bound on its steps or without one.
    fn run<R: Wait + time::Clock, D: Dispatcher<Record = E, Value = P>, C: Clock>(
        &mut self,
        rt: &R,
        queue: &SharedQueue<PoolClaim<P>, E>,
        pool: &Pool<P>,
        sources: &Mutex<Sources>,
        d: &mut D,
        by: &ByClock<C>,
        most: Option<u64>,
    ) -> Option<Loop>
        requires may { MayLoop D.Serves D.Awaits D.Meets d.old queue.now pool.now self.old }
        ensures comes { GoesThrough D.Serves D.origin D.nudges unasked D.Awaits D.Meets IsStill (UnlessLostThen result)
            d.old d.new self.old self.new (is_over_then result) }
        ensures loops { LoopsOrGoes (C.shows by.now.clock.now) by.now.start by.now.cap queue.now.constants.setting self.old.held self.new.held result }
        ensures steps { IsLoopOrGoes (AsksByLoop (D.asked d.old) (D.asked d.new))
            (C.shows by.now.clock.now) by.now.start by.now.cap most self.old self.new result }
    {
        let now = by.clock.uptime_millis().saturating_sub(by.start);
        let Ok(()) = self.begin(rt, sources, d, now) else {
            return Some(Loop::NoMemory)
        };
        self.go(rt, queue, pool, sources, d, by, most)
    }

    // Waits for messages until the queue is over, the looper is to pause, or no step is left of the bound.
    fn go<R: Wait + time::Clock, D: Dispatcher<Record = E, Value = P>, C: Clock>(
        &mut self,
        rt: &R,
        queue: &SharedQueue<PoolClaim<P>, E>,
        pool: &Pool<P>,
        sources: &Mutex<Sources>,
        d: &mut D,
        by: &ByClock<C>,
        most: Option<u64>,
    ) -> Option<Loop>
        requires may { MayLoop D.Serves D.Awaits D.Meets d.old queue.now pool.now self.old }
        ensures comes { GoesThrough D.Serves D.origin D.nudges unasked D.Awaits D.Meets IsStill (UnlessLostThen result)
            d.old d.new self.old self.new (is_over_then result) }
        ensures loops { LoopsOrGoes (C.shows by.now.clock.now) by.now.start by.now.cap queue.now.constants.setting self.old.held self.new.held result }
        ensures steps { StepsOrGoes (λ more. D.asked d.new ≡ with_asked (D.asked d.old) (map Listen more))
            (C.shows by.now.clock.now) by.now.start by.now.cap most self.old self.new result }
    {
        let mut left = most;
        for _ in rt.forever() {
            if is_spent(left) {
                return None;
            }
            left = one_less(left);
            match self.pace(rt, queue, pool, sources, d, by) {
                Pace::Goes => {}
                Pace::Ends => {
                    self.ended = true;
                    return Some(Loop::Ended);
                }
                Pace::NoMemory => return Some(Loop::NoMemory),
                Pace::Pauses { pause } => {
                    let Ok(()) = self.close(rt, sources, d) else {
                        return Some(Loop::NoMemory)
                    };
                    return Some(pause.as_loop());
                }
            }
        }
        unreachable!()
    }

    // Waits for a message and dispatches it, or runs the idle handlers, unless the looper is to pause.
    fn pace<R: Wait + time::Clock, D: Dispatcher<Record = E, Value = P>, C: Clock>(
        &mut self,
        rt: &R,
        queue: &SharedQueue<PoolClaim<P>, E>,
        pool: &Pool<P>,
        sources: &Mutex<Sources>,
        d: &mut D,
        by: &ByClock<C>,
    ) -> Pace
        requires may { MayLoop D.Serves D.Awaits D.Meets d.old queue.now pool.now self.old }
        ensures comes { GoesThrough D.Serves D.origin D.nudges D.asked D.Awaits D.Meets IsStill (UnlessHalted result)
            d.old d.new self.old self.new self.old.ended }
        ensures paced { HasPaced (C.shows by.now.clock.now) by.now.start by.now.cap self.old self.new result }
    {
        let waited = self
            .poster
            .wait_next(rt, queue, by.clock, by.start, self.idle_owed, by.cap);
        let answer = match answer_of(waited) {
            Ok(answer) => answer,
            Err(pause) => return Pace::Pauses { pause },
        };
        let step = self.act(rt, pool, sources, d, answer);
        paced(step)
    }

    // The events that were handed in.
    fn close<R: Wait, D: Dispatcher<Record = E, Value = P>>(
        &mut self,
        rt: &R,
        sources: &Mutex<Sources>,
        d: &mut D,
    ) -> Result<(), NoMemory>
        ensures carries { CarriesOver D.Serves D.origin D.nudges unasked D.Awaits D.Meets d.old d.new self.old.held.journal.acts self.new.held.journal.acts }
        ensures closed { IsClosed (λ more. OnOk result (D.asked d.new ≡ with_asked (D.asked d.old) (map Listen more))) self.old self.new }
        ensures ended { self.new.ended ≡ self.old.ended }
    {
        take_events(rt, sources, &mut self.journal, d)
    }
}
