//! A looper.
ghost use Rattle.std.specs.Prelude.{◌≡◌, true, false, [], OnOk};
ghost use mathlib.Core.List.{IsPrefix};
ghost use Rattle.loop_model.specs.Lists.{longer};
ghost use Rattle.shared_queue.specs.Known.{IsOf, HasOnlyHeard};
ghost use Rattle.looper_run.specs.Holding.{IsBeside};
ghost use Rattle.looper_run.specs.Asked.{with_asked, asked_by_round};
ghost use Rattle.looper_run.specs.Carried.{KeepsLooper, unasked};
ghost use Rattle.looper_run.specs.Ready.{RestsBetween, ServesBetween, MayRun};
ghost use Rattle.looper_run.specs.Going.{MayGoOn, GoesThrough};
ghost use Rattle.looper_run.specs.Tests.{IsSameLooper};
ghost use Rattle.looper_run.specs.Looks.{IsBegun, DrainBy, IsRound};
ghost use Rattle.looper_run.specs.Round.{RoundBy, UnlessWanting, is_ended};

use crate::dispatcher::{Did, Dispatcher};
use crate::own::Own;
use crate::sources::{Sources, take_events};
use crate::step::Step;
use loop_model::{Journal, NoMemory, Sequence};
use message_pool::{Payload, Pool, PoolClaim, PoolPass};
use queue_state::{Kept, Recorder};
use shared_queue::{Poster, SharedQueue};
use std::alloc::Global;
use std::marker::Model;
use std::sync::{Mutex, Wait};

/// How a round ended.
#[derive(Clone, Copy, Debug, PartialEq, Eq)]
pub enum Round {
    /// So many messages were dispatched. Now the looper waits, until this moment in milliseconds, or without limit.
    Drained { dispatched: u64, until: Option<u64> },
    /// So many messages were dispatched, and the queue is over.
    Ended { dispatched: u64 },
    /// No memory was found. What was done till then stands in the journal.
    NoMemory,
}

/// The loop of one queue, whose entries go where `E` says, and whose messages may carry values of the type `P`. Contracts see what it works with, whether an idle turn is owed, and
/// whether a round ended it.
#[derive(Drop)]
pub struct Looper<E: Recorder = Kept, P: Payload = ()> {
    pub(crate) poster: Poster<PoolClaim<P>, E>,
    pub(crate) pass: PoolPass<P>,
    pub(crate) journal: Journal,
    pub(crate) idle_owed: bool,
    pub(crate) ended: bool,
}

impl<E: Recorder, P: Payload> Model for Looper<E, P> {
    ghost use Rattle.looper_run.specs.Holding.{Looping};

    ghost Value = { Looping };

    ghost view = { λ l. record { held = record { poster = l.poster; pass = l.pass; journal = l.journal }; idle_owed = l.idle_owed; ended = l.ended } };
}

impl<E: Recorder, P: Payload> Looper<E, P> {
    /// A looper that has done nothing, by its poster of its own queue and a pass of the queue's pool. An idle turn is owed. It
    /// takes no memory. As `prepare` of AOSP's `Looper`.
    pub fn make(
        alloc: Global,
        looper: u32,
        poster: Poster<PoolClaim<P>, E>,
        pass: PoolPass<P>,
    ) -> Looper<E, P>
        ensures held { result.held ≡ record { poster = poster; pass = pass; journal = record { looper = looper; acts = [] } } }
        ensures flags { (result.idle_owed ≡ true) × (result.ended ≡ false) }
    {
        Looper {
            poster,
            pass,
            journal: Journal {
                looper,
                acts: Sequence::new(alloc),
            },
            idle_owed: true,
            ended: false,
        }
    }

    /// Its poster, its pass and its journal, at its end (this project's profile).
    pub fn into_parts(self) -> (Poster<PoolClaim<P>, E>, PoolPass<P>, Journal)
        ensures { (result.0 ≡ self.held.poster) × (result.1 ≡ self.held.pass) × (result.2 ≡ self.held.journal) }
    {
        let Looper {
            poster,
            pass,
            journal,
            idle_owed: _,
            ended: _,
        } = self;
        (poster, pass, journal)
    }

    /// Lets its poster hear another poster of the queue. It takes no turn (this project's profile).
    pub fn hear(
        &mut self,
        queue: &SharedQueue<PoolClaim<P>, E>,
        other: &mut Poster<PoolClaim<P>, E>,
    )
        requires { IsOf self.old.held.poster queue.now × IsOf other.old queue.now }
        ensures seen { self.new.held.poster.view.seen ≡ longer self.old.held.poster.view.seen other.old.view.seen }
        ensures begins { IsPrefix self.old.held.poster.view.seen self.new.held.poster.view.seen × IsPrefix other.old.view.seen self.new.held.poster.view.seen }
        ensures same { HasOnlyHeard self.old.held.poster self.new.held.poster }
        ensures beside { IsBeside self.old self.new }
        ensures other { other.new ≡ other.old }
    {
        self.poster.hear(queue, other);
    }

    /// Lets another poster of the queue hear its poster. It takes no turn (this project's profile).
    pub fn tell(
        &mut self,
        queue: &SharedQueue<PoolClaim<P>, E>,
        other: &mut Poster<PoolClaim<P>, E>,
    )
        requires { IsOf self.old.held.poster queue.now × IsOf other.old queue.now }
        ensures seen { other.new.view.seen ≡ longer other.old.view.seen self.old.held.poster.view.seen }
        ensures begins { IsPrefix other.old.view.seen other.new.view.seen × IsPrefix self.old.held.poster.view.seen other.new.view.seen }
        ensures same { HasOnlyHeard other.old other.new }
        ensures looper { self.new ≡ self.old }
    {
        other.hear(queue, &mut self.poster);
    }

    /// One round: the dispatcher's pulse, the events that were handed in, and then looks for messages until none is due or
    /// the queue is over. Between two messages, and at the start, the idle handlers run once where the looper has nothing to
    /// do. `now` is the moment of the round in milliseconds; in lockstep the queue's time counts. As `loop` of AOSP's
    /// `Looper`.
    ///
    /// Drained where the last look answered that the looper is to wait, Ended where it ended the queue or found it over.
    /// After NoMemory the run is given up.
    pub fn run_round<R: Wait, D: Dispatcher<Record = E, Value = P>>(
        &mut self,
        rt: &R,
        queue: &SharedQueue<PoolClaim<P>, E>,
        pool: &Pool<P>,
        sources: &Mutex<Sources>,
        d: &mut D,
        now: u64,
    ) -> Round
        requires looper { MayRun queue.now pool.now self.old }
        requires ready { ServesBetween D.Serves D.Awaits D.Meets d.old self.old.held }
        ensures keeps { KeepsLooper D.Serves D.origin D.nudges unasked IsSameLooper d.old d.new self.old.held self.new.held }
        ensures round { RoundBy queue.now.constants.setting now self.old.held self.new.held result }
        ensures looks { IsRound (λ heard. D.asked d.new ≡ with_asked (D.asked d.old) (asked_by_round now heard)) now self.old self.new result }
        ensures rests { UnlessWanting result (RestsBetween D.Awaits D.Meets d.new self.new.held) }
        ensures ended { self.new.ended ≡ is_ended result }
    {
        let Ok(()) = self.begin(rt, sources, d, now) else {
            return Round::NoMemory
        };
        self.drain(rt, queue, pool, sources, d, now)
    }

    // The pulse, and the events that were handed in.
    pub(crate) fn begin<R: Wait, D: Dispatcher<Record = E, Value = P>>(
        &mut self,
        rt: &R,
        sources: &Mutex<Sources>,
        d: &mut D,
        now: u64,
    ) -> Result<(), NoMemory>
        requires ready { ServesBetween D.Serves D.Awaits D.Meets d.old self.old.held }
        ensures comes { GoesThrough D.Serves D.origin D.nudges unasked D.Awaits D.Meets IsSameLooper (OnOk result)
            d.old d.new self.old self.new self.old.ended }
        ensures begun { IsBegun (λ heard. OnOk result (D.asked d.new ≡ with_asked (D.asked d.old) (asked_by_round now heard))) self.old self.new }
    {
        let mut own = Own {
            poster: &mut self.poster,
            pass: &mut self.pass,
            journal: &mut self.journal,
        };
        match d.pulse(&mut own, now) {
            Did::NoMemory => Err(NoMemory),
            Did::Yes | Did::No => take_events(rt, sources, &mut self.journal, d),
        }
    }

    // Looks for messages until none is due or the queue is over.
    fn drain<R: Wait, D: Dispatcher<Record = E, Value = P>>(
        &mut self,
        rt: &R,
        queue: &SharedQueue<PoolClaim<P>, E>,
        pool: &Pool<P>,
        sources: &Mutex<Sources>,
        d: &mut D,
        now: u64,
    ) -> Round
        requires may { MayGoOn D.Serves D.Awaits D.Meets d.old queue.now pool.now self.old }
        ensures comes { GoesThrough D.Serves D.origin D.nudges D.asked D.Awaits D.Meets IsSameLooper (UnlessWanting result)
            d.old d.new self.old self.new (is_ended result) }
        ensures round { RoundBy queue.now.constants.setting now self.old.held self.new.held result }
        ensures looks { DrainBy now self.old self.new result }
    {
        let mut dispatched = 0;
        for _ in rt.forever() {
            match self.step(rt, queue, pool, sources, d, now) {
                Step::Dispatched => dispatched += 1,
                Step::Idled => {}
                Step::Waits { until } => return Round::Drained { dispatched, until },
                Step::Ends => {
                    self.ended = true;
                    return Round::Ended { dispatched };
                }
                Step::NoMemory => return Round::NoMemory,
            }
        }
        unreachable!()
    }
}
