//! A looper that runs by a clock.
ghost use Rattle.std.specs.Prelude.{◌≡◌, ◌≢◌, ◌+◌, ◌||◌, None, Some, IsSomeAnd, IsTrue, true, false, OnOk};
ghost use Rattle.loop_io.specs.Moments.{IsMoment};
ghost use Rattle.looper_run.specs.Holding.{held, IsSameOwn};
ghost use Rattle.looper_run.specs.Round.{is_ended};
ghost use Rattle.run_model.specs.ByClock.{in_free_mode};
ghost use Rattle.dash_hall.specs.Kits.{IsHall};
ghost use Rattle.dash_loopers.specs.Loopers.{IsLooper, IsLooperOf, round_of, is_given_up, goes_to_rules, MayWork, DrainsAt};
ghost use Rattle.dash_loopers.specs.Places.{ServesOn, DeliversOn};
ghost use Rattle.dash_loopers.specs.Players.{RingsMain, AreSameParts};
ghost use Rattle.dash_loopers.specs.Clocked.{DeliversAt, ClockOwner, ServesFree, IsPlayingAt};
ghost use Rattle.dash_loopers.specs.Looped.{clock_mode, HasLooped, looper_with_parts, PlayerLooped, HasOnlyLooked, PlayerBegins};
ghost use Rattle.dash_loopers.specs.Looped.{earlier_of, ends_at, LooperAsksPulse, LoopsUpToCap, LoopsUntilStopped};
ghost use Rattle.dash_loopers.specs.ClockedLaws.{playing_at_others, playing_at_disposed, playing_at_quiet};
ghost use Rattle.looper_run.specs.Tests.{IsLent};

use crate::looper::{StageLooper, close, rounded_up};
use crate::player::{Parts, Place, did, of_looper};
use dash_hall::{Hall, Look, Timer, Uptime, frame_handler};
use dash_script::Script;
use loop_io::{Clock, Gate};
use loop_model::{NoMemory, Post};
use looper_run::{ByClock, Did, Dispatcher, Loop, Own, Round};
use message_pool::PoolClaim;
use message_slot::Message;
use queue_state::Kept;
use std::alloc::Global;
use std::snapshot::Snapshot;
use std::sync::Wait;
use std::time;

/// How a loop by a clock is paced.
#[derive(Drop)]
struct Pace<'a, G: Gate, C: Clock> {
    gate: &'a G,
    timer: &'a Timer<'a, C>,
}

/// A looper's code, for one loop by a clock.
#[derive(Drop)]
pub(crate) struct ClockPlayer<'a, 'b, R: Wait, G: Gate, C: Clock> {
    pub(crate) place: Place<'a, R>,
    pub(crate) gate: &'a G,
    pub(crate) timer: &'a Timer<'a, C>,
    pub(crate) sender: u32,
    /// The looper as it was when the loop began.
    pub(crate) began: &'b Snapshot<StageLooper>,
    pub(crate) parts: Parts,
    /// How often it rang the bell of its own queue, wrapping.
    pub(crate) nudged: u64,
}

impl<'a, 'b, R: Wait, G: Gate, C: Clock> Dispatcher for ClockPlayer<'a, 'b, R, G, C> {
    type Record = Kept;

    type Value = ();

    ghost Serves = { λ d w. ServesFree d.place.script.now d.place.hall.now d.place.looper d.parts w };

    ghost Origin = { ClockOwner };

    ghost origin = { λ d. record {
      owner = record { script = d.place.script.now; hall = d.place.hall.now; number = d.place.looper; now = 0; began = d.began.now.value };
      mode = in_free_mode (C.shows d.timer.now.clock.now) d.timer.now.start;
    } };

    ghost Awaits = { λ d awaited. IsTrue true };

    ghost nudges = { λ d. d.nudged };

    ghost asked = { λ d. None };

    ghost Meets = { λ d s es acts. IsPlayingAt (in_free_mode (C.shows d.timer.now.clock.now) d.timer.now.start)
        d.place.script.now d.place.looper d.began.now.value s es acts d.parts };

    fn before(&mut self, number: u64, m: &mut Message<PoolClaim>) {
        self.gate.pass(self.sender, self.parts.passed);
        self.parts.passed = self.parts.passed.saturating_add(1);
    }

    fn pulse(&mut self, own: &mut Own, now: u64) -> Did {
        self.place.pulse(&mut self.parts, own, now)
    }

    fn listen(&mut self, fd: u32, events: u32, listener: u32) -> Option<u32> {
        Some(listener.min(7))
    }

    fn idle(&mut self, id: u32, keep: bool) -> Option<bool> {
        Some(keep)
    }

    fn run_callback(&mut self, own: &mut Own, id: u64, m: &Message<PoolClaim>, now: u64) -> Did {
        if self.place.hall.stop.is_stopped(self.place.rt) {
            return Did::NoMemory;
        }
        Did::Yes
    }

    fn intercept(&mut self, own: &mut Own, m: &Message<PoolClaim>, now: u64) -> Did {
        if !self.place.intercepts(m) {
            return Did::No;
        }
        let p = m.as_post();
        let at = self.place.moment_for(self.timer, &p, now);
        self.nudged = self.nudged.wrapping_add(1);
        did(
            self.place
                .deliver_and_ring(&mut self.parts, own, &p, at, self.timer),
        )
    }

    fn handle(&mut self, own: &mut Own, m: &Message<PoolClaim>, now: u64) -> Did {
        let p = m.as_post();
        let at = self.place.moment_for(self.timer, &p, now);
        did(self.place.deliver(&mut self.parts, own, &p, at, self.timer))
    }

    ghost others = { λ d s es e acts apart meets.
        playing_at_others (in_free_mode (C.shows d.timer.now.clock.now) d.timer.now.start)
        d.place.script.now d.place.looper d.began.now.value s es e acts d.parts apart meets };

    ghost disposal = { λ d s es e now acts own call reply meets.
        playing_at_disposed (in_free_mode (C.shows d.timer.now.clock.now) d.timer.now.start)
        d.place.script.now d.place.looper d.began.now.value s es e now acts d.parts own call reply meets };

    ghost quiet = { λ d s es a acts is meets.
        playing_at_quiet (in_free_mode (C.shows d.timer.now.clock.now) d.timer.now.start)
        d.place.script.now d.place.looper d.began.now.value s es a acts d.parts is meets };
}

impl<'a, R: Wait> Place<'a, R> {
    /// The moment at which a message is delivered that was dispatched at this one, in milliseconds: for the rules that of the dispatch, and
    /// else a reading of the clock.
    fn moment_for<C: Clock>(&self, timer: &Timer<C>, p: &Post, now: u64) -> u64
        requires { IsLooperOf self.now.script.now self.now.hall.now self.now.looper }
        ensures rules { goes_to_rules self.now.looper p.now ≡ true → result ≡ now }
        ensures read { goes_to_rules self.now.looper p.now ≡ false → IsMoment (C.shows timer.now.clock.now) timer.now.start result }
    {
        if p.handler == frame_handler(self.looper).id {
            return timer.now();
        }
        if p.obj.is_some() {
            return timer.now();
        }
        now
    }

    /// Delivers a message as `deliver` does, and rings the bell of its own queue, since a frame may be asked for.
    fn deliver_and_ring<U: Uptime>(
        &self,
        parts: &mut Parts,
        own: &mut Own,
        p: &Post,
        now: u64,
        uptime: &U,
    ) -> Result<(), NoMemory>
        requires serves { ServesOn self.now parts.old own.old }
        requires callback { p.now.callback ≡ None }
        ensures parts { AreSameParts parts.old parts.new }
        ensures own { IsSameOwn own.old own.new }
        ensures lent { IsLent (held own.old) (held own.new) }
        ensures rung { own.new.poster.now.view.rung ≡ own.old.poster.now.view.rung + 1 }
        ensures clocked { DeliversAt self.now.looper now p.now own.old.poster.now own.new.poster.now parts.old parts.new }
        ensures delivers { OnOk result (DeliversOn self.now now (U.is_moment uptime.now) p.now own.old own.new parts.old parts.new) }
    {
        let done = self.deliver(parts, own, p, now, uptime);
        own.poster.nudge(self.rt, self.queue());
        done
    }
}

impl StageLooper {
    /// Loops by the clock until its queue is over, the run is given up, or where there is an end, until that time in milliseconds, each time
    /// up to the pulse that is asked for. Where it finds no memory it has given up, and the run with it. One that has ended or given up
    /// does nothing. Answers the look that found the run given up, where that is why it stopped.
    pub fn run_by_clock<R: Wait + time::Clock, C: Clock, G: Gate>(
        &mut self,
        rt: &R,
        alloc: Global,
        hall: &Hall,
        script: &Script,
        gate: &G,
        timer: &Timer<C>,
        end: Option<u64>,
    ) -> Option<Look>
        requires may { MayWork false script.now hall.now self.old }
        ensures looped { HasLooped (clock_mode C.shows timer.now) script.now hall.now self.old self.new }
        ensures stays { (is_ended self.old.last || is_given_up self.old.last) ≡ true → self.new ≡ self.old }
        ensures rounds { LoopsUntilStopped (clock_mode C.shows timer.now) script.now end self.old self.new result }
    {
        let pace = Pace { gate, timer };
        for _ in rt.forever() {
            if self.has_ended() {
                return None;
            }
            if self.gave_up() {
                return None;
            }
            let look = hall.stop.look(rt);
            if look.is_stopped() {
                return Some(look);
            }
            let cap = earlier(self.next_pulse(rt, hall, script), end);
            let how = self.run_loop(rt, alloc, hall, script, &pace, cap);
            if is_at_end(how, end) {
                return None;
            }
        }
        unreachable!()
    }

    /// One round at this moment, in milliseconds, unless it has ended or given up, as `run_round` in lockstep.
    pub fn drain_by_clock<R: Wait, C: Clock, G: Gate>(
        &mut self,
        rt: &R,
        alloc: Global,
        hall: &Hall,
        script: &Script,
        gate: &G,
        timer: &Timer<C>,
        now: u64,
    )
        requires may { MayWork false script.now hall.now self.old }
        requires moment { IsMoment (C.shows timer.now.clock.now) timer.now.start now }
        ensures looped { HasLooped (clock_mode C.shows timer.now) script.now hall.now self.old self.new }
        ensures stays { (is_ended self.old.last || is_given_up self.old.last) ≡ true → self.new ≡ self.old }
        ensures drains { DrainsAt script.now now self.old self.new }
    {
        if self.has_ended() {
            return;
        }
        if self.gave_up() {
            return;
        }
        let pace = Pace { gate, timer };
        self.drain(rt, alloc, hall, script, &pace, now);
    }

    /// The pulse that is asked for at its choreographer, in milliseconds, rounded up.
    fn next_pulse<R: Wait>(&mut self, rt: &R, hall: &Hall, script: &Script) -> Option<u64>
        requires hall { IsHall script.now hall.now }
        requires looper { IsLooper script.now hall.now self.old }
        ensures looked { HasOnlyLooked script.now hall.now self.old self.new }
        ensures asks { LooperAsksPulse self.old self.new result }
    {
        let Some(mut parts) = self.parts.take() else {
            unreachable!()
        };
        let choreographer = of_looper(&hall.choreographers, self.number);
        let stamp = choreographer.asked(rt, &mut parts.frames);
        self.parts = Some(parts);
        rounded_up(stamp)
    }

    /// One round at this moment. It has neither ended nor given up.
    fn drain<'a, R: Wait, C: Clock, G: Gate>(
        &mut self,
        rt: &'a R,
        alloc: Global,
        hall: &'a Hall,
        script: &'a Script,
        pace: &Pace<'a, G, C>,
        now: u64,
    )
        requires may { MayWork false script.now hall.now self.old }
        requires moment { IsMoment (C.shows pace.now.timer.now.clock.now) pace.now.timer.now.start now }
        requires going { (is_ended self.old.last ≡ false) × (is_given_up self.old.last ≡ false) }
        ensures looped { HasLooped (clock_mode C.shows pace.now.timer.now) script.now hall.now self.old self.new }
        ensures drains { DrainsAt script.now now self.old self.new }
    {
        let began = Snapshot::of(&*self);
        let queue = of_looper(&hall.queues, self.number);
        let mut player = self.player(rt, alloc, hall, script, pace, &began);
        let last = self.looper.run_round(
            rt,
            queue,
            &hall.pool,
            of_looper(&hall.sources, self.number),
            &mut player,
            now,
        );
        self.take_back(player, last);
    }

    /// One loop by the clock. It has neither ended nor given up.
    fn run_loop<'a, R: Wait + time::Clock, C: Clock, G: Gate>(
        &mut self,
        rt: &'a R,
        alloc: Global,
        hall: &'a Hall,
        script: &'a Script,
        pace: &Pace<'a, G, C>,
        cap: Option<u64>,
    ) -> Loop
        requires may { MayWork false script.now hall.now self.old }
        requires going { (is_ended self.old.last ≡ false) × (is_given_up self.old.last ≡ false) }
        ensures last { self.new.last ≡ round_of result }
        ensures looped { HasLooped (clock_mode C.shows pace.now.timer.now) script.now hall.now self.old self.new }
        ensures loops { LoopsUpToCap (clock_mode C.shows pace.now.timer.now) script.now cap self.old self.new result }
    {
        let began = Snapshot::of(&*self);
        let queue = of_looper(&hall.queues, self.number);
        let mut player = self.player(rt, alloc, hall, script, pace, &began);
        let how = self.looper.run_loop(
            rt,
            queue,
            &hall.pool,
            of_looper(&hall.sources, self.number),
            &mut player,
            &ByClock {
                clock: pace.timer.clock,
                start: pace.timer.start,
                cap,
            },
        );
        self.take_back(player, last_of(how));
        how
    }

    /// Its code for one loop by a clock, which takes its parts.
    fn player<'a, 'b, R: Wait, G: Gate, C: Clock>(
        &mut self,
        rt: &'a R,
        alloc: Global,
        hall: &'a Hall,
        script: &'a Script,
        pace: &Pace<'a, G, C>,
        began: &'b Snapshot<StageLooper>,
    ) -> ClockPlayer<'a, 'b, R, G, C>
        requires may { MayWork false script.now hall.now self.old }
        requires began { began.now.value ≡ self.old }
        ensures same { self.new ≡ record self.old { parts = None } }
        ensures begins { PlayerBegins (clock_mode C.shows pace.now.timer.now) (clock_mode C.shows result.timer.now)
            script.now hall.now self.old result self.new.looper }
    {
        let Some(parts) = self.parts.take() else {
            unreachable!()
        };
        ClockPlayer {
            place: Place {
                rt,
                alloc,
                hall,
                script,
                looper: self.number,
            },
            gate: pace.gate,
            timer: pace.timer,
            sender: self.sender,
            began,
            parts,
            nudged: 0,
        }
    }

    /// Takes its parts back behind a loop that ended so. Where that found no memory it gives the run up, and nudges main.
    fn take_back<R: Wait, G: Gate, C: Clock>(&mut self, player: ClockPlayer<R, G, C>, last: Round)
        requires hall { IsHall player.place.script.now player.place.hall.now }
        requires looped { PlayerLooped (clock_mode C.shows player.timer.now) player (looper_with_parts self.old last player.parts) }
        ensures last { self.new.last ≡ last }
        ensures held { self.new.looper ≡ self.old.looper }
        ensures nudged { is_given_up last ≡ true → self.old.number ≢ 0 → IsSomeAnd self.new.parts (RingsMain player.entry.parts) }
        ensures looped { PlayerLooped (clock_mode C.shows player.entry.timer.now) player.entry self.new }
    {
        let place = player.place;
        let mut parts = player.parts;
        self.last = last;
        close(
            place.rt,
            place.hall,
            place.script,
            self.number,
            self.gave_up(),
            &mut parts,
        );
        self.parts = Some(parts);
    }
}

/// The loop as the looper's last round.
fn last_of(how: Loop) -> Round
    ensures { result ≡ round_of how }
{
    match how {
        Loop::Ended => Round::Ended { dispatched: 0 },
        Loop::NoMemory => Round::NoMemory,
        Loop::Cap { .. } | Loop::Nudged => Round::Drained {
            dispatched: 0,
            until: None,
        },
    }
}

/// Whether a loop ended at a moment that is no earlier than the end.
fn is_at_end(how: Loop, end: Option<u64>) -> bool
    ensures { result ≡ ends_at how end }
{
    match (how, end) {
        (Loop::Cap { now }, Some(end)) => end <= now,
        _ => false,
    }
}

/// The earlier of two times, where there are two.
fn earlier(a: Option<u64>, b: Option<u64>) -> Option<u64>
    ensures { result ≡ earlier_of a b }
{
    match (a, b) {
        (Some(x), Some(y)) => Some(x.min(y)),
        (Some(x), None) => Some(x),
        (None, b) => b,
    }
}
