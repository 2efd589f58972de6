//! A run by a clock.
ghost use Rattle.std.specs.Prelude.{◌≡◌, ◌<◌, false, true, length, slice_index_or, None, IfOk, OnOk};
ghost use Rattle.std.specs.Thread.{IsSync};
ghost use Rattle.dash_script.specs.Reading.{HasText};
ghost use Rattle.dash_threads.specs.Threads.{IsThread};
ghost use Rattle.run_model.specs.ByClock.{IsStagedByClock};
ghost use Rattle.looper_run.specs.Round.{is_ended};
ghost use Rattle.dash_loopers.specs.declared.looper.StageLooper.{StageLooper as LooperData};
ghost use Rattle.dash_loopers.specs.Loopers.{IsLooper};
ghost use Rattle.dash_stage.specs.ByClock.{IsFreeHall, by_timer, RunsByClock, LoopsAlone, EachRuns, EachLoops, EachLoopsAlone, MainLoops};
ghost use Rattle.dash_stage.specs.ByClock.{EachIsThread, EachIsLooper, CanRunBeside, CanRunMain, CanRunThreads, CanRunFirst, CanQuitOthers, CanDrain};
ghost use Rattle.dash_stage.specs.ByClock.{IsLateMoment, RanBeside, RanMain, HearsThreads, EndsOthers, HasQuitOthers};
ghost use Rattle.dash_stage.specs.RunEnds.{HasBegunByClock, IsClosingByClock, HasEndedByClock};
ghost use Rattle.dash_stage.specs.Sharing.{HaveSharedQueues};
ghost use Rattle.dash_stage.specs.Stages.{IsStageIn, OthersHaveEnded};

use crate::control::Controller;
use crate::kept::report;
use crate::means::Means;
use crate::opening::set_up;
use crate::share::hear_threads;
use crate::side::{has_given_up, some_gave_up};
use crate::stage::Stage;
use dash_hall::{Hall, Look, Timer};
use dash_loopers::StageLooper;
use dash_script::Script;
use dash_threads::PostingThread;
use loop_io::{Clock, Gate};
use loop_model::NoMemory;
use run_model::Report;
use std::alloc::Global;
use std::sync::{Mutex, Wait};
use std::thread::{Threads, for_each_mut, join_mut};
use std::time;

/// Runs the script by a clock and keeps its records. Each thread runs its blocks at their times, each looper waits for its messages on a
/// thread of its own, the main one until the script's end. Then the controller quits the others safely, these run until their queues
/// are disposed of, and the main one drains and is halted. The script has a text. It is refused only when out of memory.
pub fn run_free<R: Threads + Wait + time::Clock + Sync, C: Clock + Sync, G: Gate + Sync>(
    rt: &R,
    alloc: Global,
    script: Script,
    clock: &C,
    gate: &G,
) -> Result<Report, NoMemory>
    requires { HasText script }
    ensures { IfOk result (IsStagedByClock (C.shows clock.now) script) }
{
    let timer = Timer::new(clock);
    let means = Means { rt, alloc, gate };
    let mut stage = set_up(alloc, &script, false)?;
    stage.play_by_clock(&means, &script, &timer)?;
    report(alloc, script, stage, timer.start)
}

impl Stage {
    /// The whole script, by the clock.
    fn play_by_clock<R: Threads + Wait + time::Clock + Sync, C: Clock + Sync, G: Gate + Sync>(
        &mut self,
        means: &Means<R, G>,
        script: &Script,
        timer: &Timer<C>,
    ) -> Result<(), NoMemory>
        requires begun { HasBegunByClock (by_timer C.shows timer.now) script.now self.old }
        ensures out { OnOk result (HasEndedByClock (by_timer C.shows timer.now) script.now self.new) }
    {
        self.run_by_clock(means, script, timer)?;
        for _ in means.rt.forever() {
            self.drain(means, script, timer)?;
            let halted = self.halt_by_clock(means.rt, script, timer)?;
            if halted {
                return Ok(());
            }
        }
        unreachable!()
    }

    /// The threads run their blocks beside the loopers, the main one up to the end, and the others are quit there.
    fn run_by_clock<R: Threads + Wait + time::Clock + Sync, C: Clock + Sync, G: Gate + Sync>(
        &mut self,
        means: &Means<R, G>,
        script: &Script,
        timer: &Timer<C>,
    ) -> Result<(), NoMemory>
        requires begun { HasBegunByClock (by_timer C.shows timer.now) script.now self.old }
        ensures closing { OnOk result (IsClosingByClock (by_timer C.shows timer.now) script.now self.new) }
    {
        let quit = run_side_by_side(
            means,
            &self.hall,
            script,
            timer,
            self.threads.as_mut_slice(),
            self.loopers.as_mut_slice(),
            &mut self.controller,
        );
        if !quit {
            return Err(NoMemory);
        }
        if has_given_up(self.threads.as_slice()) {
            return Err(NoMemory);
        }
        if some_gave_up(self.loopers.as_slice()) {
            return Err(NoMemory);
        }
        if main_has_ended(self.loopers.as_slice()) {
            return Err(NoMemory);
        }
        if !all_but_main_have_ended(self.loopers.as_slice()) {
            return Err(NoMemory);
        }
        self.share_by_clock(script);
        Ok(())
    }

    /// The main looper drains, at the end of the script or later, and all hear of it.
    fn drain<R: Wait + time::Clock, C: Clock, G: Gate>(
        &mut self,
        means: &Means<R, G>,
        script: &Script,
        timer: &Timer<C>,
    ) -> Result<(), NoMemory>
        requires closing { IsClosingByClock (by_timer C.shows timer.now) script.now self.old }
        ensures closing { OnOk result (IsClosingByClock (by_timer C.shows timer.now) script.now self.new) }
    {
        let Ok(now) = timer.wait_until(means.rt, &self.hall.stop, script.end) else {
            return Err(NoMemory);
        };
        drain_first(
            means,
            &self.hall,
            script,
            timer,
            now,
            self.loopers.as_mut_slice(),
        );
        if some_gave_up(self.loopers.as_slice()) {
            return Err(NoMemory);
        }
        self.share_by_clock(script);
        Ok(())
    }

    /// The controller halts the main looper, at the end of the script or later, and all hear of it. Answers false where a message is due.
    fn halt_by_clock<R: Wait + time::Clock, C: Clock>(
        &mut self,
        rt: &R,
        script: &Script,
        timer: &Timer<C>,
    ) -> Result<bool, NoMemory>
        requires closing { IsClosingByClock (by_timer C.shows timer.now) script.now self.old }
        ensures closing { IfOk result (λ halted. halted ≡ false → IsClosingByClock (by_timer C.shows timer.now) script.now self.new) }
        ensures out { IfOk result (λ halted. halted ≡ true → HasEndedByClock (by_timer C.shows timer.now) script.now self.new) }
    {
        let Ok(now) = timer.wait_until(rt, &self.hall.stop, script.end) else {
            return Err(NoMemory);
        };
        let halted = self.controller.halt_by_clock(rt, &self.hall, script, now);
        self.share_by_clock(script);
        Ok(halted)
    }

    /// All senders come to have seen the same of each queue's history, as in lockstep.
    fn share_by_clock(&mut self, script: &Script)
        requires stage { IsStageIn false script.now self.old }
        ensures stage { IsStageIn false script.now self.new }
        ensures shares { HaveSharedQueues self.old self.new }
    {
        self.share_each(script);
    }
}

/// The threads run their blocks beside the loopers, each on a thread of its own, the main looper up to the end; then the controller quits
/// the other loopers. Answers false where a sender found no memory or the run was given up.
fn run_side_by_side<R: Threads + Wait + time::Clock + Sync, C: Clock + Sync, G: Gate + Sync>(
    means: &Means<R, G>,
    hall: &Hall,
    script: &Script,
    timer: &Timer<C>,
    threads: &mut [PostingThread],
    loopers: &mut [StageLooper],
    controller: &mut Controller,
) -> bool
    requires can { CanRunBeside script.now hall.now threads.old loopers.old controller.old }
    ensures ran { RanBeside (by_timer C.shows timer.now) script.now hall.now threads.old threads.new loopers.old loopers.new result }
    ensures ends { EndsOthers (by_timer C.shows timer.now) script.now hall.now threads.new controller.old controller.new result }
{
    let ended = Mutex::new(0);
    let (main, others) = loopers.split_at_mut(1);
    let ((), quit) = join_mut(
        means.rt,
        &mut ||
            requires { IsSync R.row × IsSync C.row × IsSync G.row × IsFreeHall script.now hall.now × EachIsLooper script.now hall.now others.now }
            ensures { EachLoopsAlone (by_timer C.shows timer.entry.now) script.entry.now hall.entry.now others.entry.now others.exit.now }
        { run_others(means, hall, script, timer, &ended, others) },
        &mut ||
            requires { CanRunMain script.now hall.now main.now threads.now controller.now × IsSync R.row × IsSync C.row × IsSync G.row }
            ensures ran { RanMain (by_timer C.shows timer.entry.now) script.entry.now hall.entry.now threads.entry.now threads.exit.now main.entry.now main.exit.now (result ≡ true) }
            ensures ends { EndsOthers (by_timer C.shows timer.entry.now) script.entry.now hall.entry.now threads.exit.now controller.entry.now controller.exit.now result }
        {
            let early = run_main(means, hall, script, timer, main, threads, controller);
            quit_others(means.rt, hall, script, timer, &ended, controller, early)
        },
    );
    quit
}

/// The loopers but the main one run until their queues are disposed of, each on a thread of its own. Which have ended is told.
fn run_others<R: Threads + Wait + time::Clock + Sync, C: Clock + Sync, G: Gate + Sync>(
    means: &Means<R, G>,
    hall: &Hall,
    script: &Script,
    timer: &Timer<C>,
    ended: &Mutex<u128>,
    others: &mut [StageLooper],
)
    requires hall { IsFreeHall script.now hall.now }
    requires loopers { EachIsLooper script.now hall.now others.old }
    ensures loopers { EachLoopsAlone (by_timer C.shows timer.now) script.now hall.now others.old others.new }
{
    let count = others.len().max(1);
    for_each_mut(
        means.rt,
        others,
        count,
        &|_, looper: &mut StageLooper|
            requires { IsSync R.row × IsSync C.row × IsSync G.row × IsFreeHall script.now hall.now × IsLooper script.now hall.now looper.old }
            ensures { LoopsAlone (by_timer C.shows timer.entry.now) script.entry.now hall.entry.now looper.old looper.new }
        { run_one(means, hall, script, timer, ended, looper) },
    );
}

/// A looper runs until its queue is disposed of, and tells that it has ended.
fn run_one<R: Wait + time::Clock, C: Clock, G: Gate>(
    means: &Means<R, G>,
    hall: &Hall,
    script: &Script,
    timer: &Timer<C>,
    ended: &Mutex<u128>,
    looper: &mut StageLooper,
)
    requires hall { IsFreeHall script.now hall.now }
    requires looper { IsLooper script.now hall.now looper.old }
    ensures { LoopsAlone (by_timer C.shows timer.now) script.now hall.now looper.old looper.new }
{
    looper.run_by_clock(means.rt, means.alloc, hall, script, means.gate, timer, None);
    if looper.has_ended() {
        tell(means.rt, ended, looper.number);
    }
}

/// Tells that the looper of this number has ended. Each has a bit, since there are fewer than a hundred, so this wants no memory.
fn tell<R: Wait>(rt: &R, ended: &Mutex<u128>, number: u32) {
    *ended.lock(rt) |= bit(number);
}

/// Whether the looper of this number has told that it ended.
fn has_told<R: Wait>(rt: &R, ended: &Mutex<u128>, number: u32) -> bool {
    *ended.lock(rt) & bit(number) != 0
}

/// The bit of the looper of this number.
fn bit(number: u32) -> u128 {
    1u128.wrapping_shl(number)
}

/// The main looper runs until the script's end, beside the threads. Then the controller hears the threads, so that its quits stand behind
/// their calls. Answers the look by which the looper stopped before the end, where one did.
fn run_main<R: Threads + Wait + time::Clock + Sync, C: Clock + Sync, G: Gate + Sync>(
    means: &Means<R, G>,
    hall: &Hall,
    script: &Script,
    timer: &Timer<C>,
    main: &mut [StageLooper],
    threads: &mut [PostingThread],
    controller: &mut Controller,
) -> Option<Look>
    requires can { CanRunMain script.now hall.now main.old threads.old controller.old }
    ensures ran { RanMain (by_timer C.shows timer.now) script.now hall.now threads.old threads.new main.old main.new (result ≡ None) }
    ensures hears { HearsThreads script.now threads.new controller.old controller.new }
{
    let ((), early) = join_mut(
        means.rt,
        &mut ||
            requires { IsSync R.row × IsSync C.row × IsSync G.row × HasText script.now × IsFreeHall script.now hall.now × EachIsThread script.now hall.now threads.now }
            ensures { EachRuns (by_timer C.shows timer.entry.now) script.entry.now hall.entry.now threads.entry.now threads.exit.now }
        { run_threads(means, hall, script, timer, threads) },
        &mut ||
            requires { IsSync R.row × IsSync C.row × IsSync G.row × IsFreeHall script.now hall.now × (length main.now ≡ 1) × EachIsLooper script.now hall.now main.now }
            ensures main { EachLoops (by_timer C.shows timer.entry.now) script.entry.now hall.entry.now main.entry.now main.exit.now }
            ensures looped { result ≡ None → MainLoops (by_timer C.shows timer.entry.now) script.entry.now hall.entry.now main.entry.now main.exit.now }
        { run_first(means, hall, script, timer, main) },
    );
    hear_threads(hall, script, threads, controller);
    early
}

/// The first of these loopers runs until the script's end. Answers the look by which it stopped before, where one did.
fn run_first<R: Wait + time::Clock, C: Clock, G: Gate>(
    means: &Means<R, G>,
    hall: &Hall,
    script: &Script,
    timer: &Timer<C>,
    loopers: &mut [StageLooper],
) -> Option<Look>
    requires { CanRunFirst script.now hall.now loopers.old }
    ensures loopers { EachLoops (by_timer C.shows timer.now) script.now hall.now loopers.old loopers.new }
    ensures looped { result ≡ None → MainLoops (by_timer C.shows timer.now) script.now hall.now loopers.old loopers.new }
{
    loopers[0].run_by_clock(
        means.rt,
        means.alloc,
        hall,
        script,
        means.gate,
        timer,
        Some(script.end),
    )
}

/// The threads run their blocks, each on a thread of its own.
fn run_threads<R: Threads + Wait + time::Clock + Sync, C: Clock + Sync, G: Gate + Sync>(
    means: &Means<R, G>,
    hall: &Hall,
    script: &Script,
    timer: &Timer<C>,
    threads: &mut [PostingThread],
)
    requires { CanRunThreads script.now hall.now threads.old }
    ensures threads { EachRuns (by_timer C.shows timer.now) script.now hall.now threads.old threads.new }
{
    let count = threads.len().max(1);
    for_each_mut(
        means.rt,
        threads,
        count,
        &|_, thread: &mut PostingThread|
            requires { IsSync R.row × IsSync C.row × IsSync G.row × HasText script.now × IsFreeHall script.now hall.now × IsThread script.now hall.now thread.old }
            ensures { RunsByClock (by_timer C.shows timer.entry.now) script.entry.now hall.entry.now thread.old thread.new }
        { thread.run_by_clock(means.rt, means.alloc, hall, script, means.gate, timer) },
    );
}

/// At the script's end or later the controller quits safely each looper but the main one that has not told that it ended. Where the run is
/// given up, or the main looper found it so, it quits them plainly. Answers false there, and where a quit found no memory: then the run is
/// given up too. Either way all bells are rung behind the flag, since a quit that found no memory wakes no looper.
fn quit_others<R: Wait + time::Clock, C: Clock>(
    rt: &R,
    hall: &Hall,
    script: &Script,
    timer: &Timer<C>,
    ended: &Mutex<u128>,
    controller: &mut Controller,
    early: Option<Look>,
) -> bool
    requires can { CanQuitOthers script.now hall.now controller.old }
    ensures { HasQuitOthers early (by_timer C.shows timer.now) script.now hall.now controller.old controller.new result }
{
    let Ok(now) = moment_to_quit(rt, hall, script, timer, early) else {
        controller.give_up(rt, hall, script, timer.now());
        controller.ring_all(rt, hall, script);
        return false;
    };
    let mut done = true;
    for looper in 1..script.loopers {
        let has_ended = has_told(rt, ended, looper);
        done &= controller.quit_unless(rt, hall, script, looper as usize, has_ended, now);
    }
    if !done {
        hall.stop.stop(rt);
        controller.ring_all(rt, hall, script);
    }
    done
}

/// A moment at the script's end or later, once it has come, or the look that found the run given up: the main looper's, or one made here.
fn moment_to_quit<R: Wait + time::Clock, C: Clock>(
    rt: &R,
    hall: &Hall,
    script: &Script,
    timer: &Timer<C>,
    early: Option<Look>,
) -> Result<u64, Look>
    ensures late { IfOk result (IsLateMoment (C.shows timer.now.clock.now) timer.now.start script.now) }
    ensures heeds { IfOk result (λ now. early ≡ None) }
{
    match early {
        Some(look) => Err(look),
        None => timer.wait_until(rt, &hall.stop, script.end),
    }
}

/// The first of the loopers, main, drains at this moment, in milliseconds, the end of the script or later.
fn drain_first<R: Wait + time::Clock, C: Clock, G: Gate>(
    means: &Means<R, G>,
    hall: &Hall,
    script: &Script,
    timer: &Timer<C>,
    now: u64,
    loopers: &mut [StageLooper],
)
    requires can { CanDrain script.now hall.now loopers.old }
    requires late { IsLateMoment (C.shows timer.now.clock.now) timer.now.start script.now now }
    ensures loopers { EachLoops (by_timer C.shows timer.now) script.now hall.now loopers.old loopers.new }
    ensures others { OthersHaveEnded loopers.old → OthersHaveEnded loopers.new }
{
    loopers[0].drain_by_clock(means.rt, means.alloc, hall, script, means.gate, timer, now);
}

/// Whether the first of these loopers, main, has ended.
fn main_has_ended(loopers: &[StageLooper]) -> bool
    requires some { 0 < length loopers.now }
    ensures { (d : LooperData) → is_ended (slice_index_or loopers.now 0 d).last ≡ result }
{
    loopers[0].has_ended()
}

/// Whether each of these loopers but the first has ended.
fn all_but_main_have_ended(loopers: &[StageLooper]) -> bool
    ensures { result ≡ true → OthersHaveEnded loopers.now }
{
    for place in 1..loopers.len() {
        if !loopers[place].has_ended() {
            return false;
        }
    }
    true
}
