//! The event times of a run, and what comes at each.
ghost use Rattle.std.specs.Prelude.{◌≡◌, ◌<◌, ◌≤◌, ◌⊎◌, ℕ, true, Some, IfOk, OnOk};
ghost use Rattle.dash_stage.specs.RunEnds.{HasBegunInLockstep, HasEndedInLockstep, EndsThere};
ghost use Rattle.dash_stage.specs.Stages.{IsStage, OthersHaveEnded};
ghost use Rattle.dash_stage.specs.Steps.{IsUnderWay, IsGoal, IsAtEnd, GoesTo, MovesOn, StageRunsBlock, StandsStill, StaysAndShares, Settles};
ghost use Rattle.dash_stage.specs.Steps.{FindsNext, FindsNextOn, TakesRound, TakesRounds, ClosesFromRest};
ghost use Rattle.dash_stage.specs.Timeliness.{NotLater};

use crate::agenda::Agenda;
use crate::control::Controller;
use crate::means::Means;
use crate::side::{Turn, run_loopers, run_threads};
use dash_hall::Hall;
use dash_loopers::StageLooper;
use dash_script::{Block, Script};
use dash_threads::PostingThread;
use loop_io::Gate;
use loop_model::NoMemory;
use message_pool::PoolPass;
use std::sync::Wait;
use std::thread::Threads;

/// The senders of a run, and what they share.
#[derive(Drop)]
pub(crate) struct Stage {
    pub(crate) hall: Hall,
    pub(crate) threads: Vec<PostingThread>,
    pub(crate) loopers: Vec<StageLooper>,
    pub(crate) controller: Controller,
    pub(crate) pass: PoolPass,
    /// The time that the queues were moved on to last, in milliseconds.
    pub(crate) time: u64,
}

impl Stage {
    /// The whole script: each block at its time, what comes due between two blocks, and the end.
    #[tactic(auto, using(crate::proofs::BlockTimes::before_end))]
    pub(crate) fn play<R: Threads + Wait + Sync, G: Gate + Sync>(
        &mut self,
        means: &Means<R, G>,
        script: &Script,
    ) -> Result<(), NoMemory>
        requires begun { HasBegunInLockstep script.now self.old }
        ensures stage { IsStage script.now self.new }
        ensures out { OnOk result (HasEndedInLockstep script.now self.new) }
    {
        let mut agenda = Agenda::new(means.alloc, script)?;
        for block in script.blocks.as_slice() {
            self.go_to(means, script, block.time, &mut agenda)?;
            self.run_block(means, script, block)?;
            agenda.note_block(script, block);
            self.settle(means, script, &mut agenda)?;
        }
        self.go_to(means, script, script.end, &mut agenda)?;
        self.settle(means, script, &mut agenda)?;
        self.end(means, script, &mut agenda)?;
        Ok(())
    }

    /// What comes due before this time, in milliseconds, and then the time itself.
    fn go_to<R: Threads + Wait + Sync, G: Gate + Sync>(
        &mut self,
        means: &Means<R, G>,
        script: &Script,
        time: u64,
        agenda: &mut Agenda,
    ) -> Result<(), NoMemory>
        requires way { IsUnderWay script.now self.old }
        requires goal { IsGoal script.now time self.old }
        ensures way { IsUnderWay script.now self.new }
        ensures goes { OnOk result (GoesTo script.now time self.old self.new) }
    {
        for _ in means.rt.forever() {
            let next = at_most(self.next_due(means.rt, script, agenda), time);
            let moved = self.advance(means.rt, script, next)?;
            if moved && next == time {
                return Ok(());
            }
            self.settle(means, script, agenda)?;
        }
        unreachable!()
    }

    /// Rounds of all loopers, up to the first in which no history grows. Where a queue has many entries, queues and choreographers hand
    /// theirs out then, and the loopers come to rest anew.
    fn settle<R: Threads + Wait + Sync, G: Gate + Sync>(
        &mut self,
        means: &Means<R, G>,
        script: &Script,
        agenda: &mut Agenda,
    ) -> Result<(), NoMemory>
        requires stage { IsStage script.now self.old }
        ensures still { StandsStill script.now self.old self.new }
        ensures settles { OnOk result (Settles script.now self.old self.new) }
    {
        self.run_rounds(means, script, Turn::All, agenda)?;
        if self.controller.has_many() {
            self.hand_out(means.rt, script)?;
            self.run_rounds(means, script, Turn::All, agenda)?;
        }
        Ok(())
    }

    /// Queues and choreographers hand out their entries, and all hear of it.
    fn hand_out<R: Wait>(&mut self, rt: &R, script: &Script) -> Result<(), NoMemory>
        requires stage { IsStage script.now self.old }
        ensures still { StandsStill script.now self.old self.new }
        ensures shares { OnOk result (StaysAndShares script.now self.old self.new) }
    {
        self.controller.seal(rt, &self.hall, script)?;
        self.share(script);
        Ok(())
    }

    /// The least time at which a message is due or a pulse comes, in milliseconds.
    fn next_due<R: Wait>(&mut self, rt: &R, script: &Script, agenda: &mut Agenda) -> Option<u64>
        requires stage { IsStage script.now self.old }
        ensures { FindsNext script.now self.old self.new result }
    {
        let mut next = None;
        for looper in 0..script.loopers {
            let due = self.due_on(rt, script, looper);
            agenda.note(looper, due);
            next = earlier(next, due);
        }
        next
    }

    /// The least time at which a message of a looper is due or its pulse comes, unless it has ended.
    fn due_on<R: Wait>(&mut self, rt: &R, script: &Script, looper: u32) -> Option<u64>
        requires stage { IsStage script.now self.old }
        requires looper { looper < script.now.loopers }
        ensures { FindsNextOn looper script.now self.old self.new result }
    {
        if self.loopers[looper as usize].has_ended() {
            return None;
        }
        let until = self.loopers[looper as usize].until();
        earlier(until, self.controller.asked(rt, &self.hall, script, looper))
    }

    /// The controller moves the time on, and all hear of it. Answers false where a message is due on a queue.
    fn advance<R: Wait>(&mut self, rt: &R, script: &Script, time: u64) -> Result<bool, NoMemory>
        requires way { IsUnderWay script.now self.old }
        requires end { time ≤ script.now.end }
        ensures way { IsUnderWay script.now self.new }
        ensures on { IfOk result (MovesOn script.now time self.old self.new) }
    {
        self.time = self.time.max(time);
        let moved = self.controller.advance(rt, &self.hall, script, time)?;
        self.share(script);
        Ok(moved)
    }

    /// The threads run their commands of a block, side by side.
    pub(crate) fn run_block<R: Threads + Wait + Sync, G: Gate + Sync>(
        &mut self,
        means: &Means<R, G>,
        script: &Script,
        block: &Block,
    ) -> Result<(), NoMemory>
        requires stage { IsStage script.now self.old }
        ensures still { StandsStill script.now self.old self.new }
        ensures next { OnOk result (StageRunsBlock script.now block.now self.old self.new) }
    {
        run_threads(
            means,
            &self.hall,
            script,
            block,
            self.threads.as_mut_slice(),
        )?;
        self.share(script);
        Ok(())
    }

    /// Rounds of these loopers, up to the first in which no history grows.
    fn run_rounds<R: Threads + Wait + Sync, G: Gate + Sync>(
        &mut self,
        means: &Means<R, G>,
        script: &Script,
        turn: Turn,
        agenda: &mut Agenda,
    ) -> Result<(), NoMemory>
        requires stage { IsStage script.now self.old }
        ensures still { StandsStill script.now self.old self.new }
        ensures rounds { OnOk result (TakesRounds turn script.now self.old self.new) }
    {
        for _ in means.rt.forever() {
            let before = self.controller.entries_seen();
            let count = agenda.threads(self.time);
            self.run_round(means, script, turn, count)?;
            if self.controller.entries_seen() == before {
                return Ok(());
            }
            agenda.note_round(self.time);
        }
        unreachable!()
    }

    /// One round of these loopers, on so many threads.
    fn run_round<R: Threads + Wait + Sync, G: Gate + Sync>(
        &mut self,
        means: &Means<R, G>,
        script: &Script,
        turn: Turn,
        count: usize,
    ) -> Result<(), NoMemory>
        requires count { 0 < count }
        requires stage { IsStage script.now self.old }
        ensures still { StandsStill script.now self.old self.new }
        ensures round { OnOk result (TakesRound turn script.now self.old self.new) }
    {
        run_loopers(
            means,
            &self.hall,
            script,
            self.time,
            turn,
            count,
            self.loopers.as_mut_slice(),
        )?;
        self.share(script);
        Ok(())
    }

    /// The controller quits safely each looper but the main one that has not ended, and these run until their queues are
    /// disposed of; then the main one drains and is halted.
    fn end<R: Threads + Wait + Sync, G: Gate + Sync>(
        &mut self,
        means: &Means<R, G>,
        script: &Script,
        agenda: &mut Agenda,
    ) -> Result<(), NoMemory>
        requires { IsAtEnd script.now self.old }
        ensures stage { IsStage script.now self.new }
        ensures ends { OnOk result (EndsThere script.now self.old self.new) }
    {
        self.quit_others(means.rt, script)?;
        for _ in means.rt.forever() {
            if self.others_have_ended(script) {
                break;
            }
            let count = self.loopers.len().max(1);
            self.run_round(means, script, Turn::Others, count)?;
        }
        for _ in means.rt.forever() {
            self.run_rounds(means, script, Turn::Main, agenda)?;
            let halted = self.controller.halt(means.rt, &self.hall, script);
            self.share(script);
            if halted {
                return Ok(());
            }
        }
        unreachable!()
    }

    /// The controller quits safely each looper but the main one that has not ended.
    fn quit_others<R: Wait>(&mut self, rt: &R, script: &Script) -> Result<(), NoMemory>
        requires { IsAtEnd script.now self.old }
        ensures stage { IsStage script.now self.new }
        ensures closes { OnOk result (ClosesFromRest script.now self.old self.new) }
    {
        for looper in 1..script.loopers {
            if !self.loopers[looper as usize].has_ended() {
                self.controller.quit(rt, &self.hall, script, looper)?;
            }
        }
        self.share(script);
        Ok(())
    }

    /// Whether each looper but the main one has ended.
    pub(crate) fn others_have_ended(&self, script: &Script) -> bool
        requires stage { IsStage script.now self.now }
        ensures { result ≡ true → OthersHaveEnded self.now.loopers.items }
    {
        for place in 1..script.loopers {
            if !self.loopers[place as usize].has_ended() {
                return false;
            }
        }
        true
    }
}

/// The time, or this one where there is none or a later one.
fn at_most(time: Option<u64>, last: u64) -> u64
    ensures within { result ≤ last }
    ensures early { NotLater result time }
    ensures one { (result ≡ last) ⊎ (time ≡ Some result) }
{
    match time {
        Some(due) => due.min(last),
        None => last,
    }
}

/// The earlier of two times.
fn earlier(a: Option<u64>, b: Option<u64>) -> Option<u64>
    ensures early { (t : ℕ) → NotLater t result → NotLater t a × NotLater t b }
    ensures one { (t : ℕ) → result ≡ Some t → (a ≡ Some t) ⊎ (b ≡ Some t) }
{
    match (a, b) {
        (Some(x), Some(y)) => Some(x.min(y)),
        (Some(x), None) => Some(x),
        (None, b) => b,
    }
}
