//! The controller of a run.
ghost use Rattle.std.specs.Prelude.{◌≡◌, ◌≤◌, true, false, length, sum_by, IfOk, OnOk};
ghost use Rattle.dash_hall.specs.Growth.{GoesOn, MayCall, QuitsOf};
ghost use Rattle.dash_hall.specs.Hearing.{seen_by};
ghost use Rattle.dash_threads.specs.Threads.{AreByClock};
ghost use Rattle.looper_run.specs.Holding.{Sender};
ghost use Rattle.run_model.specs.Moments.{Mode, IsMomentOf};
ghost use Rattle.dash_stage.specs.Controllers.{IsController, CanTurn, TurnsAlone, IsClosing, IsClosingBy, HandsOutFrames, calls_on, time_in, Controls};
ghost use Rattle.dash_stage.specs.ControlSteps.{KeepsPace, HasAdvanced, HaveAdvanced, QuitsAt, CanMove, CanQuit, CanQuitAtEnd, CanHandOut, CanHandOutFrames, TriesToHalt, TurnsIdle, StaysIdle, KeepsPosters, HasLookedFor};
ghost use Rattle.dash_stage.specs.GivingUp.{QuitsUnless};
ghost use Rattle.dash_stage.specs.Timeliness.{EachTurnsOn, IsHaltEntry, IsNoEntry, HandsPartsOut};

use choreographer::{Choreographer, FramePass};
use dash_hall::{Hall, Kit, quit};
use dash_script::Script;
use frame_phases::FrameEntry;
use handler_post::Way;
use loop_model::{NoMemory, Segment, Sequence};
use message_pool::{Pool, PoolClaim, PoolPass};
use queue_state::{Advancing, Halting};
use shared_queue::{Poster, SharedQueue};
use std::sync::Wait;

/// Moves the queues' time on, and ends the loopers.
#[derive(Drop)]
pub(crate) struct Controller {
    pub(crate) kit: Kit,
    /// The parts of each queue's history that it handed out, by looper number.
    pub(crate) sealed: Vec<Vec<Segment>>,
    /// The parts of each frame record that it handed out, by looper number.
    pub(crate) sealed_frames: Vec<Vec<Sequence<FrameEntry>>>,
}

/// From so many entries on since its base, a queue hands them out, and each choreographer what it has (this project's profile).
const MANY: u64 = 4096;

impl Controller {
    /// Moves the time of each queue on to this one, in milliseconds. Answers false where a message is due on one of them.
    pub(crate) fn advance<R: Wait>(
        &mut self,
        rt: &R,
        hall: &Hall,
        script: &Script,
        now: u64,
    ) -> Result<bool, NoMemory>
        requires { CanMove script.now hall.now 0 now self.old }
        ensures controller { IsController script.now hall.now self.new }
        ensures pace { KeepsPace script.now now self.old self.new }
        ensures all { IfOk result (HaveAdvanced script.now now self.old self.new) }
    {
        let mut drained = true;
        for place in 0..script.loopers {
            drained &= self.advance_one(rt, hall, script, place as usize, now)?;
        }
        Ok(drained)
    }

    /// Moves the time of one queue on. Answers false where a message is due there.
    fn advance_one<R: Wait>(
        &mut self,
        rt: &R,
        hall: &Hall,
        script: &Script,
        place: usize,
        now: u64,
    ) -> Result<bool, NoMemory>
        requires { CanMove script.now hall.now place now self.old }
        ensures alone { TurnsAlone true script.now hall.now place self.old self.new }
        ensures pace { KeepsPace script.now now self.old self.new }
        ensures one { IfOk result (HasAdvanced script.now now place self.old self.new) }
    {
        match self.kit.posters[place].advance(rt, &hall.queues[place], now) {
            Advancing::Advanced => Ok(true),
            Advancing::Over => Ok(true),
            Advancing::Reached { .. } => Ok(true),
            Advancing::NotDrained { .. } => Ok(false),
            Advancing::NoMemory => Err(NoMemory),
        }
    }

    /// Whether some queue has many entries that it has not handed out, of those that the controller has seen.
    pub(crate) fn has_many(&self) -> bool {
        self.kit
            .posters
            .as_slice()
            .iter()
            .zip(self.sealed.as_slice().iter())
            .any(|(poster, parts)| is_many(poster, parts))
    }

    /// Has each queue hand its entries out that has many of them, and each choreographer what it has, so that none keeps its whole
    /// history.
    pub(crate) fn seal<R: Wait>(
        &mut self,
        rt: &R,
        hall: &Hall,
        script: &Script,
    ) -> Result<(), NoMemory>
        requires { Controls true script.now hall.now self.old }
        ensures idle { StaysIdle true script.now hall.now self.old self.new }
        ensures turns { OnOk result (EachTurnsOn IsNoEntry self.old self.new) }
    {
        for place in 0..script.loopers {
            self.seal_one(rt, hall, script, place as usize)?;
            self.seal_frames(rt, hall, script, place as usize)?;
        }
        Ok(())
    }

    /// Has one queue hand its entries out, where it has many.
    fn seal_one<R: Wait>(
        &mut self,
        rt: &R,
        hall: &Hall,
        script: &Script,
        place: usize,
    ) -> Result<(), NoMemory>
        requires at { CanTurn true script.now hall.now place self.old }
        ensures { TurnsIdle true script.now hall.now place self.old self.new }
    {
        hand_out(
            rt,
            &hall.queues[place],
            &mut self.kit.posters[place],
            &mut self.sealed[place],
        )
    }

    /// Has one choreographer hand its entries out.
    fn seal_frames<R: Wait>(
        &mut self,
        rt: &R,
        hall: &Hall,
        script: &Script,
        place: usize,
    ) -> Result<(), NoMemory>
        requires at { CanTurn true script.now hall.now place self.old }
        ensures { KeepsPosters script.now hall.now self.old self.new }
    {
        hand_out_frames(
            rt,
            &hall.choreographers[place],
            &mut self.kit.frames[place],
            &mut self.sealed_frames[place],
        )
    }

    /// How many entries of all histories together it has seen.
    pub(crate) fn entries_seen(&self) -> u128
        ensures { result ≡ sum_by length (seen_by self.now.kit.posters.items) }
    {
        let mut seen: u128 = 0;
        for poster in self.kit.posters.as_slice() {
            seen += u128::from(poster.seen());
        }
        seen
    }

    /// The pulse that is asked for at a looper's choreographer, in milliseconds, rounded up.
    pub(crate) fn asked<R: Wait>(
        &mut self,
        rt: &R,
        hall: &Hall,
        script: &Script,
        looper: u32,
    ) -> Option<u64>
        requires at { CanTurn true script.now hall.now looper self.old }
        ensures { HasLookedFor script.now hall.now looper self.old self.new result }
    {
        let place = looper as usize;
        let stamp = hall.choreographers[place].asked(rt, &mut self.kit.frames[place])?;
        Some(stamp.div_ceil(1_000_000))
    }

    /// Quits a looper safely at the end, unless its queue's time stands still before, since it was disposed of.
    pub(crate) fn quit<R: Wait>(
        &mut self,
        rt: &R,
        hall: &Hall,
        script: &Script,
        looper: u32,
    ) -> Result<(), NoMemory>
        requires { CanQuit script.now hall.now looper self.old }
        ensures alone { TurnsAlone true script.now hall.now looper self.old self.new }
        ensures quits { OnOk result (QuitsAt script.now looper self.old self.new) }
    {
        if self.time_on(rt, hall, script, looper as usize) < script.end {
            return Ok(());
        }
        self.quit_one(rt, hall, script, looper as usize)
    }

    /// The time of a queue, in milliseconds.
    fn time_on<R: Wait>(&mut self, rt: &R, hall: &Hall, script: &Script, place: usize) -> u64
        requires at { CanTurn true script.now hall.now place self.old }
        ensures idle { TurnsIdle true script.now hall.now place self.old self.new }
        ensures time { (d : Sender) → result ≡ time_in (calls_on self.new place d) }
    {
        self.kit.posters[place].time(rt, &hall.queues[place])
    }

    /// Quits a looper safely, whose queue's time has come to the end.
    fn quit_one<R: Wait>(
        &mut self,
        rt: &R,
        hall: &Hall,
        script: &Script,
        place: usize,
    ) -> Result<(), NoMemory>
        requires { CanQuitAtEnd script.now hall.now place self.old }
        ensures alone { TurnsAlone true script.now hall.now place self.old self.new }
        ensures quits { OnOk result (QuitsAt script.now place self.old self.new) }
    {
        quit_by(
            rt,
            &hall.queues[place],
            &mut self.kit.posters[place],
            &hall.pool,
            &mut self.kit.pass,
            true,
            script.end,
        )
    }

    /// Halts the main looper at the end. Answers false where a message is due.
    pub(crate) fn halt<R: Wait>(&mut self, rt: &R, hall: &Hall, script: &Script) -> bool
        requires at { CanTurn true script.now hall.now 0 self.old }
        requires closing { IsClosing script.now self.old }
        ensures { TriesToHalt true (IsClosing script.now) script.now hall.now self.old self.new result }
    {
        match self.kit.posters[0].halt(rt, &hall.queues[0], script.end) {
            Halting::Halted => true,
            Halting::Over => true,
            Halting::NotDrained { .. } => false,
        }
    }

    /// By a clock: quits a looper safely at this moment, in milliseconds, unless it has ended. Answers false where it found no memory.
    pub(crate) fn quit_unless<R: Wait>(
        &mut self,
        rt: &R,
        hall: &Hall,
        script: &Script,
        place: usize,
        has_ended: bool,
        now: u64,
    ) -> bool
        requires at { CanTurn hall.now.lockstep script.now hall.now place self.old }
        ensures { QuitsUnless has_ended now script.now hall.now place self.old self.new result }
    {
        if has_ended {
            return true;
        }
        self.quit_now(rt, hall, script, place, true, now)
    }

    /// By a clock: halts the main looper at this moment, in milliseconds. Answers false where a message is due.
    pub(crate) fn halt_by_clock<R: Wait>(
        &mut self,
        rt: &R,
        hall: &Hall,
        script: &Script,
        now: u64,
    ) -> bool
        requires at { CanTurn false script.now hall.now 0 self.old }
        requires closing { IsClosingBy script.now self.old }
        requires late { script.now.end ≤ now }
        ensures tries { TriesToHalt false (IsClosingBy script.now) script.now hall.now self.old self.new result }
        ensures clocked { (m : Mode) → IsMomentOf m now → AreByClock m self.old.kit.posters.items → AreByClock m self.new.kit.posters.items }
    {
        match self.kit.posters[0].halt(rt, &hall.queues[0], now) {
            Halting::Halted => true,
            Halting::Over => true,
            Halting::NotDrained { .. } => false,
        }
    }
}

/// Whether the queue has many entries that are not handed out, of those that the poster has seen; these are its parts so far.
fn is_many(poster: &Poster<PoolClaim>, parts: &Vec<Segment>) -> bool {
    let handed_out = match parts.last() {
        Some(part) => part.base.length.saturating_add(part.entries.len() as u64),
        None => 0,
    };
    poster.seen().saturating_sub(handed_out) >= MANY
}

/// Has a queue hand its entries out, where it has many. They stand behind its other parts.
fn hand_out<R: Wait>(
    rt: &R,
    queue: &SharedQueue<PoolClaim>,
    poster: &mut Poster<PoolClaim>,
    parts: &mut Vec<Segment>,
) -> Result<(), NoMemory>
    requires { CanHandOut poster.old queue.now }
    ensures { HandsPartsOut poster.old poster.new parts.old.items parts.new.items }
{
    if poster.since(rt, queue) < MANY {
        return Ok(());
    }
    parts.reserve(1)?;
    let part = poster.seal(rt, queue)?;
    parts.push_reserved(part);
    Ok(())
}

/// Has a choreographer hand its entries out. They stand behind its other parts.
fn hand_out_frames<R: Wait>(
    rt: &R,
    choreographer: &Choreographer,
    pass: &mut FramePass,
    parts: &mut Vec<Sequence<FrameEntry>>,
) -> Result<(), NoMemory>
    requires { CanHandOutFrames pass.old choreographer.now }
    ensures { HandsOutFrames pass.old pass.new parts.old.items parts.new.items }
{
    parts.reserve(1)?;
    let part = choreographer.seal(rt, pass)?;
    parts.push_reserved(part);
    Ok(())
}

/// Quits a queue, safely or not, at this time in milliseconds.
pub(crate) fn quit_by<R: Wait>(
    rt: &R,
    queue: &SharedQueue<PoolClaim>,
    poster: &mut Poster<PoolClaim>,
    pool: &Pool,
    pass: &mut PoolPass,
    safe: bool,
    now: u64,
) -> Result<(), NoMemory>
    requires { MayCall queue.now pool.now poster.old pass.old }
    ensures on { GoesOn poster.old poster.new pass.old pass.new }
    ensures quit { OnOk result (QuitsOf poster.old poster.new safe now) }
{
    let mut way = Way {
        queue,
        poster,
        pool,
        pass,
    };
    quit(rt, &mut way, safe, now)
}
