//! A looper of a script.
ghost use Rattle.std.specs.Prelude.{◌≡◌, ◌≢◌, ◌+◌, ◌<◌, true, false, IfOk};
ghost use Rattle.std.specs.Option.{option_map};
ghost use Rattle.looper_run.specs.Round.{is_ended};
ghost use Rattle.run_model.specs.FrameRecords.{millis_up};
ghost use Rattle.dash_hall.specs.Kits.{IsHall, IsKitOf, IsUnusedKit};
ghost use Rattle.dash_loopers.specs.Loopers.{ComesToWait, IsLooper, IsLooperOf, ArePartsOf, HasRunInLockstep, is_given_up, until_of, MayWork, IsLooperStill};
ghost use Rattle.dash_loopers.specs.Players.{AreSameParts, RingsMain};
ghost use Rattle.dash_loopers.specs.Played.{HasPlayed};
ghost use Rattle.dash_loopers.specs.Ends.{IsNewLooper, HandsOutKit, IsToldBy};

use crate::player::{Parts, Place, Player, of_looper};
use crate::view_root::ViewRoot;
use choreographer::NANOS_PER_MILLI;
use dash_hall::{Hall, Kit};
use dash_script::Script;
use loop_io::Gate;
use loop_model::{Journal, NoMemory};
use looper_run::{Looper, Round};
use std::alloc::Global;
use std::snapshot::Snapshot;
use std::sync::Wait;

/// A looper with all that it works with, and how its last round ended.
#[derive(Drop)]
pub struct StageLooper {
    /// Its number among the loopers.
    pub number: u32,
    /// Its number among the senders.
    pub sender: u32,
    /// The loop of its own queue.
    pub looper: Looper,
    /// They are there between two rounds.
    pub parts: Option<Parts>,
    /// How its last round ended.
    pub last: Round,
    /// The latest time at which it began to dispatch a message in a round in lockstep, in milliseconds, or 0 before the first one.
    pub dispatched: u64,
}

impl StageLooper {
    /// The looper of this number, which has done nothing, with what it needs to work with the queues. NoMemory where it found none.
    pub fn new(
        alloc: Global,
        hall: &Hall,
        script: &Script,
        number: u32,
        kit: Kit,
    ) -> Result<StageLooper, NoMemory>
        requires looper { IsLooperOf script.now hall.now number }
        requires kit { IsKitOf script.now hall.now (script.now.threads + number) kit }
        requires unused { IsUnusedKit kit }
        ensures begins { IfOk result (IsNewLooper script.now hall.now number kit) }
    {
        let Kit {
            mut posters,
            pass,
            mut frames,
        } = kit;
        let poster = posters.remove(number as usize);
        let own_frames = frames.remove(0);
        let parts = Parts {
            others: posters,
            frames: own_frames,
            root: ViewRoot::new(alloc, script, number)?,
            fired: vec![in alloc; 0; script.rules.len()]?,
            passed: 0,
            awaits: false,
        };
        Ok(StageLooper {
            number,
            sender: script.threads + number,
            looper: Looper::make(alloc, number, poster, pass),
            parts: Some(parts),
            last: Round::Drained {
                dispatched: 0,
                until: None,
            },
            dispatched: 0,
        })
    }

    /// Whether its last round ended, since its queue was over.
    pub fn has_ended(&self) -> bool
        ensures { result ≡ is_ended self.now.last }
    {
        match self.last {
            Round::Ended { .. } => true,
            _ => false,
        }
    }

    /// Whether its last round found no memory.
    pub fn gave_up(&self) -> bool
        ensures { result ≡ is_given_up self.now.last }
    {
        match self.last {
            Round::NoMemory => true,
            _ => false,
        }
    }

    /// When its first message is due that no barrier holds back, in milliseconds, as its last round left it. None where there is none,
    /// or the round didn't end with a wait. Behind a loop by a clock it is None.
    pub fn until(&self) -> Option<u64>
        ensures { result ≡ until_of self.now.last }
    {
        match self.last {
            Round::Drained { until, .. } => until,
            _ => None,
        }
    }

    /// One round at this time, in milliseconds, unless it has ended or given up (`loop` of AOSP's `Looper`, up to its wait). Where it
    /// finds no memory, or the run given up before a message, it has given up, and the run with it.
    pub fn run_round<R: Wait, G: Gate>(
        &mut self,
        rt: &R,
        alloc: Global,
        hall: &Hall,
        script: &Script,
        gate: &G,
        now: u64,
    )
        requires may { MayWork true script.now hall.now self.old }
        ensures still { IsLooperStill script.now hall.now self.old self.new }
        ensures round { HasRunInLockstep script.now now self.old self.new }
        ensures waits { ComesToWait script.now self.old self.new }
        ensures plays { HasPlayed script.now now self.old self.new }
    {
        if self.has_ended() || self.gave_up() {
            return;
        }
        let began = Snapshot::of(&*self);
        let Some(parts) = self.parts.take() else {
            unreachable!()
        };
        let mut player = Player {
            place: Place {
                rt,
                alloc,
                hall,
                script,
                looper: self.number,
            },
            gate,
            sender: self.sender,
            now,
            dispatched: self.dispatched,
            began: &began,
            parts,
        };
        self.last = self.looper.run_round(
            rt,
            of_looper(&hall.queues, self.number),
            &hall.pool,
            of_looper(&hall.sources, self.number),
            &mut player,
            now,
        );
        self.dispatched = player.dispatched;
        let mut parts = player.parts;
        close(rt, hall, script, self.number, self.gave_up(), &mut parts);
        self.parts = Some(parts);
    }

    /// Its journal, and what it worked with, at its end. NoMemory where it found none.
    pub fn into_kit(
        self,
        alloc: Global,
        hall: &Hall,
        script: &Script,
    ) -> Result<(Journal, Kit), NoMemory>
        requires hall { IsHall script.now hall.now }
        requires looper { IsLooper script.now hall.now self }
        ensures gives { IfOk result (λ r. HandsOutKit script.now hall.now self r.0 r.1) }
        ensures told { IfOk result (λ r. IsToldBy script.now self r.0 r.1) }
    {
        let StageLooper {
            number,
            sender: _,
            looper,
            parts,
            last: _,
            dispatched: _,
        } = self;
        let Some(parts) = parts else { unreachable!() };
        let Parts {
            mut others,
            frames,
            root,
            fired: _,
            passed: _,
            awaits: _,
        } = parts;
        let ViewRoot {
            edition: _,
            gauges: _,
            barrier: _,
            painted: _,
        } = root;
        let (poster, pass, journal) = looper.into_parts();
        others.insert(number as usize, poster)?;
        let mut passes = Vec::new(alloc);
        passes.push(frames)?;
        Ok((
            journal,
            Kit {
                posters: others,
                pass,
                frames: passes,
            },
        ))
    }
}

/// Gives the run up where the looper of this number found no memory in its round, and nudges main.
pub(crate) fn close<R: Wait>(
    rt: &R,
    hall: &Hall,
    script: &Script,
    number: u32,
    gave_up: bool,
    parts: &mut Parts,
)
    requires looper { IsLooperOf script.now hall.now number }
    requires parts { ArePartsOf script.now hall.now number parts.old }
    ensures parts { AreSameParts parts.old parts.new }
    ensures same { gave_up ≡ false → parts.new ≡ parts.old }
    ensures nudged { gave_up ≡ true → number ≢ 0 → RingsMain parts.old parts.new }
{
    if !gave_up {
        return;
    }
    hall.stop.stop(rt);
    if number == 0 {
        return;
    }
    parts.others[0].nudge(rt, &hall.queues[0]);
}

/// A pulse's stamp in nanoseconds, in milliseconds rounded up.
pub(crate) fn rounded_up(stamp: Option<u64>) -> Option<u64>
    ensures { result ≡ option_map millis_up stamp }
{
    let nanos = stamp?;
    Some(nanos.div_ceil(NANOS_PER_MILLI))
}
