//! What a looper does with the messages of its choreographer and of its gauges.
ghost use Rattle.std.specs.Prelude.{◌≡◌, ◌<◌, ◌≤◌, [], ◌∷◌, ◌++◌, map, None, true, false, OnOk};
ghost use Rattle.looper_run.specs.Acts.{IsOfDispatcher};
ghost use Rattle.dash_loopers.specs.Clocked.{CallsUntimed};
ghost use Rattle.dash_script.specs.Causes.{phase_count};
ghost use Rattle.dash_loopers.specs.Played.{paint_of, IsNextPulse};
ghost use Rattle.loop_model.specs.declared.post.Post.{Post as PostData};
ghost use Rattle.run_model.specs.Planned.{frame_handler as the_frame_handler};
ghost use Rattle.run_model.specs.Loopers.{starts_frame, object_set};
ghost use Rattle.looper_run.specs.Tests.{Unless};
ghost use Rattle.choreographer.specs.declared.host.HostSent.TheVariants.{NoMemory as NoRoom};
ghost use Rattle.choreographer.specs.Calls.{stamp_in};
ghost use Rattle.dash_loopers.specs.Places.{ServesOn, PlayStep, PlayStepAt, DeliversOn, DeliversPulseOn, PulsesOn, PulsedOn, SchedulesIfDue};
ghost use Rattle.dash_loopers.specs.Steps.{Leaves, KeepsToQueue, IsAtPlace, workplace_of, IsHostFor, TellsNothing, AsksNothing, PostsOn, TellsMore};

use crate::player::{Parts, Place, did};
use crate::view_root::Painted;
use choreographer::{DUE_MESSAGE, FRAME_MESSAGE, HostSent, Pulse};
use dash_hall::{Host, Still, Uptime, frame_handler};
use dash_script::phase_count;
use loop_model::{Act, Journal, NoMemory, Post};
use looper_run::{Did, Own};
use message_pool::{PoolClaim, PoolPass};
use shared_queue::Poster;
use std::snapshot::Snapshot;
use std::sync::Wait;

impl<'a, R: Wait> Place<'a, R> {
    /// The looper's queue as its choreographer sees it, at this moment in milliseconds and with this uptime.
    fn host<'b, U: Uptime>(
        &'b self,
        poster: &'b mut Poster<PoolClaim>,
        pass: &'b mut PoolPass,
        began: &'b Snapshot<Poster<PoolClaim>>,
        pass_began: &'b Snapshot<PoolPass>,
        now: u64,
        uptime: &'b U,
    ) -> Host<'b, R, U>
        requires at { IsAtPlace self.now.script.now self.now.hall.now self.now.looper (workplace_of poster.old pass.old) }
        requires began { (began.now.value ≡ poster.old) × (pass_began.now.value ≡ pass.old) }
        ensures host { IsHostFor self.now.looper now uptime.now poster.entry.ghost_name poster.old pass.entry.ghost_name pass.old result }
    {
        Host {
            rt: self.rt,
            alloc: self.alloc,
            handler: frame_handler(self.looper),
            queue: self.queue(),
            pool: &self.hall.pool,
            poster,
            pass,
            began,
            pass_began,
            now,
            uptime,
        }
    }

    /// Delivers the pulse that is asked for, if it came: its frame is to begin.
    fn deliver_pulse(&self, parts: &mut Parts, own: &mut Own, now: u64) -> Option<Pulse>
        requires serves { ServesOn self.now parts.old own.old }
        ensures leaves { Leaves parts.old parts.new own.old own.new }
        ensures untimed { CallsUntimed own.old.poster.now own.new.poster.now parts.old parts.new }
        ensures next { IsNextPulse self.now.script.now.period parts.old parts.new (stamp_in result) }
        ensures pulses { DeliversPulseOn self.now now own.old own.new parts.old parts.new result }
        ensures looked { PulsedOn self.now now own.old own.new parts.old parts.new result }
        ensures acts { own.new.journal.now.acts ≡ own.old.journal.now.acts }
    {
        let began = Snapshot::of(&*own.poster);
        let pass_began = Snapshot::of(&*own.pass);
        let still = Still { now };
        let mut host = self.host(own.poster, own.pass, &began, &pass_began, now, &still);
        let pulse = host.deliver(self.choreographer(), &mut parts.frames);
        parts.awaits |= pulse.is_some();
        pulse
    }

    /// Delivers the pulse that is asked for, if it came, and tells it.
    pub(crate) fn pulse(&self, parts: &mut Parts, own: &mut Own, now: u64) -> Did
        requires serves { ServesOn self.now parts.old own.old }
        ensures leaves { Leaves parts.old parts.new own.old own.new }
        ensures untimed { CallsUntimed own.old.poster.now own.new.poster.now parts.old parts.new }
        ensures pulses { Unless result (PulsesOn self.now now own.old own.new parts.old parts.new) }
    {
        match self.deliver_pulse(parts, own, now) {
            None => Did::No,
            Some(pulse) => {
                if is_wanting(pulse.sent) {
                    return Did::NoMemory;
                }
                did(tell(own.journal, Act::Vsync { stamp: pulse.stamp }))
            }
        }
    }

    /// The frame's message begins the frame that is to begin, unless it would go back, runs its callbacks, and tells what they painted. The
    /// uptime is read for its start and for each phase.
    fn do_frame<U: Uptime>(
        &self,
        parts: &mut Parts,
        own: &mut Own,
        now: u64,
        uptime: &U,
    ) -> Result<(), NoMemory>
        requires awaited { parts.old.awaits ≡ true }
        requires serves { ServesOn self.now parts.old own.old }
        ensures leaves { KeepsToQueue now parts.old parts.new own.old own.new }
        ensures delivers { (m : PostData) → starts_frame self.now.looper m ≡ true
            → OnOk result (DeliversOn self.now now (U.is_moment uptime.now) m own.old own.new parts.old parts.new) }
    {
        let began = Snapshot::of(&*own.poster);
        let pass_began = Snapshot::of(&*own.pass);
        let mut host = self.host(own.poster, own.pass, &began, &pass_began, now, uptime);
        parts.awaits = false;
        parts.root.do_frame(
            self.choreographer(),
            &mut parts.frames,
            &mut host,
            phase_count(self.script.edition),
        )?;
        tell_painted(own.journal, parts.root.painted.as_slice())?;
        parts.root.painted.clear();
        Ok(())
    }

    /// The message of a callback's due time schedules a frame, where the phase has a due callback and none is scheduled.
    fn on_due(&self, parts: &mut Parts, own: &mut Own, phase: u32, now: u64)
        requires serves { ServesOn self.now parts.old own.old }
        ensures leaves { KeepsToQueue now parts.old parts.new own.old own.new }
        ensures plays { PlayStep self.now (λ a. a) own.old own.new parts.old parts.new }
        ensures tells { TellsNothing own.old own.new }
        ensures asks { AsksNothing parts.old.frames parts.new.frames }
        ensures awaits { parts.new.awaits ≡ parts.old.awaits }
        ensures due { phase < phase_count self.now.script.now.edition → SchedulesIfDue now phase parts.old.frames parts.new.frames }
        ensures beyond { phase_count self.now.script.now.edition ≤ phase → parts.new ≡ parts.old }
    {
        let phases = phase_count(self.script.edition);
        if phase >= phases {
            return;
        }
        let began = Snapshot::of(&*own.poster);
        let pass_began = Snapshot::of(&*own.pass);
        let still = Still { now };
        let mut host = self.host(own.poster, own.pass, &began, &pass_began, now, &still);
        host.on_due(self.choreographer(), &mut parts.frames, phase);
    }

    /// A message with an object sets the target of that gauge, where it is one of this looper.
    pub(crate) fn set_target(
        &self,
        parts: &mut Parts,
        own: &mut Own,
        object: u64,
        target: u32,
        now: u64,
    ) -> Result<(), NoMemory>
        requires serves { ServesOn self.now parts.old own.old }
        ensures leaves { KeepsToQueue now parts.old parts.new own.old own.new }
        ensures plays { OnOk result (PlayStepAt self.now now (λ at. object_set self.now.script.now self.now.looper at object target)
            own.old own.new parts.old parts.new) }
        ensures acts { own.new.journal.now.acts ≡ own.old.journal.now.acts }
        ensures posts { PostsOn parts.old.frames parts.new.frames × (parts.new.awaits ≡ parts.old.awaits) }
    {
        let began = Snapshot::of(&*own.poster);
        let pass_began = Snapshot::of(&*own.pass);
        let still = Still { now };
        let mut host = self.host(own.poster, own.pass, &began, &pass_began, now, &still);
        parts.root.set_target(
            self.choreographer(),
            &mut parts.frames,
            &mut host,
            object,
            target,
        )
    }

    /// A message by the choreographer's handler, which begins a frame, where a pulse came whose frame has neither begun nor would have
    /// gone back, or says that a callback came due.
    pub(crate) fn on_frame<U: Uptime>(
        &self,
        parts: &mut Parts,
        own: &mut Own,
        p: &Post,
        now: u64,
        uptime: &U,
    ) -> Result<(), NoMemory>
        requires callback { p.now.callback ≡ None }
        requires handler { p.now.handler ≡ the_frame_handler self.now.looper }
        requires serves { ServesOn self.now parts.old own.old }
        ensures leaves { KeepsToQueue now parts.old parts.new own.old own.new }
        ensures delivers { OnOk result (DeliversOn self.now now (U.is_moment uptime.now) p.now own.old own.new parts.old parts.new) }
    {
        match p.what {
            FRAME_MESSAGE => {
                if !parts.awaits {
                    return Ok(());
                }
                self.do_frame(parts, own, now, uptime)
            }
            DUE_MESSAGE => {
                self.on_due(parts, own, p.arg, now);
                Ok(())
            }
            _ => Ok(()),
        }
    }
}

/// Tells what was painted, in order.
fn tell_painted(journal: &mut Journal, painted: &[Painted]) -> Result<(), NoMemory>
    ensures more { TellsMore journal.old journal.new }
    ensures told { OnOk result (journal.new.acts ≡ journal.old.acts ++ map paint_of painted.now) }
{
    for paint in painted {
        let act = Act::Paint {
            gauge: paint.gauge,
            value: paint.value,
        };
        tell(journal, act)?;
    }
    Ok(())
}

/// Appends one act of the dispatcher's own.
fn tell(journal: &mut Journal, act: Act) -> Result<(), NoMemory>
    requires { IsOfDispatcher act }
    ensures more { TellsMore journal.old journal.new }
    ensures told { OnOk result (journal.new.acts ≡ journal.old.acts ++ act ∷ []) }
{
    journal.acts.push(act)?;
    Ok(())
}

/// Whether memory ran out for a message.
fn is_wanting(sent: HostSent) -> bool
    ensures { result ≡ false → sent ≡ NoRoom → ⊥ }
{
    matches!(sent, HostSent::NoMemory)
}
