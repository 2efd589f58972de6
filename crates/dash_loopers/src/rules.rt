//! What a looper's rules send.
ghost use Rattle.std.specs.Prelude.{◌≡◌, ◌<◌, ℕ, [], ◌∷◌, ◌++◌, slice_get, Some, OnOk};
ghost use Rattle.looper_run.specs.Holding.{workplace, held, IsAt};
ghost use Rattle.dash_hall.specs.Kits.{badge_of};
ghost use Rattle.dash_loopers.specs.Clocked.{AddsUntimed};
ghost use Rattle.dash_loopers.specs.Players.{AreSameParts};
ghost use Rattle.dash_hall.specs.Growth.{Makes};
ghost use Rattle.dash_loopers.specs.declared.player.Parts.{Parts as PartsData};
ghost use Rattle.dash_script.specs.Reading.{HasText};
ghost use Rattle.loop_model.specs.declared.call.Call.TheVariants.{Post as Posts};
ghost use Rattle.run_model.specs.Planned.{bare_call};
ghost use Rattle.dash_loopers.specs.Played.{FiresAt, rule_met, with_call};
ghost use Rattle.run_model.specs.Control.{Timing};
ghost use Rattle.run_model.specs.Loopers.{reacted, reaction};
ghost use Rattle.dash_loopers.specs.Places.{ServesOn, PlayStep};
ghost use Rattle.dash_loopers.specs.Steps.{IsAtPlace, LeavesOwn, OnlyCalls};

use crate::hearing::place_without;
use crate::player::{Parts, Place};
use dash_hall::{looper_of, message_of, send};
use dash_script::Rule;
use handler_post::Way;
use loop_model::{NoMemory, Post};
use looper_run::Own;
use message_pool::PoolClaim;
use shared_queue::{Poster, SharedQueue};
use std::sync::Wait;

impl<'a, R: Wait> Place<'a, R> {
    /// Each rule of the message that has not fired so often sends its own.
    pub(crate) fn react(
        &self,
        parts: &mut Parts,
        own: &mut Own,
        p: &Post,
        now: u64,
    ) -> Result<(), NoMemory>
        requires serves { ServesOn self.now parts.old own.old }
        ensures calls { OnlyCalls parts.old parts.new own.old own.new }
        ensures plays { OnOk result (PlayStep self.now (reacted self.now.script.now now p.now) own.old own.new parts.old parts.new) }
    {
        for (place, rule) in self.script.rules.as_slice().iter().enumerate() {
            self.fire(parts, own, p, place, rule, now)?;
        }
        Ok(())
    }

    /// The rule at this place sends its message, where it is one of this message and has not fired so often.
    fn fire(
        &self,
        parts: &mut Parts,
        own: &mut Own,
        p: &Post,
        place: usize,
        rule: &Rule,
        now: u64,
    ) -> Result<(), NoMemory>
        requires one { slice_get self.now.script.now.rules place ≡ Some rule.now }
        requires serves { ServesOn self.now parts.old own.old }
        ensures calls { OnlyCalls parts.old parts.new own.old own.new }
        ensures plays { OnOk result (PlayStep self.now (rule_met self.now.script.now now p.now place rule.now) own.old own.new parts.old parts.new) }
    {
        if p.handler != rule.handler || p.what != rule.what {
            return Ok(());
        }
        if fires(parts, place, rule.times) {
            return self.send(parts, own, rule, now);
        }
        Ok(())
    }

    /// A rule's message, by the looper's poster of that queue.
    fn send(&self, parts: &mut Parts, own: &mut Own, rule: &Rule, now: u64) -> Result<(), NoMemory>
        requires one { (place : ℕ) × (slice_get self.now.script.now.rules place ≡ Some rule.now) }
        requires serves { ServesOn self.now parts.old own.old }
        ensures calls { OnlyCalls parts.old parts.new own.old own.new }
        ensures plays { OnOk result (PlayStep self.now
            (λ a. record a { sent = a.sent ++ reaction self.now.script.now now rule.now ∷ [] }) own.old own.new parts.old parts.new) }
    {
        let looper = looper_of(self.script, rule.to_handler);
        let when = now.saturating_add(rule.delay);
        let post = message_of(self.script, rule.to_handler, rule.to_what, when);
        if looper == self.looper {
            return self.send_own(own, &post);
        }
        self.send_other(parts, own, looper, &post)
    }

    /// A message to the looper itself.
    fn send_own(&self, own: &mut Own, post: &Post) -> Result<(), NoMemory>
        requires at { IsAtPlace self.now.script.now self.now.hall.now self.now.looper (workplace (held own.old)) }
        ensures leaves { LeavesOwn own.old own.new }
        ensures untimed { AddsUntimed own.old.poster.now own.new.poster.now }
        ensures plays { (parts : PartsData) (timing : Timing)
            → OnOk result (PlayStep self.now (with_call self.now.looper (bare_call (Posts post.now)) timing) own.old own.new parts parts) }
        ensures acts { own.new.journal.now.acts ≡ own.old.journal.now.acts }
    {
        let mut way = Way {
            queue: self.queue(),
            poster: own.poster,
            pool: &self.hall.pool,
            pass: own.pass,
        };
        send(self.rt, self.alloc, &mut way, post)
    }

    /// A message to another looper, where there is one of that number.
    fn send_other(
        &self,
        parts: &mut Parts,
        own: &mut Own,
        looper: u32,
        post: &Post,
    ) -> Result<(), NoMemory>
        requires within { HasText self.now.script.now → looper < self.now.script.now.loopers }
        requires other { looper ≡ self.now.looper → ⊥ }
        requires serves { ServesOn self.now parts.old own.old }
        ensures calls { OnlyCalls parts.old parts.new own.old own.new }
        ensures seen { own.new.poster.now ≡ own.old.poster.now }
        ensures plays { (timing : Timing)
            → OnOk result (PlayStep self.now (with_call looper (bare_call (Posts post.now)) timing) own.old own.new parts.old parts.new) }
    {
        let place = looper as usize;
        if place >= self.hall.queues.len() {
            return Ok(());
        }
        let queue = &self.hall.queues[place];
        let poster = &mut parts.others[place_without(self.looper as usize, place)];
        self.send_by(poster, own, queue, post)
    }

    /// A message by a poster of another looper's queue.
    fn send_by(
        &self,
        poster: &mut Poster<PoolClaim>,
        own: &mut Own,
        queue: &SharedQueue<PoolClaim>,
        post: &Post,
    ) -> Result<(), NoMemory>
        requires at { IsAt queue.now self.now.hall.now.pool (record (held own.old) { poster = poster.old }) }
        ensures poster { badge_of poster.new ≡ badge_of poster.old }
        ensures leaves { LeavesOwn own.old own.new }
        ensures untimed { AddsUntimed poster.old poster.new }
        ensures made { OnOk result (Makes poster.old poster.new (bare_call (Posts post.now)) []) }
        ensures acts { own.new.journal.now.acts ≡ own.old.journal.now.acts }
        ensures seen { own.new.poster.now ≡ own.old.poster.now }
    {
        let mut way = Way {
            queue,
            poster: &mut *poster,
            pool: &self.hall.pool,
            pass: own.pass,
        };
        send(self.rt, self.alloc, &mut way, post)
    }
}

/// Whether the rule at this place fires once more; if so, it is counted.
fn fires(parts: &mut Parts, place: usize, times: u32) -> bool
    ensures same { AreSameParts parts.old parts.new }
    ensures fires { FiresAt place times parts.old parts.new result }
{
    if place < parts.fired.len() && parts.fired[place] < times {
        parts.fired[place] += 1;
        return true;
    }
    false
}
