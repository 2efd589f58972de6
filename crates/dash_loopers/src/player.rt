//! What a looper does with its messages.
ghost use Rattle.std.specs.Prelude.{◌≡◌, ◌<◌, length, slice_get, Some, None, IsTrue, true, false, OnOk, is_ok, is_some, ◌==◌, ◌||◌};
ghost use Rattle.std.specs.Option.{option_map_or};
ghost use Rattle.message_slot.specs.Fields.{handler_of, obj_of};
ghost use Rattle.looper_run.specs.declared.dispatcher.Did.TheVariants.{No};
ghost use Rattle.dash_loopers.specs.Clocked.{DeliversAt};
ghost use Rattle.dash_loopers.specs.Loopers.{IsLooperOf};
ghost use Rattle.dash_loopers.specs.Players.{Owner, ServesAt};
ghost use Rattle.dash_loopers.specs.Played.{IsPlaying};
ghost use Rattle.run_model.specs.Planned.{frame_handler as the_frame_handler};
ghost use Rattle.looper_run.specs.declared.dispatcher.Did.TheVariants.{Yes};
ghost use Rattle.dash_loopers.specs.PlayingLaws.{playing_others, playing_disposed, playing_quiet};
ghost use Rattle.dash_loopers.specs.Places.{ServesOn, DeliversOn};
ghost use Rattle.dash_loopers.specs.Steps.{Leaves};

use crate::looper::{StageLooper, rounded_up};
use crate::view_root::ViewRoot;
use choreographer::{Choreographer, FramePass};
use dash_hall::{Hall, Still, Uptime, frame_handler};
use dash_script::Script;
use loop_io::Gate;
use loop_model::{NoMemory, Post};
use looper_run::{Did, Dispatcher, Own};
use message_pool::PoolClaim;
use message_slot::Message;
use queue_state::Kept;
use shared_queue::{Poster, SharedQueue};
use std::alloc::Global;
use std::snapshot::Snapshot;
use std::sync::Wait;

/// What a looper has beside its poster of its own queue, its pass of the pool and its journal.
#[derive(Drop)]
pub struct Parts {
    /// Its posters of the other loopers' queues, by rising looper number.
    pub others: Vec<Poster<PoolClaim>>,
    /// Its pass of its choreographer.
    pub frames: FramePass,
    /// Its gauges and its traversal.
    pub root: ViewRoot,
    /// How often each rule has fired.
    pub fired: Vec<u32>,
    /// How often it came to the gate.
    pub passed: u64,
    /// Whether a pulse came whose frame has neither begun nor would have gone back.
    pub awaits: bool,
}

/// Where a looper's code runs.
#[derive(Drop)]
pub(crate) struct Place<'a, R: Wait> {
    pub(crate) rt: &'a R,
    pub(crate) alloc: Global,
    pub(crate) hall: &'a Hall,
    pub(crate) script: &'a Script,
    pub(crate) looper: u32,
}

/// A looper's code, for one round.
#[derive(Drop)]
pub(crate) struct Player<'a, R: Wait, G: Gate> {
    pub(crate) place: Place<'a, R>,
    pub(crate) gate: &'a G,
    pub(crate) sender: u32,
    /// The moment of the round, in milliseconds. A pulse is delivered then.
    pub(crate) now: u64,
    /// The latest time at which the looper began to dispatch a message, in milliseconds, or 0 before the first one.
    pub(crate) dispatched: u64,
    /// The looper as it was when the round began.
    pub(crate) began: &'a Snapshot<StageLooper>,
    pub(crate) parts: Parts,
}

impl<'a, R: Wait, G: Gate> Dispatcher for Player<'a, R, G> {
    type Record = Kept;

    type Value = ();

    ghost Serves = { λ d w. ServesAt d.place.script.now d.place.hall.now d.place.looper d.parts w };

    ghost Origin = { Owner };

    ghost origin = { λ d. record { script = d.place.script.now; hall = d.place.hall.now; number = d.place.looper; now = d.now; began = d.began.now.value } };

    ghost Awaits = { λ d awaited. IsTrue true };

    ghost nudges = { λ d. 0 };

    ghost asked = { λ d. None };

    ghost Meets = { λ d s es acts. IsPlaying d.place.script.now d.place.looper d.now d.began.now.value d.dispatched s es acts d.parts };

    fn before(&mut self, number: u64, m: &mut Message<PoolClaim>) {
        self.gate.pass(self.sender, self.parts.passed);
        self.parts.passed = self.parts.passed.saturating_add(1);
    }

    fn pulse(&mut self, own: &mut Own, now: u64) -> Did {
        if self.now <= self.dispatched {
            return Did::No;
        }
        let choreographer = self.place.choreographer();
        let stamp = choreographer.asked(self.place.rt, &mut self.parts.frames);
        let Some(due) = rounded_up(stamp) else {
            return Did::No;
        };
        if due != self.now {
            return Did::No;
        }
        self.place.pulse(&mut self.parts, own, self.now)
    }

    fn listen(&mut self, fd: u32, events: u32, listener: u32) -> Option<u32> {
        Some(listener.min(7))
    }

    fn idle(&mut self, id: u32, keep: bool) -> Option<bool> {
        Some(keep)
    }

    fn run_callback(&mut self, own: &mut Own, id: u64, m: &Message<PoolClaim>, now: u64) -> Did {
        if self.place.hall.stop.is_stopped(self.place.rt) {
            return Did::NoMemory;
        }
        self.dispatched = self.dispatched.max(now);
        Did::Yes
    }

    fn intercept(&mut self, own: &mut Own, m: &Message<PoolClaim>, now: u64) -> Did {
        if !self.place.intercepts(m) {
            return Did::No;
        }
        self.dispatched = self.dispatched.max(now);
        did(
            self.place
                .deliver(&mut self.parts, own, &m.as_post(), now, &Still { now }),
        )
    }

    fn handle(&mut self, own: &mut Own, m: &Message<PoolClaim>, now: u64) -> Did {
        self.dispatched = self.dispatched.max(now);
        did(
            self.place
                .deliver(&mut self.parts, own, &m.as_post(), now, &Still { now }),
        )
    }

    ghost others = { λ d s es e acts apart meets. playing_others d.place.script.now d.place.looper d.now d.began.now.value d.dispatched s es e acts d.parts apart meets };

    ghost disposal = { λ d s es e now acts own call reply meets.
        playing_disposed d.place.script.now d.place.looper d.now d.began.now.value d.dispatched s es e now acts d.parts own call reply meets };

    ghost quiet = { λ d s es a acts is meets. playing_quiet d.place.script.now d.place.looper d.now d.began.now.value d.dispatched s es a acts d.parts is meets };
}

impl<'a, R: Wait> Place<'a, R> {
    /// The looper's queue.
    pub(crate) fn queue(&self) -> &SharedQueue<PoolClaim>
        requires { IsLooperOf self.now.script.now self.now.hall.now self.now.looper }
        ensures { slice_get self.now.hall.now.queues.items self.now.looper ≡ Some result.now }
    {
        of_looper(&self.hall.queues, self.looper)
    }

    /// The looper's choreographer.
    pub(crate) fn choreographer(&self) -> &Choreographer
        requires { IsLooperOf self.now.script.now self.now.hall.now self.now.looper }
        ensures { slice_get self.now.hall.now.choreographers.items self.now.looper ≡ Some result.now }
    {
        of_looper(&self.hall.choreographers, self.looper)
    }

    /// Whether the message is one of the choreographer, or has an object: the handler's callback object takes it then.
    pub(crate) fn intercepts(&self, m: &Message<PoolClaim>) -> bool
        requires { IsLooperOf self.now.script.now self.now.hall.now self.now.looper }
        ensures { result ≡ (option_map_or (λ h. h == the_frame_handler self.now.looper) (handler_of m.now.item) false || is_some (obj_of m.now.item)) }
    {
        m.handler() == Some(frame_handler(self.looper).id) || m.obj().is_some()
    }

    /// Delivers a message that has no callback: one of the choreographer to it, one with an object to the gauge of that number, and
    /// any other to the rules. Where the run is given up it delivers none. A frame that it begins reads the uptime.
    pub(crate) fn deliver<U: Uptime>(
        &self,
        parts: &mut Parts,
        own: &mut Own,
        p: &Post,
        now: u64,
        uptime: &U,
    ) -> Result<(), NoMemory>
        requires serves { ServesOn self.now parts.old own.old }
        requires callback { p.now.callback ≡ None }
        ensures leaves { Leaves parts.old parts.new own.old own.new }
        ensures clocked { DeliversAt self.now.looper now p.now own.old.poster.now own.new.poster.now parts.old parts.new }
        ensures delivers { OnOk result (DeliversOn self.now now (U.is_moment uptime.now) p.now own.old own.new parts.old parts.new) }
    {
        if self.hall.stop.is_stopped(self.rt) {
            return Err(NoMemory);
        }
        if p.handler == frame_handler(self.looper).id {
            return self.on_frame(parts, own, p, now, uptime);
        }
        match p.obj {
            Some(object) => self.set_target(parts, own, object, p.arg, now),
            None => self.react(parts, own, p, now),
        }
    }
}

/// What a list with one for each looper has for the looper of this number.
pub(crate) fn of_looper<T>(list: &Vec<T>, looper: u32) -> &T
    requires { looper < length list.now.items }
    ensures { slice_get list.now.items looper ≡ Some result.now }
{
    &list[looper as usize]
}

pub(crate) fn did(done: Result<(), NoMemory>) -> Did
    ensures no { result ≡ No → ⊥ }
    ensures yes { result ≡ Yes → is_ok done ≡ true }
{
    match done {
        Ok(()) => Did::Yes,
        Err(NoMemory) => Did::NoMemory,
    }
}
