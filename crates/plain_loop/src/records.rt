//! How a looper lets go of what it told, and of what its queue recorded.
ghost use Rattle.std.specs.Prelude.{◌≡◌, ◌+◌, Bool, true, false};
ghost use Rattle.shared_queue.specs.Known.{IsOf};
ghost use Rattle.looper_run.specs.Tests.{IsSameLooper};
ghost use Rattle.plain_loop.specs.Looping.{WaitsTo, LetsGoOf};

use loop_io::Clock;
use loop_model::NoMemory;
use looper_run::Looper;
use message_pool::PoolClaim;
use queue_state::{Kept, Recorder, Unkept};
use shared_queue::SharedQueue;
use std::alloc::Global;
use std::sync::Wait;

/// After how many milliseconds a looper lets go at the latest whose queue's entries are kept.
const MOST_MILLIS: u64 = 1_000;

/// Where the entries of a queue go, with what keeps them from growing (this project's profile).
pub trait LetGo: Recorder {
    /// Whether memory keeps them.
    ghost keeps: { Bool };

    /// Until which moment a looper may wait that is to wait until this one, in milliseconds. Where its queue's entries are kept that is
    /// a second at the most, since what others post and remove meanwhile is recorded too.
    fn waits_to<C: Clock>(clock: &C, until: Option<u64>) -> Option<u64>
        ensures { WaitsTo (C.shows clock.now) keeps until result };

    /// Drops the acts that the looper told and, where they are kept, its queue's entries so far. At NoMemory those stay.
    fn let_go<R: Wait>(
        looper: &mut Looper<Self>,
        rt: &R,
        alloc: Global,
        queue: &SharedQueue<PoolClaim, Self>,
    ) -> Result<(), NoMemory>
        requires queue { IsOf looper.old.held.poster queue.now }
        requires last { looper.old.held.poster.sender + 1 ≡ queue.now.constants.setting.senders }
        ensures gone { LetsGoOf keeps result looper.old looper.new }
        ensures same { IsSameLooper looper.old.held looper.new.held };
}

impl LetGo for Kept {
    ghost keeps = { true };

    fn waits_to<C: Clock>(clock: &C, until: Option<u64>) -> Option<u64> {
        let latest = clock.uptime_millis().saturating_add(MOST_MILLIS);
        match until {
            None => Some(latest),
            Some(until) => Some(until.min(latest)),
        }
    }

    fn let_go<R: Wait>(
        looper: &mut Looper<Kept>,
        rt: &R,
        alloc: Global,
        queue: &SharedQueue<PoolClaim, Kept>,
    ) -> Result<(), NoMemory> {
        looper.let_go(rt, alloc, queue)
    }
}

impl LetGo for Unkept {
    ghost keeps = { false };

    fn waits_to<C: Clock>(clock: &C, until: Option<u64>) -> Option<u64> {
        until
    }

    fn let_go<R: Wait>(
        looper: &mut Looper<Unkept>,
        rt: &R,
        alloc: Global,
        queue: &SharedQueue<PoolClaim, Unkept>,
    ) -> Result<(), NoMemory> {
        looper.drop_acts(alloc);
        Ok(())
    }
}
