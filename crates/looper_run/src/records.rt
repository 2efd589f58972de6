//! What a looper lets go, so that it may run for long in bounded memory.
ghost use Rattle.std.specs.Prelude.{◌≡◌, ◌+◌};
ghost use Rattle.shared_queue.specs.Known.{IsOf};
ghost use Rattle.shared_queue.specs.Calls.{SealedBy};
ghost use Rattle.looper_run.specs.Holding.{IsBeside};
ghost use Rattle.looper_run.specs.LettingGo.{untold, LetsGo};
ghost use Rattle.looper_run.specs.Tests.{IsSameLooper};

use crate::looper::Looper;
use loop_model::{Act, NoMemory, Segment, Sequence};
use message_pool::{Payload, PoolClaim};
use queue_state::{Kept, Recorder};
use shared_queue::SharedQueue;
use std::alloc::Global;
use std::mem;
use std::sync::Wait;

impl<E: Recorder, P: Payload> Looper<E, P> {
    /// Hands out the acts that it told so far, or since the last such call; what it does from now on is told behind nothing. It
    /// takes no memory (this project's profile).
    pub fn take_acts(&mut self, alloc: Global) -> Sequence<Act>
        ensures acts { result ≡ self.old.held.journal.acts }
        ensures untold { self.new ≡ untold self.old }
    {
        mem::replace(&mut self.journal.acts, Sequence::new(alloc))
    }

    /// Drops those acts, and keeps their room for what it tells from now on. Where the queue's entries are not kept, that is all that
    /// a looper has to let go (this project's profile).
    pub fn drop_acts(&mut self, alloc: Global)
        ensures { self.new ≡ untold self.old }
    {
        let mut acts = self.take_acts(alloc).into_vec();
        acts.clear();
        self.journal.acts = Sequence::from_vec(acts);
    }
}

impl<P: Payload> Looper<Kept, P> {
    /// Hands out the part of its queue's history that was not handed out before, as `seal` of its poster, which is the last sender's.
    /// At NoMemory nothing is handed out (this project's profile).
    pub fn seal<R: Wait>(
        &mut self,
        rt: &R,
        queue: &SharedQueue<PoolClaim<P>>,
    ) -> Result<Segment, NoMemory>
        requires queue { IsOf self.old.held.poster queue.now }
        requires last { self.old.held.poster.sender + 1 ≡ queue.now.constants.setting.senders }
        ensures sealed { SealedBy self.old.held.poster self.new.held.poster result }
        ensures same { IsSameLooper self.old.held self.new.held }
        ensures beside { IsBeside self.old self.new }
    {
        self.poster.seal(rt, queue)
    }

    /// Drops the acts that it told and the part of its queue's history that was not handed out, so that a looper of the last sender
    /// which calls it now and then runs in bounded memory. At NoMemory that part stays (this project's profile).
    pub fn let_go<R: Wait>(
        &mut self,
        rt: &R,
        alloc: Global,
        queue: &SharedQueue<PoolClaim<P>>,
    ) -> Result<(), NoMemory>
        requires queue { IsOf self.old.held.poster queue.now }
        requires last { self.old.held.poster.sender + 1 ≡ queue.now.constants.setting.senders }
        ensures gone { LetsGo result self.old self.new }
        ensures same { IsSameLooper self.old.held self.new.held }
    {
        self.drop_acts(alloc);
        drop(self.seal(rt, queue)?);
        Ok(())
    }
}
