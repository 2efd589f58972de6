// What a handle that is open keeps: idle handlers and watched descriptors.
ghost use Rattle.std.specs.Prelude.{◌≡◌};
ghost use Rattle.loop_sources.specs.Descriptors.{next_event, without_event, mask_at};
ghost use Rattle.loop_sources_c.specs.Contents.{just_opened};
ghost use Rattle.loop_sources_c.specs.Shown.{Shows, Adds, Turns, RemovesIdle, HandsOut, TurnShown, Finishes, Watches, HandsIn, AnswersEvent, shown_event, shown_mask};

use crate::answers::{
    SourceAnswer, SourceLook, bad_mask, done, shown, shown_event, shown_found, shown_mask,
    shown_turn,
};
use loop_model::NoMemory;
use loop_sources::{FdTable, IdleSet, IdleTurn};
use std::alloc::Global;
use std::collections::VecDeque;
use std::marker::Model;

/// The greatest sum of the bits of a mask.
const ALL: u32 = 7;

/// The idle handlers, those of the turn in progress that were not handed out yet, and the watched descriptors.
#[derive(Drop)]
pub struct Kept {
    idles: IdleSet,
    turns: VecDeque<IdleTurn>,
    fds: FdTable,
}

impl Model for Kept {
    ghost use Rattle.loop_sources_c.specs.Contents.{Contents, contents_code};

    ghost Value = { Contents };

    ghost coded = { contents_code };

    ghost view = { λ k. record { idles = k.idles; turns = k.turns.items; fds = k.fds } };
}

impl Kept {
    pub(crate) fn new(alloc: Global) -> Kept
        ensures { result ≡ just_opened }
    {
        Kept {
            idles: IdleSet::empty(alloc),
            turns: VecDeque::new(alloc),
            fds: FdTable::empty(alloc),
        }
    }

    fn try_add(&mut self, id: u32) -> Result<SourceAnswer, NoMemory>
        ensures { Adds self.old id result self.new }
    {
        let serial = self.idles.add(id, true)?;
        Ok(done(serial))
    }

    /// Adds an idle handler.
    pub(crate) fn add_idle(&mut self, id: u32) -> SourceAnswer
        ensures { Shows (Adds self.old id) result self.new }
    {
        shown(self.try_add(id))
    }

    /// Removes the first idle handler of the number.
    pub(crate) fn remove_idle(&mut self, id: u32) -> SourceAnswer
        ensures { RemovesIdle self.old id result self.new }
    {
        shown_found(self.idles.remove(id))
    }

    fn try_begin(&mut self) -> Result<SourceAnswer, NoMemory>
        ensures { Turns self.old result self.new }
    {
        let turns = self.idles.turns()?;
        let count = turns.len() as u64;
        self.turns = VecDeque::from_vec(turns);
        Ok(done(count))
    }

    /// Begins an idle turn of the handlers that stand.
    pub(crate) fn begin_idle(&mut self) -> SourceAnswer
        ensures { Shows (Turns self.old) result self.new }
    {
        shown(self.try_begin())
    }

    fn pop_turn(&mut self) -> Option<IdleTurn>
        ensures { HandsOut self.old result self.new }
    {
        self.turns.pop_front()
    }

    /// The next handler of the turn.
    pub(crate) fn next_idle(&mut self) -> SourceLook
        ensures { TurnShown result self.old self.new }
    {
        shown_turn(self.pop_turn())
    }

    /// An idle handler answered.
    pub(crate) fn finish_idle(&mut self, serial: u64, kept: bool) -> SourceAnswer
        ensures { Finishes self.old serial kept result self.new }
    {
        shown_found(self.idles.finish(serial, kept))
    }

    fn try_watch(&mut self, fd: u32, mask: u32, id: u32) -> Result<SourceAnswer, NoMemory>
        ensures { Watches self.old fd mask id result self.new }
    {
        if mask > ALL {
            return Ok(bad_mask());
        }
        self.fds.set(fd, mask, id)?;
        Ok(done(0))
    }

    /// Registers a descriptor.
    pub(crate) fn watch(&mut self, fd: u32, mask: u32, id: u32) -> SourceAnswer
        ensures { Shows (Watches self.old fd mask id) result self.new }
    {
        shown(self.try_watch(fd, mask, id))
    }

    fn try_hand_in(&mut self, fd: u32, events: u32) -> Result<SourceAnswer, NoMemory>
        ensures { HandsIn self.old fd events result self.new }
    {
        if events > ALL {
            return Ok(bad_mask());
        }
        self.fds.hand_in(fd, events)?;
        Ok(done(0))
    }

    /// Hands in an event.
    pub(crate) fn hand_in(&mut self, fd: u32, events: u32) -> SourceAnswer
        ensures { Shows (HandsIn self.old fd events) result self.new }
    {
        shown(self.try_hand_in(fd, events))
    }

    /// The oldest event that waits.
    pub(crate) fn next_event(&mut self) -> SourceLook
        ensures event { result ≡ shown_event (next_event self.old.fds) }
        ensures after { self.new ≡ record self.old { fds = without_event self.old.fds } }
    {
        shown_event(self.fds.take_event())
    }

    /// A listener answered.
    pub(crate) fn answer_event(&mut self, fd: u32, birth: u64, seq: u64, mask: u32) -> SourceAnswer
        ensures { AnswersEvent self.old fd birth seq mask result self.new }
    {
        if mask > ALL {
            return bad_mask();
        }
        shown_found(self.fds.answer(fd, birth, seq, mask))
    }

    /// What is watched for at the descriptor.
    pub(crate) fn watched(&self, fd: u32) -> SourceAnswer
        ensures { result ≡ shown_mask (mask_at self.now.fds fd) }
    {
        shown_mask(self.fds.watched(fd))
    }
}
