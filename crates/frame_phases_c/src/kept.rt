// What a handle that is open keeps: a choreographer's state, and the callbacks that are still to be handed out.
ghost use Rattle.std.specs.Prelude.{◌≡◌, ◌<◌, [], IfOk, MatchResult};
ghost use Rattle.frame_phases.specs.State.{scheduled_at, delivered};
ghost use Rattle.frame_phases_c.specs.Contents.{just_opened};
ghost use Rattle.frame_phases_c.specs.Shown.{ChangesFrames, PostShown, RemoveShown, StartShown, StepShown, Posts, Removes, Starts, Steps, TriesPhase, forgotten, schedule_answer, shown_pulse, due_answer, due_left, deliver_left};

use crate::answers::{
    FrameAnswer, FrameLook, no_phase, nothing, removed, shown, shown_pulse, shown_schedule,
    shown_scheduling, shown_start, shown_step,
};
use crate::callback::FrameCallback;
use crate::steps::{Start, Step};
use frame_phases::{Callback, FrameState, Took};
use loop_model::NoMemory;
use std::alloc::Global;
use std::collections::VecDeque;
use std::marker::Model;

const NANOS_PER_MILLI: u64 = 1_000_000;

/// The state, and the callbacks that its latest phase took and that were not handed out yet, with their frame time.
#[derive(Drop)]
pub struct Kept {
    frames: FrameState,
    batch: VecDeque<Callback>,
    time: u64,
    phases: u32,
}

impl Model for Kept {
    ghost use Rattle.std.specs.Prelude.{◌≡◌, ◌<◌};
    ghost use Rattle.frame_phases_c.specs.Contents.{Contents};

    ghost Value = { Contents };

    ghost view = { λ k. record { frames = k.frames; batch = k.batch.items; time = k.time } };

    ghost invariant = { λ k. (k.phases ≡ k.frames.phases) × (0 < k.phases) };
}

impl Kept {
    pub(crate) fn new(alloc: Global, interval: u64, phases: u32) -> Result<Kept, NoMemory>
        requires interval_above_0 { 0 < interval }
        requires phases_above_0 { 0 < phases }
        ensures { IfOk result (λ k. k ≡ just_opened interval phases) }
    {
        Ok(Kept {
            frames: FrameState::new(alloc, 0, interval, phases)?,
            batch: VecDeque::new(alloc),
            time: 0,
            phases,
        })
    }

    fn try_post(&mut self, callback: &FrameCallback, now: u64) -> Result<FrameAnswer, NoMemory>
        ensures posts { Posts self.old.frames callback.now now result self.new.frames }
        ensures same { self.new ≡ record self.old { frames = self.new.frames } }
    {
        if callback.phase >= self.phases {
            return Ok(no_phase());
        }
        let scheduling = self.frames.post(
            callback.phase,
            callback.due,
            callback.id,
            callback.token(),
            now,
        )?;
        Ok(shown_scheduling(scheduling))
    }

    /// Posts the callback.
    pub(crate) fn post(&mut self, callback: &FrameCallback, now: u64) -> FrameAnswer
        ensures { ChangesFrames (λ x y. PostShown callback.now now result x y) self.old self.new }
    {
        shown(self.try_post(callback, now))
    }

    fn try_remove(&mut self, callback: &FrameCallback) -> Result<FrameAnswer, NoMemory>
        ensures removes { Removes self.old.frames callback.now result self.new.frames }
        ensures same { self.new ≡ record self.old { frames = self.new.frames } }
    {
        if callback.phase >= self.phases {
            return Ok(no_phase());
        }
        self.forget()?;
        let count = self
            .frames
            .remove(callback.phase, callback.id, callback.token())?;
        Ok(removed(count))
    }

    /// Removes the callbacks of its phase with its id, and with its token where it has one.
    pub(crate) fn remove(&mut self, callback: &FrameCallback) -> FrameAnswer
        ensures { ChangesFrames (λ x y. RemoveShown callback.now result x y) self.old self.new }
    {
        shown(self.try_remove(callback))
    }

    /// Schedules a frame.
    pub(crate) fn schedule(&mut self, now: u64) -> FrameAnswer
        ensures { ChangesFrames (λ x y. (result ≡ schedule_answer x now) × (y ≡ scheduled_at x now)) self.old self.new }
    {
        shown_schedule(self.frames.schedule(now))
    }

    /// Schedules a frame where the phase has a callback that is due.
    pub(crate) fn due(&mut self, phase: u32, now: u64) -> FrameAnswer
        ensures { ChangesFrames (λ x y. (result ≡ due_answer x phase now) × (y ≡ due_left x phase now)) self.old self.new }
    {
        if phase >= self.phases {
            return no_phase();
        }
        if self.frames.has_due(phase, now / NANOS_PER_MILLI) {
            return shown_schedule(self.frames.schedule(now));
        }
        nothing()
    }

    /// The pulse that is asked for.
    pub(crate) fn asked(&self) -> FrameAnswer
        ensures { result ≡ shown_pulse self.now.frames.asked }
    {
        shown_pulse(self.frames.asked())
    }

    /// Delivers the pulse that is asked for.
    pub(crate) fn deliver(&mut self, now: u64) -> FrameAnswer
        ensures { ChangesFrames (λ x y. (result ≡ shown_pulse (delivered x.asked now)) × (y ≡ deliver_left x now)) self.old self.new }
    {
        shown_pulse(self.frames.deliver(now))
    }

    // Drops what was recorded so far. At NoMemory it stays.
    fn forget(&mut self) -> Result<(), NoMemory>
        ensures { MatchResult result (λ _. self.new ≡ record self.old { frames = forgotten self.old.frames }) (λ _. self.new ≡ self.old) }
    {
        drop(self.frames.seal()?);
        Ok(())
    }

    fn start(&mut self, vsync: u64, at: u64) -> Start
        ensures { Starts self.old vsync at result self.new }
    {
        if !self.batch.is_empty() {
            return Start::Waits;
        }
        match self.forget() {
            Ok(()) => Start::Begins(self.frames.begin_frame(vsync, at)),
            Err(_) => Start::NoMemory,
        }
    }

    /// Begins the scheduled frame.
    pub(crate) fn begin(&mut self, vsync: u64, at: u64) -> FrameAnswer
        ensures { StartShown vsync at result self.old self.new }
    {
        shown_start(self.start(vsync, at))
    }

    /// The phase takes its callbacks, or the phase that is to be taken instead is answered.
    fn take_phase(&mut self, phase: u32, now: u64) -> Result<Step, Option<u32>>
        requires within { phase < self.old.frames.phases }
        requires empty { self.old.batch ≡ [] }
        ensures { TriesPhase self.old phase now result self.new }
    {
        match self.frames.take(phase, now) {
            Took::Batch { time, callbacks } => {
                let count = callbacks.len() as u64;
                self.batch = VecDeque::from_vec(callbacks.into_vec());
                self.time = time;
                Ok(Step::Phase { phase, time, count })
            }
            Took::Elsewhere { next } => Err(next),
            Took::NoMemory => Ok(Step::NoMemory),
        }
    }

    fn step(&mut self, now: u64) -> Step
        ensures { Steps self.old now result self.new }
    {
        if let Some(callback) = self.batch.pop_front() {
            let time = self.time;
            return Step::Run { callback, time };
        }
        match self.take_phase(0, now) {
            Ok(step) => step,
            Err(Some(next)) if next < self.phases => match self.take_phase(next, now) {
                Ok(step) => step,
                Err(_) => Step::Ended,
            },
            Err(_) => Step::Ended,
        }
    }

    /// The next step of the frame.
    pub(crate) fn next(&mut self, now: u64) -> FrameLook
        ensures { StepShown now result self.old self.new }
    {
        shown_step(self.step(now))
    }
}
