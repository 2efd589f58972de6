//! How many threads a step of a run is worth. Nothing that a run promises hangs on it.
ghost use Rattle.std.specs.Prelude.{◌<◌};

use dash_hall::{gauge_handler, looper_of};
use dash_script::{Block, Command, Script};
use loop_model::NoMemory;
use std::alloc::Global;

/// Where the senders stand that have work, among all those of a step.
#[derive(Drop)]
pub(crate) struct Spread {
    senders: usize,
    last: Option<usize>,
    /// The least distance between two of them.
    gap: usize,
}

impl Spread {
    /// None of so many senders has work.
    pub(crate) fn new(senders: usize) -> Spread {
        Spread {
            senders,
            last: None,
            gap: senders,
        }
    }

    /// The sender at this place has work. The places rise.
    pub(crate) fn add(&mut self, place: usize) {
        if let Some(last) = self.last {
            self.gap = self.gap.min(place.saturating_sub(last));
        }
        self.last = Some(place);
    }

    /// So many threads that no two senders with work share one, where all are dealt out in order and in equal parts: one thread where
    /// one sender or none has work.
    pub(crate) fn threads(&self) -> usize
        ensures { 0 < result }
    {
        self.senders.div_ceil(self.gap.max(1)).max(1)
    }
}

/// When each looper of a run has something to do next, as far as it is known, in milliseconds and by looper number.
#[derive(Drop)]
pub(crate) struct Agenda {
    due: Vec<Option<u64>>,
    /// Whether some rule sends without delay.
    prompt: bool,
}

impl Agenda {
    /// The loopers of the script, which have nothing to do.
    pub(crate) fn new(alloc: Global, script: &Script) -> Result<Agenda, NoMemory> {
        Ok(Agenda {
            due: vec![in alloc; None; script.loopers as usize]?,
            prompt: has_prompt_rule(script),
        })
    }

    /// The looper has something to do at this time, or nothing.
    pub(crate) fn note(&mut self, looper: u32, due: Option<u64>) {
        let place = looper as usize;
        if place < self.due.len() {
            self.due[place] = due;
        }
    }

    /// All loopers have something to do at this time, or nothing.
    pub(crate) fn note_all(&mut self, due: Option<u64>) {
        for place in 0..self.due.len() {
            self.due[place] = due;
        }
    }

    /// The lines of a block give their loopers something to do at once.
    pub(crate) fn note_block(&mut self, script: &Script, block: &Block) {
        for line in block.lines.as_slice() {
            match line.command {
                Command::Unbarrier { .. } => self.note_all(Some(block.time)),
                command => {
                    if let Some(looper) = met_at_once(script, command) {
                        self.note(looper, Some(block.time));
                    }
                }
            }
        }
    }

    /// A round at this time has done all that was due. A rule without delay may have given any looper something to do.
    pub(crate) fn note_round(&mut self, now: u64) {
        let due = if self.prompt { Some(now) } else { None };
        self.note_all(due);
    }

    /// How many threads a round at this time is worth.
    pub(crate) fn threads(&self, now: u64) -> usize
        ensures { 0 < result }
    {
        let mut spread = Spread::new(self.due.len());
        for (place, due) in self.due.as_slice().iter().enumerate() {
            if is_by(*due, now) {
                spread.add(place);
            }
        }
        spread.threads()
    }
}

fn has_prompt_rule(script: &Script) -> bool {
    for rule in script.rules.as_slice() {
        if rule.delay == 0 {
            return true;
        }
    }
    false
}

fn is_by(due: Option<u64>, now: u64) -> bool {
    match due {
        Some(due) => due <= now,
        None => false,
    }
}

/// The looper to which a line gives something to do at its own time. None of a later message, a removal, and a barrier's removal,
/// which may free messages of any.
fn met_at_once(script: &Script, command: Command) -> Option<u32> {
    match command {
        Command::Post { handler, delay, .. } => unless_later(looper_of(script, handler), delay),
        Command::PostAsync { handler, delay, .. } => {
            unless_later(looper_of(script, handler), delay)
        }
        Command::Callback { handler, delay, .. } => unless_later(looper_of(script, handler), delay),
        Command::Front { handler, .. } => Some(looper_of(script, handler)),
        Command::Set { gauge, .. } => Some(looper_of(script, gauge_handler(script, gauge))),
        Command::Frame { looper, .. } => Some(looper),
        Command::Quit { looper } => Some(looper),
        Command::QuitSafely { looper } => Some(looper),
        Command::Idle { looper, .. } => Some(looper),
        Command::Watch { looper, .. } => Some(looper),
        Command::Event { looper, .. } => Some(looper),
        _ => None,
    }
}

fn unless_later(looper: u32, delay: u64) -> Option<u32> {
    if delay > 0 { None } else { Some(looper) }
}
