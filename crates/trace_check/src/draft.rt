//! A trace that is read line by line.
ghost use Rattle.std.specs.Prelude.{◌≡◌, ◌<◌, ◌-◌, IfOk, OnOk};
ghost use Rattle.line_words.specs.LineReading.{answered};
ghost use Rattle.trace_check.specs.Progress.{after_entries, after_part, after_queues, after_start, blank, opened, settled, queue_with_entry};

use crate::line::{Head, TraceLine};
use crate::reading::line_of;
use crate::trace::{Trace, TraceQueue};
use line_words::{ByLines, Stop};
use loop_model::{Entry, NoMemory, Sequence};
use std::alloc::Global;
use std::mem::replace;

/// How far the trace has come.
#[derive(Clone, Copy)]
pub(crate) enum Part {
    Start,
    Body,
    End,
}

/// The queues that have all their entries, the one that has not, and how many of its entries are to come.
#[derive(Drop)]
pub(crate) struct Draft {
    part: Part,
    queues: Sequence<TraceQueue>,
    current: TraceQueue,
    left: u64,
}

/// No queue.
fn blank(alloc: Global) -> TraceQueue
    ensures { result ≡ blank }
{
    TraceQueue {
        looper: 0,
        main: false,
        lockstep: false,
        senders: 0,
        entries: Sequence::from_vec(Vec::new(alloc)),
    }
}

/// A queue without entries.
fn opened(alloc: Global, head: &Head) -> TraceQueue
    ensures { result ≡ opened head.now }
{
    TraceQueue {
        looper: head.looper,
        main: head.main,
        lockstep: head.lockstep,
        senders: head.senders,
        entries: Sequence::from_vec(Vec::new(alloc)),
    }
}

impl Draft {
    /// Moves a queue that has all its entries to the others.
    fn settle(&mut self, alloc: Global) -> Result<(), NoMemory>
        ensures { OnOk result (self.new ≡ settled self.old) }
    {
        if self.left == 0 {
            let whole = replace(&mut self.current, blank(alloc));
            self.queues.push(whole)?;
        }
        Ok(())
    }

    fn add_queue(&mut self, alloc: Global, head: &Head) -> Result<(), NoMemory>
        ensures { OnOk result (self.new ≡ settled (record self.old { current = opened head.now; left = head.now.count })) }
    {
        self.current = opened(alloc, head);
        self.left = head.count;
        self.settle(alloc)
    }

    fn add_entry(&mut self, alloc: Global, entry: &Entry) -> Result<(), NoMemory>
        requires { 0 < self.old.left }
        ensures { OnOk result (self.new ≡ settled (record self.old { current = queue_with_entry self.old.current entry.now; left = self.old.left - 1 })) }
    {
        self.current.entries.push(*entry)?;
        self.left -= 1;
        self.settle(alloc)
    }

    fn add_at_start(&mut self, line: &TraceLine) -> bool
        ensures { after_start self.old line.now ≡ answered result self.new }
    {
        match line {
            TraceLine::Title => {
                self.part = Part::Body;
                true
            }
            _ => false,
        }
    }

    fn add_to_queues(&mut self, alloc: Global, line: &TraceLine) -> Result<bool, NoMemory>
        ensures { IfOk result (λ good. after_queues self.old line.now ≡ answered good self.new) }
    {
        match line {
            TraceLine::Queue(head) => {
                self.add_queue(alloc, head)?;
                Ok(true)
            }
            TraceLine::End => {
                self.part = Part::End;
                Ok(true)
            }
            _ => Ok(false),
        }
    }

    fn add_to_entries(&mut self, alloc: Global, line: &TraceLine) -> Result<bool, NoMemory>
        requires { 0 < self.old.left }
        ensures { IfOk result (λ good. after_entries self.old line.now ≡ answered good self.new) }
    {
        match line {
            TraceLine::Entry(entry) => {
                self.add_entry(alloc, entry)?;
                Ok(true)
            }
            _ => Ok(false),
        }
    }
}

impl ByLines for Draft {
    type Whole = Trace;

    type Cause = ();

    ghost use Rattle.trace_check.specs.declared.line.TraceLine.{TraceLine};
    ghost use Rattle.trace_check.specs.declared.draft.Draft.{Draft};
    ghost use Rattle.trace_check.specs.Progress.{trace_language};

    ghost Said = { TraceLine };

    ghost Held = { Draft };

    ghost language = { trace_language };

    ghost so_far = { λ draft. draft };

    fn new(alloc: Global) -> Result<Draft, NoMemory> {
        Ok(Draft {
            part: Part::Start,
            queues: Sequence::from_vec(Vec::new(alloc)),
            current: blank(alloc),
            left: 0,
        })
    }

    #[tactic(auto, unfolding(crate::specs::Progress::next))]
    fn take(&mut self, alloc: Global, line: u64, bytes: &[u8]) -> Result<(), Stop<()>> {
        let Some(said) = line_of(bytes) else {
            return Err(Stop::Bad(line, ()));
        };
        let good = match self.part {
            Part::Start => self.add_at_start(&said),
            Part::Body if self.left == 0 => self.add_to_queues(alloc, &said)?,
            Part::Body => self.add_to_entries(alloc, &said)?,
            Part::End => false,
        };
        if !good {
            return Err(Stop::Bad(line, ()));
        }
        Ok(())
    }

    #[tactic(auto, using(crate::proofs::Whole::text_ends, crate::proofs::Whole::text_stops))]
    fn end(self, line: u64, bytes: &[u8]) -> Result<Trace, Stop<()>> {
        let is_whole = bytes.is_empty() & matches!(self.part, Part::End);
        if !is_whole {
            return Err(Stop::Bad(line, ()));
        }
        Ok(Trace {
            queues: self.queues,
        })
    }
}
