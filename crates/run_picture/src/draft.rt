//! A report that is read line by line.
ghost use Rattle.std.specs.Prelude.{◌≡◌, IfOk, OnOk};
ghost use Rattle.line_words.specs.LineReading.{answered};
ghost use Rattle.run_picture.specs.Progress.{after_acts, after_frames, after_open, after_past, after_start, blank, closed, opened, shut};

use crate::line::ReportLine;
use crate::lines::line_of;
use crate::report::{Act, Fates, Frame, Looper, Past, Report, Run};
use line_words::{ByLines, Stop};
use loop_model::{NoMemory, Sequence};
use std::alloc::Global;
use std::mem::replace;

/// How far the report has come: nothing yet, between loopers, in a looper's history, its journal or its frames, or behind
/// the last line.
#[derive(Clone, Copy)]
pub(crate) enum Part {
    Start,
    Open,
    Past,
    Acts,
    Frames,
    End,
}

/// The loopers that have all their lines, the one that has not, and its last frame.
#[derive(Drop)]
pub(crate) struct Draft {
    part: Part,
    edition: u32,
    loopers: Sequence<Looper>,
    current: Looper,
    frame: Frame,
}

const NO_FATES: Fates = Fates {
    accepted: 0,
    dispatched: 0,
    removed: 0,
    dropped: 0,
    stranded: 0,
    queued: 0,
};

/// A looper of which nothing is told.
fn blank(alloc: Global) -> Looper
    ensures { result ≡ blank }
{
    Looper {
        past: Sequence::from_vec(Vec::new(alloc)),
        fates: NO_FATES,
        acts: Sequence::from_vec(Vec::new(alloc)),
        frames: Sequence::from_vec(Vec::new(alloc)),
    }
}

/// A frame in which nothing ran.
fn opened(alloc: Global, time: u64) -> Frame
    ensures { result ≡ opened time }
{
    Frame {
        time,
        runs: Sequence::from_vec(Vec::new(alloc)),
    }
}

impl Draft {
    /// The looper has all its lines.
    fn close(&mut self, alloc: Global) -> Result<(), NoMemory>
        ensures { OnOk result (self.new ≡ closed self.old) }
    {
        let whole = replace(&mut self.current, blank(alloc));
        self.loopers.push(whole)?;
        self.part = Part::Open;
        Ok(())
    }

    /// The frame has all its lines.
    fn shut(&mut self, alloc: Global, time: u64) -> Result<(), NoMemory>
        ensures { OnOk result (self.new ≡ shut time self.old) }
    {
        let whole = replace(&mut self.frame, opened(alloc, time));
        self.current.frames.push(whole)?;
        Ok(())
    }

    fn add_title(&mut self, line: &ReportLine) -> bool
        ensures { after_start self.old line.now ≡ answered result self.new }
    {
        match *line {
            ReportLine::Title(edition) => {
                self.edition = edition;
                self.part = Part::Open;
                true
            }
            _ => false,
        }
    }

    fn add_between(&mut self, line: &ReportLine) -> bool
        ensures { after_open self.old line.now ≡ answered result self.new }
    {
        match *line {
            ReportLine::Looper(number) => {
                if number == self.loopers.len() as u64 {
                    self.part = Part::Past;
                    true
                } else {
                    false
                }
            }
            ReportLine::End => {
                self.part = Part::End;
                true
            }
            _ => false,
        }
    }

    fn add_past(&mut self, line: &ReportLine) -> Result<bool, NoMemory>
        ensures { IfOk result (λ good. after_past self.old line.now ≡ answered good self.new) }
    {
        match *line {
            ReportLine::Past(past) => {
                self.current.past.push(past)?;
                Ok(true)
            }
            ReportLine::Fates(fates) => {
                self.current.fates = fates;
                self.part = Part::Acts;
                Ok(true)
            }
            _ => Ok(false),
        }
    }

    fn add_act(&mut self, alloc: Global, line: &ReportLine) -> Result<bool, NoMemory>
        ensures { IfOk result (λ good. after_acts self.old line.now ≡ answered good self.new) }
    {
        match *line {
            ReportLine::Act(act) => {
                self.current.acts.push(act)?;
                Ok(true)
            }
            ReportLine::Frame(time) => {
                self.frame = opened(alloc, time);
                self.part = Part::Frames;
                Ok(true)
            }
            ReportLine::Looper(_) => {
                self.close(alloc)?;
                Ok(self.add_between(line))
            }
            ReportLine::End => {
                self.close(alloc)?;
                Ok(self.add_between(line))
            }
            _ => Ok(false),
        }
    }

    fn add_frame(&mut self, alloc: Global, line: &ReportLine) -> Result<bool, NoMemory>
        ensures { IfOk result (λ good. after_frames self.old line.now ≡ answered good self.new) }
    {
        match *line {
            ReportLine::Run(run) => {
                self.frame.runs.push(run)?;
                Ok(true)
            }
            ReportLine::Frame(time) => {
                self.shut(alloc, time)?;
                Ok(true)
            }
            ReportLine::Looper(_) => {
                self.shut(alloc, 0)?;
                self.close(alloc)?;
                Ok(self.add_between(line))
            }
            ReportLine::End => {
                self.shut(alloc, 0)?;
                self.close(alloc)?;
                Ok(self.add_between(line))
            }
            _ => Ok(false),
        }
    }
}

impl ByLines for Draft {
    type Whole = Report;

    type Cause = ();

    ghost use Rattle.run_picture.specs.declared.line.ReportLine.{ReportLine};
    ghost use Rattle.run_picture.specs.declared.draft.Draft.{Draft};
    ghost use Rattle.run_picture.specs.Progress.{reports};

    ghost Said = { ReportLine };

    ghost Held = { Draft };

    ghost language = { reports };

    ghost so_far = { λ draft. draft };

    fn new(alloc: Global) -> Result<Draft, NoMemory> {
        Ok(Draft {
            part: Part::Start,
            edition: 1,
            loopers: Sequence::from_vec(Vec::new(alloc)),
            current: blank(alloc),
            frame: opened(alloc, 0),
        })
    }

    #[tactic(auto, unfolding(crate::specs::Progress::next))]
    fn take(&mut self, alloc: Global, line: u64, bytes: &[u8]) -> Result<(), Stop<()>> {
        let Some(said) = line_of(bytes) else {
            return Err(Stop::Bad(line, ()));
        };
        let good = match self.part {
            Part::Start => self.add_title(&said),
            Part::Open => self.add_between(&said),
            Part::Past => self.add_past(&said)?,
            Part::Acts => self.add_act(alloc, &said)?,
            Part::Frames => self.add_frame(alloc, &said)?,
            Part::End => false,
        };
        if !good {
            return Err(Stop::Bad(line, ()));
        }
        Ok(())
    }

    #[tactic(auto, using(crate::proofs::Whole::text_ends, crate::proofs::Whole::text_stops))]
    fn end(self, line: u64, bytes: &[u8]) -> Result<Report, Stop<()>> {
        let is_whole = bytes.is_empty() & matches!(self.part, Part::End);
        if !is_whole {
            return Err(Stop::Bad(line, ()));
        }
        Ok(Report {
            edition: self.edition,
            loopers: self.loopers,
        })
    }
}
