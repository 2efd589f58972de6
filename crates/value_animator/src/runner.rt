//! What runs over frames, and what it tells.
ghost use Rattle.std.specs.Prelude.{◌≡◌, ◌++◌, ◌∷◌, [], List, ℕ, OnOk, IfOk, All, map, string_bytes};
ghost use Rattle.std.specs.List.{flat_map, list_all};
ghost use Rattle.value_animator.specs.Plans.{IsThing};
ghost use Rattle.value_animator.specs.Runners.{is_ended, runner_at, telling_lines, telling_words, AreAsked, RunnersHaveTold};
ghost use Rattle.value_animator.specs.Run.{line_text, thing_words};

use crate::plan::Thing;
use animator::{Animator, Plan, Valued};
use countdown::{Countdown, Ticked};
use loop_model::NoMemory;
use std::alloc::Global;
use std::fmt::Write;

/// What a thing tells at a frame.
#[derive(Clone, Copy)]
pub(crate) enum Telling {
    Tick { left: u64 },
    Finished,
    Value { value: u32 },
    End { value: u32 },
}

/// A thing that has not told its end, or one that has.
#[derive(Drop)]
pub(crate) enum Runner {
    Animator(Animator),
    Countdown(Countdown),
    Ended,
}

fn copied(plan: &Plan) -> Plan
    ensures { result ≡ plan.now }
{
    Plan {
        delay: plan.delay,
        duration: plan.duration,
        repeats: plan.repeats,
        reverse: plan.reverse,
        keys: plan.keys.copied(),
    }
}

impl Runner {
    /// A thing that was given no frame yet.
    fn new(thing: &Thing) -> Runner
        requires { IsThing thing.now }
        ensures { result ≡ runner_at thing.now [] }
    {
        match thing {
            Thing::Animator(plan) => Runner::Animator(Animator::new(copied(plan))),
            Thing::Countdown { total, interval } => {
                Runner::Countdown(Countdown::new(*total, *interval))
            }
        }
    }

    pub(crate) fn is_ended(&self) -> bool
        ensures { result ≡ is_ended self.now }
    {
        matches!(self, Runner::Ended)
    }

    /// Asks the thing at a frame of this time, unless it has ended.
    pub(crate) fn ask(&mut self, time: u64) -> Option<Telling>
        ensures told { (thing : Thing) (times : List ℕ) → self.old ≡ runner_at thing times → telling_words result ≡ thing_words thing times time }
        ensures after { (thing : Thing) (times : List ℕ) → self.old ≡ runner_at thing times → self.new ≡ runner_at thing (times ++ time ∷ []) }
    {
        match self {
            Runner::Animator(animator) => match animator.on_frame(time) {
                Valued::Value { value } => Some(Telling::Value { value }),
                Valued::End { value } => {
                    *self = Runner::Ended;
                    Some(Telling::End { value })
                }
                Valued::Over => {
                    *self = Runner::Ended;
                    None
                }
            },
            Runner::Countdown(countdown) => match countdown.on_frame(time) {
                Ticked::Tick { left } => Some(Telling::Tick { left }),
                Ticked::Quiet => None,
                Ticked::Finished => {
                    *self = Runner::Ended;
                    Some(Telling::Finished)
                }
                Ticked::Over => {
                    *self = Runner::Ended;
                    None
                }
            },
            Runner::Ended => None,
        }
    }
}

/// All things, which were given no frame yet.
pub(crate) fn runners(alloc: Global, things: &[Thing]) -> Result<Vec<Runner>, NoMemory>
    requires { All IsThing things.now }
    ensures { IfOk result (λ v. v.items ≡ map (λ t. runner_at t []) things.now) }
{
    let mut runners = Vec::new(alloc);
    for thing in things {
        runners.push(Runner::new(thing))?;
    }
    Ok(runners)
}

/// Writes the line of what a thing tells, where it tells something.
fn write_telling(
    out: &mut String,
    time: u64,
    place: usize,
    telling: Option<Telling>,
) -> Result<(), NoMemory>
    ensures { OnOk result (string_bytes out.new
        ≡ string_bytes out.old ++ flat_map line_text (telling_lines time place telling)) }
{
    match telling {
        Some(Telling::Tick { left }) => writeln!(out, "{time} {place} tick {left}")?,
        Some(Telling::Finished) => writeln!(out, "{time} {place} finished")?,
        Some(Telling::Value { value }) => writeln!(out, "{time} {place} value {value}")?,
        Some(Telling::End { value }) => writeln!(out, "{time} {place} end {value}")?,
        None => {}
    }
    Ok(())
}

/// Asks all things at a frame of this time, and writes their lines by rising number.
pub(crate) fn ask_all(out: &mut String, things: &mut [Runner], time: u64) -> Result<(), NoMemory>
    ensures told { OnOk result (RunnersHaveTold things.old time (string_bytes out.old) (string_bytes out.new)) }
    ensures after { OnOk result (AreAsked things.old time things.new) }
{
    for place in 0..things.len() {
        let telling = things[place].ask(time);
        write_telling(out, time, place, telling)?;
    }
    Ok(())
}

/// Whether all things have ended.
pub(crate) fn have_ended(things: &[Runner]) -> bool
    ensures { result ≡ list_all is_ended things.now }
{
    things.iter().all(|thing| thing.is_ended())
}
