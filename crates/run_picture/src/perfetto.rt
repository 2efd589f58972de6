//! The marks as trace events in JSON, as chrome://tracing and Perfetto's page read them.
ghost use Rattle.std.specs.Prelude.{◌≡◌, ◌++◌, IfOk, OnOk, map, codes, string_bytes};
ghost use Rattle.serde_json.specs.Data.{array, no_members, object, put, string};
ghost use Rattle.serde_json.specs.View.{items_of, members_view, view};
ghost use Rattle.serde_json.specs.Written.{compact_text};
ghost use Rattle.run_picture.specs.Events.{Traces, argued, count, event, kind_members, kind_name, micros, moment_members, naming, phased, process, slice, thread, threads_from, trace};

use crate::mark::{Mark, MarkKind, Moment, marks};
use crate::report::{Looper, Report, Subject};
use crate::scale::period_of;
use loop_model::NoMemory;
use serde_json::{Map, Value};
use std::alloc::Global;

/// How long a slice lasts of which a report tells no length, in microseconds: a viewer shows none that lasts 0.
const SHORTEST: u64 = 1;

/// A moment in whole microseconds.
fn micros(time: Moment) -> u64
    ensures { result ≡ micros time }
{
    time.millis
        .saturating_mul(1000)
        .saturating_add(time.nanos / 1000)
}

/// Adds a member that is a number. `NoMemory` where there was none, as with each call here.
pub fn put_number(
    alloc: Global,
    members: &mut Map<String, Value>,
    key: &str,
    number: u64,
) -> Result<(), NoMemory>
    ensures { OnOk result (members_view members.new.entries ≡ put key.now (count number) (members_view members.old.entries)) }
{
    members.insert(String::from_str(alloc, key)?, Value::from(number))?;
    Ok(())
}

/// Adds a member that is text.
pub fn put_text(
    alloc: Global,
    members: &mut Map<String, Value>,
    key: &str,
    text: String,
) -> Result<(), NoMemory>
    ensures { OnOk result (members_view members.new.entries ≡ put key.now (string (string_bytes text)) (members_view members.old.entries)) }
{
    members.insert(String::from_str(alloc, key)?, Value::from(text))?;
    Ok(())
}

/// Adds the one argument of an event.
fn put_argument(
    alloc: Global,
    members: &mut Map<String, Value>,
    args: Map<String, Value>,
) -> Result<(), NoMemory>
    ensures { OnOk result (members_view members.new.entries ≡ put (codes "args") (object (members_view args.entries)) (members_view members.old.entries)) }
{
    members.insert(String::from_str(alloc, "args")?, Value::Object(args))?;
    Ok(())
}

/// Adds the form of an event.
fn put_phase(alloc: Global, members: &mut Map<String, Value>, letter: &str) -> Result<(), NoMemory>
    ensures { OnOk result (members_view members.new.entries ≡ phased letter.now (members_view members.old.entries)) }
{
    put_text(alloc, members, "ph", String::from_str(alloc, letter)?)
}

/// Adds the event's one argument, a number of this name.
pub fn put_counted(
    alloc: Global,
    members: &mut Map<String, Value>,
    name: &str,
    number: u64,
) -> Result<(), NoMemory>
    ensures { OnOk result (members_view members.new.entries ≡ argued name.now (count number) (members_view members.old.entries)) }
{
    let mut args = Map::new(alloc);
    put_number(alloc, &mut args, name, number)?;
    put_argument(alloc, members, args)
}

/// The name of a mark's slice or counter.
fn name_of(alloc: Global, lane: u64, kind: MarkKind) -> Result<String, NoMemory>
    ensures { IfOk result (λ name. string_bytes name ≡ kind_name lane kind) }
{
    let name = match kind {
        MarkKind::Dispatch {
            handler,
            subject,
            ..
        } => match subject {
            Subject::What(what) => format!(in alloc; "handler {handler} what {what}")?,
            Subject::Callback(callback) => format!(in alloc;
                "handler {handler} callback {callback}"
            )?,
        },
        MarkKind::Frame => String::from_str(alloc, "frame")?,
        MarkKind::Run(run) => {
            let phase = run.phase;
            let id = run.id;
            format!(in alloc; "phase {phase} callback {id}")?
        }
        MarkKind::Paint { gauge, .. } => format!(in alloc; "looper {lane} gauge {gauge}")?,
    };
    Ok(name)
}

/// The name of a mark's event, its looper's thread, and its time.
#[tactic(auto, unfolding(crate::specs::Events::moment_members))]
fn moment_members(alloc: Global, mark: &Mark) -> Result<Map<String, Value>, NoMemory>
    ensures { IfOk result (λ members. members_view members.entries ≡ moment_members mark.now) }
{
    let mut members = Map::new(alloc);
    put_text(
        alloc,
        &mut members,
        "name",
        name_of(alloc, mark.lane, mark.kind)?,
    )?;
    put_number(alloc, &mut members, "pid", 1)?;
    put_number(alloc, &mut members, "tid", mark.lane)?;
    put_number(alloc, &mut members, "ts", micros(mark.time))?;
    Ok(members)
}

/// Makes the event a slice that lasts so many microseconds.
pub fn put_slice(
    alloc: Global,
    members: &mut Map<String, Value>,
    lasts: u64,
) -> Result<(), NoMemory>
    ensures { OnOk result (members_view members.new.entries ≡ slice lasts (members_view members.old.entries)) }
{
    put_phase(alloc, members, "X")?;
    put_number(alloc, members, "dur", lasts)
}

/// What an event tells beside, by what the mark shows.
#[tactic(auto, unfolding(crate::specs::Events::kind_members))]
fn put_kind(
    alloc: Global,
    members: &mut Map<String, Value>,
    kind: MarkKind,
    period: u64,
) -> Result<(), NoMemory>
    ensures { OnOk result (members_view members.new.entries ≡ kind_members period kind (members_view members.old.entries)) }
{
    match kind {
        MarkKind::Dispatch { number, .. } => {
            put_slice(alloc, members, SHORTEST)?;
            put_counted(alloc, members, "number", number)
        }
        MarkKind::Frame => put_slice(alloc, members, period),
        MarkKind::Run(_) => put_slice(alloc, members, SHORTEST),
        MarkKind::Paint { value, .. } => {
            put_phase(alloc, members, "C")?;
            put_counted(alloc, members, "value", u64::from(value))
        }
    }
}

/// The event of a mark: a slice in its looper's thread, or a counter. A frame lasts a period, in microseconds.
#[tactic(auto, unfolding(crate::specs::Events::event))]
fn event(alloc: Global, mark: &Mark, period: u64) -> Result<Value, NoMemory>
    ensures { IfOk result (λ value. view value ≡ event period mark.now) }
{
    let mut members = moment_members(alloc, mark)?;
    put_kind(alloc, &mut members, mark.kind, period)?;
    Ok(Value::Object(members))
}

/// The events of marks, in order.
fn push_events(
    alloc: Global,
    out: &mut Vec<Value>,
    marks: &[Mark],
    period: u64,
) -> Result<(), NoMemory>
    ensures { OnOk result (map view out.new.items ≡ map view out.old.items ++ map (event period) marks.now) }
{
    for mark in marks {
        let value = event(alloc, mark, period)?;
        out.push(value)?;
    }
    Ok(())
}

/// The event that names something of process 1: `what` is `process_name` or `thread_name`.
#[tactic(auto, unfolding(crate::specs::Events::naming))]
pub fn naming(alloc: Global, what: &str, name: String) -> Result<Map<String, Value>, NoMemory>
    ensures { IfOk result (λ members. members_view members.entries ≡ naming what.now (string_bytes name)) }
{
    let mut members = Map::new(alloc);
    put_text(alloc, &mut members, "name", String::from_str(alloc, what)?)?;
    put_number(alloc, &mut members, "pid", 1)?;
    put_phase(alloc, &mut members, "M")?;
    let mut args = Map::new(alloc);
    put_text(alloc, &mut args, "name", name)?;
    put_argument(alloc, &mut members, args)?;
    Ok(members)
}

/// The name of the process.
#[tactic(auto, unfolding(crate::specs::Events::process))]
fn process(alloc: Global) -> Result<Value, NoMemory>
    ensures { IfOk result (λ value. view value ≡ process) }
{
    let members = naming(alloc, "process_name", String::from_str(alloc, "dashboard")?)?;
    Ok(Value::Object(members))
}

/// The name of a looper's thread.
#[tactic(auto, unfolding(crate::specs::Events::thread))]
fn thread(alloc: Global, lane: u64) -> Result<Value, NoMemory>
    ensures { IfOk result (λ value. view value ≡ thread lane) }
{
    let name = format!(in alloc; "looper {lane}")?;
    let mut members = naming(alloc, "thread_name", name)?;
    put_number(alloc, &mut members, "tid", lane)?;
    Ok(Value::Object(members))
}

/// The names of the loopers' threads.
fn push_threads(alloc: Global, out: &mut Vec<Value>, loopers: &[Looper]) -> Result<(), NoMemory>
    ensures { OnOk result (map view out.new.items ≡ map view out.old.items ++ threads_from 0 loopers.now) }
{
    let mut lane = 0;
    for looper in loopers {
        let value = thread(alloc, lane)?;
        out.push(value)?;
        lane += 1;
    }
    Ok(())
}

/// The names and events where a frame lasts so many microseconds.
fn trace(alloc: Global, report: &Report, period: u64) -> Result<Vec<Value>, NoMemory>
    ensures { IfOk result (λ found. map view found.items ≡ trace period report.now) }
{
    let marks = marks(alloc, report)?;
    let mut out = Vec::new(alloc);
    let first = process(alloc)?;
    out.push(first)?;
    push_threads(alloc, &mut out, report.loopers.as_slice())?;
    push_events(alloc, &mut out, &marks, period)?;
    Ok(out)
}

/// The report as trace events in JSON: the loopers' names, and one event for each mark, in order. `NoMemory` where there was
/// none.
pub fn perfetto_text(alloc: Global, report: &Report) -> Result<Vec<u8>, NoMemory>
    ensures { IfOk result (λ text. Traces report.now text.items) }
{
    let events = trace(alloc, report, period_of(report) / 1000)?;
    let text = Value::Array(events).to_string(alloc)?;
    let mut out = Vec::new(alloc);
    out.extend_from_slice(text.as_bytes())?;
    out.extend_from_slice(b"\n")?;
    Ok(out)
}
