//! What is said of a trace: whether it is one, and whether its histories are ones that queues could have.
ghost use Rattle.std.specs.Prelude.{◌≡◌, IfOk};
ghost use Rattle.text_help.specs.Histories.{IsFound, IsSaidOfTrace};

use crate::lines::{lines_of, word_at, write_line};
use crate::said::SaidOfTrace;
use crate::traces::bad_text;
use loop_model::{NoMemory, Reply};
use std::alloc::Global;
use std::fmt::Write;
use trace_check::{Explained, Fault, ParsedTrace, Trace, TraceQueue, explain, parse_trace};

/// What is found of the histories of a trace.
#[derive(Clone, Copy)]
enum Found {
    Legal,
    Illegal {
        queue: u64,
        place: u64,
        fault: Fault,
    },
}

/// What is said of a text that is to be a trace: `Good` of a trace whose histories are ones that queues could have, `Illegal` of a
/// trace with one that no queue could have, by the first bad entry of the first such, and `Bad` of a text that is no trace, by its
/// least bad line, with which the text begins. `NoMemory` where there was none.
pub fn explain_trace(alloc: Global, bytes: &[u8]) -> SaidOfTrace
    ensures { IsSaidOfTrace result bytes.now }
{
    match parse_trace(alloc, bytes) {
        ParsedTrace::Ok(trace) => match explain_queues(alloc, trace.queues.as_slice()) {
            Ok(Found::Legal) => match good_text(alloc, &trace) {
                Ok(text) => SaidOfTrace::Good { text },
                Err(NoMemory) => SaidOfTrace::NoMemory,
            },
            Ok(
                Found::Illegal {
                    queue,
                    place,
                    fault,
                },
            ) => {
                match illegal_text(alloc, bytes, trace.queues.as_slice(), queue, place, fault) {
                    Ok(text) => SaidOfTrace::Illegal {
                        queue,
                        place,
                        fault,
                        text,
                    },
                    Err(NoMemory) => SaidOfTrace::NoMemory,
                }
            }
            Err(NoMemory) => SaidOfTrace::NoMemory,
        },
        ParsedTrace::Bad { line } => match bad_text(alloc, bytes, line) {
            Ok(text) => SaidOfTrace::Bad { line, text },
            Err(NoMemory) => SaidOfTrace::NoMemory,
        },
        ParsedTrace::NoMemory => SaidOfTrace::NoMemory,
    }
}

/// The first queue whose history no queue could have, with its first bad entry.
fn explain_queues(alloc: Global, queues: &[TraceQueue]) -> Result<Found, NoMemory>
    ensures { IfOk result (IsFound queues.now) }
{
    for (number, queue) in queues.iter().enumerate() {
        match explain(alloc, queue) {
            Explained::Legal => {}
            Explained::First { place, fault } => {
                return Ok(Found::Illegal {
                    queue: number as u64,
                    place,
                    fault,
                });
            }
            Explained::NoMemory => return Err(NoMemory),
        }
    }
    Ok(Found::Legal)
}

fn good_text(alloc: Global, trace: &Trace) -> Result<String, NoMemory> {
    let mut entries: u64 = 0;
    for queue in trace.queues.as_slice() {
        entries = entries.saturating_add(queue.entries.len() as u64);
    }
    let mut out = String::new(alloc);
    writeln!(
        out,
        "good trace: queues {}, entries {entries}, all legal",
        trace.queues.len()
    )?;
    Ok(out)
}

/// The line on which an entry of a queue stands, counted from 1: behind the title, the lines of the queues before it, and its own.
fn line_of(queues: &[TraceQueue], queue: u64, place: u64) -> u64 {
    let mut line: u64 = 2;
    for (number, before) in queues.iter().enumerate() {
        if (number as u64) < queue {
            line = line
                .saturating_add(before.entries.len() as u64)
                .saturating_add(1);
        }
    }
    line.saturating_add(place).saturating_add(1)
}

fn illegal_text(
    alloc: Global,
    bytes: &[u8],
    queues: &[TraceQueue],
    queue: u64,
    place: u64,
    fault: Fault,
) -> Result<String, NoMemory> {
    let mut out = String::new(alloc);
    let line = line_of(queues, queue, place);
    let (looper, senders) = match queues.get(queue as usize) {
        None => (0, 0),
        Some(found) => (found.looper, found.senders),
    };
    writeln!(out, "illegal queue {looper} entry {place}, line {line}")?;
    let lines = lines_of(alloc, bytes)?;
    let (entry, _) = lines.at(line);
    let entry = entry.unwrap_or(&[]);
    write_line(&mut out, entry)?;
    write_fault_of(&mut out, fault, entry, senders)?;
    Ok(out)
}

/// Writes why a call has no reply where it stands, by the word for the call.
fn write_no_reply(out: &mut String, entry: &[u8]) -> Result<(), NoMemory> {
    let (word, _) = word_at(entry, 2);
    let call = word.unwrap_or(&[]);
    let why = if call == b"next".as_slice() {
        "a look has no reply here: no message is due, or the queue is over; a look that finds nothing has no line\n"
    } else if call == b"advance".as_slice() {
        "the time does not move here: the queue is free, a message is due, NOW is not later, or the queue is over\n"
    } else {
        "the queue does not halt here: it is a side looper's, a message is due, or it is over\n"
    };
    out.push_str(why)?;
    Ok(())
}

fn write_fault_of(
    out: &mut String,
    fault: Fault,
    entry: &[u8],
    senders: u32,
) -> Result<(), NoMemory> {
    match fault {
        Fault::Reply { wanted: None } => write_no_reply(out, entry)?,
        Fault::Reply {
            wanted: Some(reply),
        } => {
            out.push_str("the reply of a queue to this call here is: ")?;
            write_reply(out, reply)?;
            out.push('\n')?;
        }
        Fault::Moment { time } => {
            writeln!(
                out,
                "the time here is {time}: NOW is that time in lockstep, and not before it in free mode"
            )?;
        }
        Fault::Sender => writeln!(
            out,
            "there is no such sender: the SENDERS of the queue's line is {senders}, and they are numbered from 0"
        )?,
        Fault::Number { wanted } => {
            writeln!(out, "the next entry of this sender has the SEQ {wanted}")?;
        }
        Fault::Control => out.push_str(
            "the last sender alone, the controller, moves the time or halts\n",
        )?,
    }
    Ok(())
}

fn write_reply(out: &mut String, reply: Reply) -> Result<(), NoMemory> {
    let (word, number) = match reply {
        Reply::Accepted { number } => ("accepted", Some(number)),
        Reply::Refused { place } => ("refused", Some(place)),
        Reply::Token { token } => ("token", Some(token)),
        Reply::Unbarriered => ("unbarriered", None),
        Reply::NotPosted => ("not-posted", None),
        Reply::Removed { count } => ("removed", Some(count)),
        Reply::QuitDone => ("quit-done", None),
        Reply::AlreadyQuit { place } => ("already-quit", Some(place)),
        Reply::NotAllowed => ("not-allowed", None),
        Reply::Dispatched { number } => ("dispatched", Some(number)),
        Reply::Disposed => ("disposed", None),
        Reply::Advanced => ("advanced", None),
        Reply::Halted => ("halted", None),
    };
    out.push_str(word)?;
    if let Some(number) = number {
        write!(out, " {number}")?;
    }
    Ok(())
}
