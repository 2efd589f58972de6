//! Tests of the top call, over sources and sinks in memory. What may wait is dear to prove, so one function makes the call and one test
//! runs all cases; what is wanted of each is judged by functions that don't wait.
use dashboard_cli::*;
use loop_io::{MeetGate, MemSink, MemSource, StepClock};
use std::alloc::{AllocError, Global};
use std::process::Abort;
use std::sync::Wait;
use std::test::Fail;
use std::thread::Threads;
use std::time;

mod by_clock;
mod commands;
mod faults;
mod histories;
mod races;
mod refusals;
mod reports;
mod reuse;
mod statuses;
mod traces;

/// The head of a script with one looper, one thread and one handler.
const ONE: &str = "dashboard 1\nloopers 1\nthreads 1\nhandler 0 0\nvsync 16666667\n";

/// The same with a second looper, that handler 1 stands on.
const TWO: &str = "dashboard 1\nloopers 2\nthreads 1\nhandler 0 0\nhandler 1 1\nvsync 16666667\n";

/// A report's first lines, of one looper or of a first looper to which nothing happened.
const FIRST: &str = "report 1\nlooper 0\n";

const SECOND: &str =
    "report 1\nlooper 0\nfates accepted 0 dispatched 0 removed 0 dropped 0 stranded 0 queued 0\nlooper 1\n";

/// A read or a write that is never made, and a pass at which no sender is held.
const NEVER: u64 = 1_000_000;

/// What is returned beside the status.
#[derive(Clone, Copy, Debug, PartialEq, Eq)]
enum Given {
    Nothing,
    Report,
    Frames,
    Inbox,
    /// More than one of them.
    Several,
}

/// What is wanted of a run, beside its status and what it returns.
#[derive(Clone, Copy, Debug)]
enum Wants<'a> {
    /// This text, in two parts.
    Text(&'a str, &'a str),
    /// So many bytes of this text, from its front.
    Front(&'a str, u64),
    /// A lawful text of the race in this row.
    Race(usize),
    /// The script that is made from 0.
    Made,
    /// The counts of the busy run.
    Busy,
    /// The two senders met at the gate.
    Met,
    /// Both posts were dispatched.
    Dispatched,
    /// The commit phase moved the frame's time on.
    MovedOn,
    /// The slots of the first messages were used again.
    UsedAgain,
    /// Two parts of a history.
    Parts,
}

/// A run of the program: the words, the input and the most bytes of a piece of it, the read and the write that fail, how far the clock
/// goes on from reading to reading, the gate that each sender passes before each of its commands or dispatches; and what is wanted of it.
#[derive(Drop)]
struct Case<'a> {
    line: &'a str,
    input: Vec<u8>,
    most: u8,
    read: u64,
    write: u64,
    step: u64,
    gate: MeetGate,
    status: Status,
    wants: Wants<'a>,
}

impl<'a> Case<'a> {
    /// A run in which nothing fails and nobody is held.
    fn new(line: &'a str, input: Vec<u8>, status: Status, wants: Wants<'a>) -> Case<'a> {
        Case {
            line,
            input,
            most: 7,
            read: NEVER,
            write: NEVER,
            step: 5,
            gate: MeetGate::new(0, 0, NEVER, 0),
            status,
            wants,
        }
    }
}

/// What came of a run of the program.
#[derive(Drop)]
struct Ended {
    outcome: Outcome,
    written: Vec<u8>,
}

fn words_of(alloc: Global, line: &str) -> Result<Vec<String>, AllocError> {
    line.split(' ')
        .filter(|word| !word.is_empty())
        .map(|word| String::from_str(alloc, word))
        .try_collect(alloc)
}

fn joined(alloc: Global, front: &str, rest: &str) -> Result<Vec<u8>, AllocError> {
    let mut text = front.as_bytes().to_vec(alloc)?;
    text.extend_from_slice(rest.as_bytes())?;
    Ok(text)
}

fn returned_by(outcome: &Outcome) -> Given {
    let report = outcome.report.is_some();
    let frames = outcome.frames.is_some();
    let inbox = outcome.inbox.is_some();
    match (report, frames, inbox) {
        (false, false, false) => Given::Nothing,
        (true, false, false) => Given::Report,
        (false, true, false) => Given::Frames,
        (false, false, true) => Given::Inbox,
        _ => Given::Several,
    }
}

/// What these words return where they come to the writing.
fn returned_for(line: &str) -> Given {
    match line {
        "run" | "run --free" | "trace" | "make 0 --run" => Given::Report,
        "animate" => Given::Frames,
        "inbox" => Given::Inbox,
        _ => Given::Nothing,
    }
}

/// What these words return at this status.
fn wanted(line: &str, status: Status) -> Given {
    match status {
        Status::Ok | Status::WriteFault => returned_for(line),
        _ => Given::Nothing,
    }
}

/// Makes the call. It writes in pieces of 16 bytes.
fn come_of(
    rt: &(impl Abort + Threads + Wait + time::Clock + Sync),
    alloc: Global,
    case: &Case<'_>,
) -> Result<Ended, AllocError> {
    let words = words_of(alloc, case.line)?;
    let input = case.input.as_slice().to_vec(alloc)?;
    let most = usize::from(case.most.max(1));
    let mut source = MemSource::new(input, most, vec![in alloc; case.read]?);
    let mut sink = MemSink::new(alloc, 100_000, 16, vec![in alloc; case.write]?).expect(
        rt, "memory",
    );
    let clock = StepClock::new(case.step);
    let outcome = dashboard(
        rt,
        alloc,
        words.as_slice(),
        &mut source,
        &mut sink,
        &clock,
        &case.gate,
    );
    let written = sink.bytes().to_vec(alloc)?;
    Ok(Ended { outcome, written })
}

/// Whether what was written, or returned, is as the case wants it.
fn is_wanted(alloc: Global, case: &Case<'_>, came: &Ended) -> Result<bool, AllocError> {
    let text = came.written.as_slice();
    Ok(match case.wants {
        Wants::Text(front, rest) => text == joined(alloc, front, rest)?.as_slice(),
        Wants::Front(whole, length) => faults::is_front(text, whole, length),
        Wants::Race(row) => races::is_of_race(text, row),
        Wants::Made => commands::is_made(text),
        Wants::Busy => races::is_busy(text),
        Wants::Met => case.gate.has_met() && !case.gate.missed(),
        Wants::Dispatched => by_clock::are_dispatched(text),
        Wants::MovedOn => came
            .outcome
            .report
            .as_ref()
            .is_some_and(by_clock::is_moved_on),
        Wants::UsedAgain => match &came.outcome.report {
            Some(report) => reuse::are_used_again(alloc, report)?,
            None => false,
        },
        Wants::Parts => came.outcome.report.as_ref().is_some_and(reuse::has_parts),
    })
}

/// Words, the head and the rest of an input, the status, and the head and the rest of what is written.
const TABLES: [&[(&str, &str, &str, Status, &str, &str)]; 6] = [
    &reports::OF_QUEUES,
    &reports::OF_LOOPERS,
    &refusals::OF_SCRIPTS,
    &refusals::OF_TRACES,
    &histories::JUDGED,
    &histories::WRITTEN,
];

fn add_tables<'a>(alloc: Global, cases: &mut Vec<Case<'a>>) -> Result<(), AllocError> {
    for &table in &TABLES {
        for &(line, head, body, status, front, rest) in table {
            let input = joined(alloc, head, body)?;
            cases.push(Case::new(line, input, status, Wants::Text(front, rest)))?;
        }
    }
    Ok(())
}

/// All runs.
fn all_cases<'a>(alloc: Global) -> Result<Vec<Case<'a>>, AllocError> {
    let mut cases = Vec::new(alloc);
    add_tables(alloc, &mut cases)?;
    commands::add(alloc, &mut cases)?;
    faults::add(alloc, &mut cases)?;
    races::add(alloc, &mut cases)?;
    by_clock::add(alloc, &mut cases)?;
    reuse::add(alloc, &mut cases)?;
    Ok(cases)
}

/// Compares what came of a case with what is wanted.
fn compare(
    rt: &impl Abort,
    alloc: Global,
    number: usize,
    case: &Case<'_>,
    came: &Ended,
) -> Result<(), AllocError> {
    let line = case.line;
    assert!(rt;
        came.outcome.status == case.status,
        "status of case {number}, {line}"
    );
    let given = returned_by(&came.outcome);
    assert!(rt;
        given == wanted(line, case.status),
        "case {number}, {line}, returns"
    );
    assert!(rt;
        is_wanted(alloc, case, came)?,
        "case {number}, {line}, writes"
    );
    Ok(())
}

#[test]
fn each_run_comes_to_what_is_wanted(rt: HostRuntime) -> Result<(), Fail> {
    let alloc = rt.alloc();
    let cases = all_cases(alloc)?;
    for (number, case) in cases.as_slice().iter().enumerate() {
        let came = come_of(&rt, alloc, case)?;
        compare(&rt, alloc, number, case, &came)?;
    }
    Ok(())
}
