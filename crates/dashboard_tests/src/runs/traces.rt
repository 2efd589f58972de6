//! Printed histories: what is read, printed again, judged and explained.
use loop_model::{Base, Call, Entry, QueueRecord, Reply, Segment, Sequence};
use std::process::Abort;
use std::test::Fail;
use trace_check::*;

const HALTED: &[u8] = b"trace 1\nqueue 0 main lockstep 3 1\n2 0 halt 0 halted\nend\n";

const ADVANCED: &[u8] = b"trace 1\nqueue 0 main lockstep 3 1\n2 0 halt 0 advanced\nend\n";

const SWAPPED: &[u8] =
    b"trace 1\nqueue 0 side free 2 4\n0 0 post 0 1 0 - - 5 s - accepted 0\n0 1 post 0 2 0 - - 5 s - accepted 1\n1 0 next 5 dispatched 1\n1 1 next 5 dispatched 0\nend\n";

/// A barrier at the head, messages that it lets pass, removals by each kind of filter, a safe quit and a disposal.
const ASKED: &[u8] =
    b"trace 1\nqueue 0 side free 3 25\n0 0 barrier 1 token 0\n0 1 post 0 1 0 - - 5 s - accepted 0\n0 2 post 0 2 0 7 - 6 a - accepted 1\n0 3 post 0 3 0 7 8 6 a - accepted 2\n0 4 post 1 3 0 - 8 7 s - accepted 3\n0 5 post 1 4 0 9 - 0 s - accepted 4\n1 0 next 6 dispatched 4\n1 1 next 6 dispatched 1\n0 6 remove 0 callback 8 7 removed 1\n0 7 remove 0 what 1 7 removed 0\n0 8 unbarrier 1 not-posted\n0 9 unbarrier 0 unbarriered\n1 2 next 6 dispatched 0\n0 10 remove 1 callback 8 - removed 1\n0 11 post 0 5 0 4 - 9 s - accepted 5\n0 12 post 0 5 0 4 - 20 s - accepted 6\n0 13 post 0 6 0 4 - 20 s - accepted 7\n0 14 remove 0 what 6 - removed 1\n0 15 quit safe 9 quit-done\n0 16 post 0 1 0 - - 9 s - refused 18\n0 17 quit plain 9 already-quit 18\n1 3 next 9 dispatched 5\n0 18 remove 0 all - removed 0\n0 19 remove 0 all 4 removed 0\n1 4 next 9 disposed\nend\n";

const NO_QUEUES: &[u8] = b"trace 1\nend\n";

const EVERY: &[u8] =
    b"trace 1\nqueue 4294967295 side lockstep 4294967295 18\n4294967295 18446744073709551615 post 1 2 3 4 5 6 a 7 accepted 8\n0 0 post 0 0 0 - - 0 s - refused 1\n0 1 barrier 18446744073709551615 token 0\n0 2 unbarrier 3 unbarriered\n0 3 unbarrier 3 not-posted\n0 4 remove 0 what 1 - removed 2\n0 5 remove 1 callback 2 3 removed 4\n0 6 remove 1 all 18446744073709551615 removed 0\n0 7 quit plain 5 quit-done\n0 8 quit safe 6 already-quit 7\n0 9 quit safe 6 not-allowed\n0 10 next 0 dispatched 0\n0 11 next 1 disposed\n0 12 advance 2 advanced\n0 13 halt 3 halted\n0 14 halt 3 accepted 9\n0 15 next 3 token 1\n0 16 quit plain 3 removed 0\nqueue 0 main free 0 0\nend\n";

/// Texts that are no trace, with their least bad lines.
const BAD: [(&[u8], u64); 30] = [
    (b"", 1),
    (b"\n", 1),
    (b"trace 1", 1),
    (b"trace 2\nend\n", 1),
    (b"trace 01\nend\n", 1),
    (b"trace  1\nend\n", 1),
    (b"trace 1 \nend\n", 1),
    (b" trace 1\nend\n", 1),
    (b"trace 1\r\nend\n", 1),
    (b"trace 1\n", 2),
    (b"trace 1\nend", 2),
    (b"trace 1\nend\n\n", 3),
    (b"trace 1\nend\nend\n", 3),
    (b"trace 1\nend\nx", 3),
    (b"trace 1\ntrace 1\nend\n", 2),
    (b"trace 1\n0 0 halt 0 halted\nend\n", 2),
    (b"trace 1\nqueue 0 main lockstep 3\nend\n", 2),
    (b"trace 1\nqueue 4294967296 main lockstep 3 0\nend\n", 2),
    (b"trace 1\nqueue 0 main lockstep 4294967296 0\nend\n", 2),
    (b"trace 1\nqueue 0 main locked 3 0\nend\n", 2),
    (
        b"trace 1\nqueue 0 main free 3 18446744073709551616\nend\n",
        2,
    ),
    (
        b"trace 1\nqueue 0 main free 3 18446744073709551615\nend\n",
        3,
    ),
    (b"trace 1\nqueue 0 main free 3 1\nend\n", 3),
    (
        b"trace 1\nqueue 0 main free 3 1\n0 0 halt 0 halted\n0 1 halt 0 halted\nend\n",
        4,
    ),
    (b"trace 1\nqueue 0 main free 3 1\n0 0 halt 0\nend\n", 3),
    (
        b"trace 1\nqueue 0 main free 3 1\n0 0 halt 0 halted 1\nend\n",
        3,
    ),
    (
        b"trace 1\nqueue 0 main free 3 1\n0 0 halt - halted\nend\n",
        3,
    ),
    (
        b"trace 1\nqueue 0 main free 3 1\n0 0 remove 0 what - - removed 0\nend\n",
        3,
    ),
    (
        b"trace 1\nqueue 0 main free 3 1\n0 0 post 0 1 0 - - 5 b - accepted 0\nend\n",
        3,
    ),
    (
        b"trace 1\nqueue 0 side free 2 4\n0 0 post 0 1 0 - - 5 s - accepted 0\n0 1 post 0 2 0 - - 5 s - accepted 1\n1 0 next 5 dispatched 1\n1 1 next 5 dispatched 0\n",
        7,
    ),
];

/// Queues with one bad entry, its place, and what is wrong with it.
const FAULTS: [(&[u8], u64, Fault); 8] = [
    (
        b"trace 1\nqueue 0 side free 2 3\n0 0 post 0 1 0 - - 5 s - accepted 0\n0 1 post 0 2 0 - - 5 s - accepted 1\n1 0 next 5 dispatched 1\nend\n",
        2,
        Fault::Reply {
            wanted: Some(Reply::Dispatched { number: 0 }),
        },
    ),
    (
        b"trace 1\nqueue 0 side free 2 2\n0 0 post 0 1 0 - - 5 s - accepted 0\n1 0 next 4 dispatched 0\nend\n",
        1,
        Fault::Reply { wanted: None },
    ),
    (
        b"trace 1\nqueue 0 side free 2 2\n0 0 barrier 9 token 0\n0 1 barrier 8 token 1\nend\n",
        1,
        Fault::Moment { time: 9 },
    ),
    (
        b"trace 1\nqueue 0 main lockstep 3 1\n2 0 halt 1 halted\nend\n",
        0,
        Fault::Moment { time: 0 },
    ),
    (
        b"trace 1\nqueue 0 side free 2 1\n2 0 barrier 1 token 0\nend\n",
        0,
        Fault::Sender,
    ),
    (
        b"trace 1\nqueue 0 side free 2 2\n0 0 barrier 1 token 0\n0 2 barrier 1 token 1\nend\n",
        1,
        Fault::Number { wanted: 1 },
    ),
    (
        b"trace 1\nqueue 0 side lockstep 2 1\n0 0 advance 1 advanced\nend\n",
        0,
        Fault::Control,
    ),
    (
        b"trace 1\nqueue 0 main free 2 1\n0 0 quit safe 1 quit-done\nend\n",
        0,
        Fault::Reply {
            wanted: Some(Reply::NotAllowed),
        },
    ),
];

/// The trace of a text.
fn trace<R: AllocGlobal>(rt: &R, text: &[u8]) -> Result<Trace, Fail> {
    match parse_trace(rt.alloc(), text) {
        ParsedTrace::Ok(trace) => Ok(trace),
        ParsedTrace::Bad { .. } => Err(Fail::from("no trace")),
        ParsedTrace::NoMemory => Err(Fail::from("no memory")),
    }
}

/// The line of a text that is no trace, else 0.
fn bad<R: AllocGlobal>(rt: &R, text: &[u8]) -> u64 {
    match parse_trace(rt.alloc(), text) {
        ParsedTrace::Bad { line } => line,
        ParsedTrace::Ok(_) => 0,
        ParsedTrace::NoMemory => 0,
    }
}

/// What a check answers of the first queue of a trace.
fn first_checked<R: AllocGlobal>(rt: &R, text: &[u8]) -> Result<Checked, Fail> {
    let trace = trace(rt, text)?;
    match trace.queues.as_slice().first() {
        Some(queue) => Ok(check(rt.alloc(), queue)),
        None => Err(Fail::from("no queue")),
    }
}

/// What an explanation answers of the first queue of a trace.
fn first_explained<R: AllocGlobal>(rt: &R, text: &[u8]) -> Result<Explained, Fail> {
    let trace = trace(rt, text)?;
    match trace.queues.as_slice().first() {
        Some(queue) => Ok(explain(rt.alloc(), queue)),
        None => Err(Fail::from("no queue")),
    }
}

#[test]
fn what_is_asked_for_is_found(rt: HostRuntime) -> Result<(), Fail> {
    assert_eq!(rt; first_checked(&rt, ASKED)?, Checked::Legal);
    assert_eq!(rt; first_explained(&rt, ASKED)?, Explained::Legal);
    Ok(())
}

#[test]
fn the_first_fault_is_told(rt: HostRuntime) -> Result<(), Fail> {
    for (text, place, fault) in FAULTS {
        assert_eq!(rt;
            first_explained(&rt, text)?,
            Explained::First { place, fault }
        );
    }
    Ok(())
}

#[test]
fn the_same_bytes(rt: HostRuntime) -> Result<(), Fail> {
    for text in [HALTED, ADVANCED, SWAPPED, ASKED, NO_QUEUES, EVERY] {
        let trace = trace(&rt, text)?;
        let printed = print_trace(rt.alloc(), &trace).ok().ok_or("no memory")?;
        assert_eq!(rt; printed.as_slice(), text);
    }
    Ok(())
}

#[test]
fn the_least_bad_line(rt: HostRuntime) -> Result<(), Fail> {
    for (text, line) in BAD {
        assert_eq!(rt; bad(&rt, text), line);
    }
    Ok(())
}

#[test]
fn a_halt_is_legal(rt: HostRuntime) -> Result<(), Fail> {
    assert_eq!(rt; first_checked(&rt, HALTED)?, Checked::Legal);
    assert_eq!(rt; first_checked(&rt, ADVANCED)?, Checked::First { place: 0 });
    Ok(())
}

#[test]
fn the_first_bad_entry(rt: HostRuntime) -> Result<(), Fail> {
    assert_eq!(rt; first_checked(&rt, SWAPPED)?, Checked::First { place: 2 });
    Ok(())
}

#[test]
fn a_record_is_printed_as_it_stands(rt: HostRuntime) -> Result<(), Fail> {
    let mut entries = Sequence::new(rt.alloc());
    let entry = Entry {
        sender: 2,
        seq: 0,
        call: Call::Halt { now: 0 },
        reply: Reply::Halted,
    };
    entries.push(entry).ok().ok_or("no memory")?;
    let base = Base::empty(rt.alloc(), 3).ok().ok_or("no memory")?;
    let mut segments = Sequence::new(rt.alloc());
    let part = Segment { base, entries };
    segments.push(part).ok().ok_or("no memory")?;
    let record = QueueRecord {
        looper: 0,
        main: true,
        lockstep: true,
        senders: 3,
        segments,
    };
    let printed = print_records(rt.alloc(), &[record])
        .ok()
        .ok_or("no memory")?;
    assert_eq!(rt; printed.as_slice(), HALTED);
    Ok(())
}
