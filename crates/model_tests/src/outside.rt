//! Sources, sinks, clocks and gates, in memory and over the system's.

use loop_io::{
    Clock, Failed, Gate, MeetGate, MemSink, MemSource, OpenGate, Sink, Source, StdClock, StdSink,
    StdSource, StepClock, SureSink, SureSource,
};
use std::io::Cursor;
use std::test::Fail;
use std::thread;

/// Reads to the end, and answers how many calls that took.
fn drain<S: Source>(source: &mut S, into: &mut Vec<u8>) -> Result<u64, Failed> {
    for calls in 0..u64::MAX {
        let mut buf = [0u8; 5];
        let count = source.read(&mut buf)?;
        if count == 0 {
            return Ok(calls);
        }
        if into.extend_from_slice(&buf[..count]).is_err() {
            return Err(Failed);
        }
    }
    Err(Failed)
}

#[test]
fn a_source_gives_its_bytes_in_pieces_and_fails_where_it_is_told(
    rt: HostRuntime,
) -> Result<(), Fail> {
    let alloc = rt.alloc();
    for (most, calls) in [(1, 8), (3, 3), (5, 2), (9, 2)] {
        let mut got = Vec::new(alloc);
        let mut source = MemSource::new(b"0 post 7".to_vec(alloc)?, most, Vec::new(alloc));
        assert_eq!(rt; drain(&mut source, &mut got), Ok(calls));
        assert_eq!(rt; got.as_slice(), b"0 post 7".as_slice());
        let mut got = Vec::new(alloc);
        let mut source = SureSource::new(b"0 post 7".to_vec(alloc)?, most);
        assert_eq!(rt; drain(&mut source, &mut got), Ok(calls));
        assert_eq!(rt; got.as_slice(), b"0 post 7".as_slice());
    }
    let mut got = Vec::new(alloc);
    let fails = vec![in alloc; 1, 3]?;
    let mut source = MemSource::new(b"at 10".to_vec(alloc)?, 2, fails);
    assert_eq!(rt; drain(&mut source, &mut got), Err(Failed));
    assert_eq!(rt; got.as_slice(), b"at".as_slice());
    assert_eq!(rt; drain(&mut source, &mut got), Err(Failed));
    assert_eq!(rt; drain(&mut source, &mut got), Ok(1));
    assert_eq!(rt; got.as_slice(), b"at 10".as_slice());
    let mut got = Vec::new(alloc);
    let mut source = StdSource::new(Cursor::new(b"end\n".as_slice()));
    assert_eq!(rt; drain(&mut source, &mut got), Ok(1), "over the system's");
    assert_eq!(rt; got.as_slice(), b"end\n".as_slice());
    Ok(())
}

#[test]
fn a_sink_holds_what_it_took(rt: HostRuntime) -> Result<(), Fail> {
    let alloc = rt.alloc();
    let mut sink = MemSink::new(alloc, 7, 4, vec![in alloc; 1]?).expect(&rt, "memory");
    assert_eq!(rt; sink.write(b"report 1"), Ok(4));
    assert_eq!(rt; sink.write(b"rt 1"), Err(Failed));
    assert_eq!(rt; sink.write(b""), Ok(0));
    assert_eq!(rt; sink.write(b"rt 1"), Ok(3));
    assert_eq!(rt; sink.write(b"1"), Err(Failed));
    assert_eq!(rt; sink.bytes(), b"report ".as_slice());
    assert_eq!(rt; SureSink::new(16).write(b"end"), Ok(3));
    assert_eq!(rt; SureSink::new(2).write(b"end"), Ok(2));
    assert_eq!(rt; StdSink::new(Vec::new(alloc)).write(b"end\n"), Ok(4));
    let mut room = [0u8; 2];
    let mut sink = StdSink::new(Cursor::new(room.as_mut_slice()));
    assert_eq!(rt; sink.write(b"end"), Ok(2));
    assert_eq!(rt; sink.write(b"d"), Err(Failed));
    assert_eq!(rt; sink.write(b""), Ok(0));
    Ok(())
}

#[test]
fn a_step_clock_moves_at_each_reading(rt: HostRuntime) {
    let clock = StepClock::new(5);
    assert_eq!(rt;
        (
            clock.uptime_millis(),
            clock.uptime_millis(),
            clock.uptime_millis()
        ),
        (0, 5, 10)
    );
    let clock = StepClock::new(u64::MAX - 1);
    assert_eq!(rt;
        (clock.uptime_millis(), clock.uptime_millis()),
        (0, u64::MAX - 1)
    );
    assert_eq!(rt;
        (clock.uptime_millis(), clock.uptime_millis()),
        (u64::MAX, u64::MAX)
    );
}

#[test]
fn senders_meet_at_a_gate(rt: HostRuntime) {
    let gate = MeetGate::new(0, 1, 2, 10_000_000);
    thread::join(
        &rt,
        || for index in 0..4 {
            gate.pass(0, index)
        },
        || for index in 0..4 {
            gate.pass(1, index)
        },
    );
    assert!(rt; gate.has_met() && !gate.missed());
    let alone = MeetGate::new(0, 1, 0, 100);
    alone.pass(0, 1);
    alone.pass(2, 0);
    assert!(rt; !alone.missed());
    alone.pass(1, 0);
    assert!(rt; alone.missed() && !alone.has_met());
    OpenGate.pass(0, 0);
}

#[test]
fn threads_share_clocks_and_gates(rt: HostRuntime) {
    let steps = StepClock::new(1);
    let real = StdClock::new(&rt);
    let (a, b) = thread::join(
        &rt,
        || {
            OpenGate.pass(0, 0);
            real.uptime_millis();
            steps.uptime_millis()
        },
        || {
            OpenGate.pass(1, 0);
            real.uptime_millis();
            steps.uptime_millis()
        },
    );
    assert_eq!(rt; (a.min(b), a.max(b)), (0, 1), "one of them reads first");
    let first = real.uptime_millis();
    assert!(rt; first <= real.uptime_millis());
}
