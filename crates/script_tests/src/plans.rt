//! Plans of values by hand.

use dash_script::Cause;
use frame_phases::{Callback, FrameEntry};
use std::alloc::Global;
use std::process::Abort;
use value_animator::{ParsedValues, ValuesRan, parse_values, run_values};

const BOTH: &[u8] =
    b"animate 1\nperiod 16666667\nanimator 0 50 1 reverse\nkey 0 0\nkey 1000 100\ncountdown 100 40\nend\n";

const TOLD: &[u8] =
    b"values 1\n16666667 0 value 0\n16666667 1 tick 100\n33333334 0 value 32\n50000001 0 value 66\n66666668 0 value 100\n66666668 1 tick 50\n83333335 0 value 68\n100000002 0 value 34\n100000002 1 tick 17\n116666669 0 end 0\n116666669 1 finished\nend\n";

/// Texts with their bad line and its cause.
const BAD: [(&[u8], u64, Cause); 22] = [
    (b"", 1, Cause::Missing),
    (b"animate 2\n", 1, Cause::Form),
    (b"animate 1\nperiod 1000000\n", 3, Cause::Missing),
    (b"animate 1\nperiod 999999\nend\n", 2, Cause::Range),
    (b"animate 1\nperiod 1000000001\nend\n", 2, Cause::Range),
    (
        b"animate 1\nperiod 1000000\ncountdown 60001 10\nend\n",
        3,
        Cause::Range,
    ),
    (
        b"animate 1\nperiod 1000000\ncountdown 60000 0\nend\n",
        3,
        Cause::Range,
    ),
    (
        b"animate 1\nperiod 1000000\nanimator 1 30000 1 restart\n",
        3,
        Cause::Range,
    ),
    // 2^32 times 2^32 is 2^64, which is 0 in 64 bits.
    (
        b"animate 1\nperiod 1000000\nanimator 0 4294967296 4294967295 restart\n",
        3,
        Cause::Range,
    ),
    (
        b"animate 1\nperiod 1000000\nanimator 18446744073709551615 1 0 restart\n",
        3,
        Cause::Range,
    ),
    (
        b"animate 1\nperiod 1000000\nanimator 18446744073709551616 1 0 restart\n",
        3,
        Cause::Form,
    ),
    (
        b"animate 1\nperiod 1000000\nanimator 0 1 0 restart\nend\n",
        4,
        Cause::Form,
    ),
    (
        b"animate 1\nperiod 1000000\nanimator 0 1 0 restart\nkey 1 0\n",
        4,
        Cause::Order,
    ),
    (
        b"animate 1\nperiod 1000000\nanimator 0 1 0 restart\nkey 0 0\nkey 0 1\n",
        5,
        Cause::Order,
    ),
    (
        b"animate 1\nperiod 1000000\nanimator 0 1 0 restart\nkey 0 0\nkey 1001 1\n",
        5,
        Cause::Range,
    ),
    (
        b"animate 1\nperiod 1000000\nanimator 0 1 0 restart\nkey 0 0\nkey 1000 1000001\n",
        5,
        Cause::Range,
    ),
    (
        b"animate 1\nperiod 1000000\nanimator 0 1 0 restart\nkey 0 0\nkey 1 0\nkey 2 0\nkey 3 0\nkey 4 0\nkey 5 0\nkey 6 0\nkey 7 0\nkey 8 0\nkey 9 0\nkey 10 0\nkey 11 0\nkey 12 0\nkey 13 0\nkey 14 0\nkey 15 0\n",
        19,
        Cause::TooMany,
    ),
    (
        b"animate 1\nperiod 1000000\ncountdown 0 1\ncountdown 0 1\ncountdown 0 1\ncountdown 0 1\ncountdown 0 1\ncountdown 0 1\ncountdown 0 1\ncountdown 0 1\ncountdown 0 1\ncountdown 0 1\ncountdown 0 1\ncountdown 0 1\ncountdown 0 1\ncountdown 0 1\ncountdown 0 1\ncountdown 0 1\ncountdown 0 1\n",
        19,
        Cause::TooMany,
    ),
    (b"animate 1\nperiod 1000000\nkey 0 0\n", 3, Cause::Form),
    (b"animate 1\nperiod 1000000\nend", 3, Cause::Form),
    (b"animate 1\nperiod 1000000\nend\nend\n", 4, Cause::Form),
    (b"animate 1\nperiod 01000000\nend\n", 2, Cause::Form),
];

/// The first entry of each run with a frame.
const FIRST: FrameEntry = FrameEntry::Posted(Callback {
    number: 0,
    phase: 1,
    due: 0,
    id: 0,
    token: None,
});

/// Texts with what is written of them, how many entries their frames make, and the time of the last one, which is of the commit phase.
const RUN: [(&[u8], &[u8], usize, Option<u64>); 3] = [
    (BOTH, TOLD, 49, Some(116_666_669)),
    (
        b"animate 1\nperiod 1000000\ncountdown 0 10\nend\n",
        b"values 1\n1000000 0 finished\nend\n",
        7,
        Some(1_000_000),
    ),
    (
        b"animate 1\nperiod 1000000\nend\n",
        b"values 1\nend\n",
        0,
        None,
    ),
];

/// Whether the entries are so many, of which the first is that of each run, and the last of this time.
fn are_of(entries: &[FrameEntry], count: usize, time: Option<u64>) -> bool {
    let ends = match (entries, time) {
        ([first, .., last], Some(time)) => {
            let commit = FrameEntry::Take {
                phase: 3,
                now: time,
                time,
            };
            *first == FIRST && *last == commit
        }
        (_, Some(_)) => false,
        (_, None) => true,
    };
    ends && entries.len() == count
}

fn assert_runs(
    rt: &impl Abort,
    alloc: Global,
    text: &[u8],
    told: &[u8],
    count: usize,
    time: Option<u64>,
) {
    let ParsedValues::Ok(values) = parse_values(alloc, text) else {
        panic!(rt; "not read")
    };
    let ValuesRan::Ok { text, frames } = run_values(alloc, &values) else {
        panic!(rt; "no memory")
    };
    assert!(rt; text.as_slice() == told && are_of(frames.entries.as_slice(), count, time));
}

#[test]
fn plans_run_to_their_ends_or_are_refused_at_their_line(rt: HostRuntime) {
    for (text, told, count, time) in RUN {
        assert_runs(&rt, rt.alloc(), text, told, count, time);
    }
    for (text, wanted, why) in BAD {
        let ParsedValues::Bad { line, cause } = parse_values(rt.alloc(), text) else {
            panic!(rt; "not refused")
        };
        assert!(rt; line == wanted && cause == why, "at line {wanted}");
    }
}
