//! Countdowns by hand.

use countdown::{Countdown, Ticked};
use std::process::Abort;

/// A countdown's total and interval in milliseconds, and its frame times in nanoseconds with what it answers at them.
struct Row {
    total: u64,
    interval: u64,
    frames: &'static [(u64, Ticked)],
}

const ROWS: [Row; 7] = [
    // Ticks in some frames, and an end that is told once, whatever comes then.
    Row {
        total: 100,
        interval: 40,
        frames: &[
            (16_666_667, Ticked::Tick { left: 100 }),
            (33_333_334, Ticked::Quiet),
            (50_000_001, Ticked::Quiet),
            (66_666_668, Ticked::Tick { left: 50 }),
            (83_333_335, Ticked::Quiet),
            (100_000_002, Ticked::Tick { left: 17 }),
            (116_666_669, Ticked::Finished),
            (133_333_336, Ticked::Over),
            (0, Ticked::Over),
        ],
    },
    // Nothing to count.
    Row {
        total: 0,
        interval: 10,
        frames: &[(1_000_000, Ticked::Finished), (2_000_000, Ticked::Over)],
    },
    // Times that go back, and one that is a nanosecond short of a millisecond.
    Row {
        total: 10,
        interval: 5,
        frames: &[
            (7_000_000, Ticked::Tick { left: 10 }),
            (13_000_000, Ticked::Tick { left: 4 }),
            (9_000_000, Ticked::Quiet),
            (0, Ticked::Quiet),
            (16_999_999, Ticked::Quiet),
            (17_000_000, Ticked::Finished),
        ],
    },
    // Several intervals in one frame tick once; an interval longer than the total ticks once.
    Row {
        total: 50,
        interval: 1,
        frames: &[
            (0, Ticked::Tick { left: 50 }),
            (30_000_000, Ticked::Tick { left: 20 }),
            (90_000_000, Ticked::Finished),
        ],
    },
    Row {
        total: 50,
        interval: 60_000,
        frames: &[
            (0, Ticked::Tick { left: 50 }),
            (49_999_999, Ticked::Quiet),
            (50_000_000, Ticked::Finished),
        ],
    },
    Row {
        total: 60_000,
        interval: 60_000,
        frames: &[
            (5, Ticked::Tick { left: 60_000 }),
            (0, Ticked::Quiet),
            (59_999_999_999, Ticked::Quiet),
            (60_000_000_005, Ticked::Finished),
            (18_446_744_073_709_551_615, Ticked::Over),
        ],
    },
    // The greatest total and time: (2^64 - 1) / 1,000,000 milliseconds are 18,446,744,073,709.
    Row {
        total: 18_446_744_073_709_551_615,
        interval: 18_446_744_073_709,
        frames: &[
            (
                0,
                Ticked::Tick {
                    left: 18_446_744_073_709_551_615,
                },
            ),
            (18_446_744_073_708_999_999, Ticked::Quiet),
            (
                18_446_744_073_709_551_615,
                Ticked::Tick {
                    left: 18_446_725_626_965_477_906,
                },
            ),
            (1, Ticked::Quiet),
        ],
    },
];

fn assert_row(rt: &impl Abort, row: &Row) {
    assert!(rt; row.interval > 0);
    let mut countdown = Countdown::new(row.total, row.interval);
    for (time, answer) in row.frames {
        assert_eq!(rt; countdown.on_frame(*time), *answer);
    }
}

#[test]
fn countdowns_tell_their_frames(rt: HostRuntime) {
    for row in &ROWS {
        assert_row(&rt, row);
    }
}
