//! Animators by hand.

use animator::{Animator, Key, Keys, Plan, Valued};
use std::process::Abort;

/// A plan's delay, duration and repeats, whether it turns, and the places of its keys with their values; then frame times with what
/// the animator answers at them.
#[derive(Drop)]
struct Row {
    delay: u64,
    duration: u64,
    repeats: u32,
    reverse: bool,
    keys: &'static [(u32, u32)],
    frames: &'static [(u64, Valued)],
}

const ROWS: [Row; 8] = [
    // At keys, between them, and at the last one.
    Row {
        delay: 0,
        duration: 1_000,
        repeats: 0,
        reverse: false,
        keys: &[(0, 10), (500, 0), (1_000, 7)],
        frames: &[
            (0, Valued::Value { value: 10 }),
            (499_000_000, Valued::Value { value: 1 }),
            (500_000_000, Valued::Value { value: 0 }),
            (999_000_000, Valued::Value { value: 6 }),
            (1_000_000_000, Valued::End { value: 7 }),
            (1_000_000_000, Valued::Over),
        ],
    },
    // At the turns of a reversed repeat, and an end behind a way that goes forwards.
    Row {
        delay: 0,
        duration: 50,
        repeats: 2,
        reverse: true,
        keys: &[(0, 0), (1_000, 100)],
        frames: &[
            (0, Valued::Value { value: 0 }),
            (49_000_000, Valued::Value { value: 98 }),
            (50_000_000, Valued::Value { value: 100 }),
            (51_000_000, Valued::Value { value: 98 }),
            (99_000_000, Valued::Value { value: 2 }),
            (100_000_000, Valued::Value { value: 0 }),
            (101_000_000, Valued::Value { value: 2 }),
            (149_999_999, Valued::Value { value: 98 }),
            (150_000_000, Valued::End { value: 100 }),
        ],
    },
    // An end behind a way that goes backwards.
    Row {
        delay: 0,
        duration: 50,
        repeats: 1,
        reverse: true,
        keys: &[(0, 3), (1_000, 100)],
        frames: &[
            (0, Valued::Value { value: 3 }),
            (100_000_000, Valued::End { value: 3 }),
            (100_000_000, Valued::Over),
        ],
    },
    // At a delay, and at the start of a repeat that begins anew.
    Row {
        delay: 5,
        duration: 10,
        repeats: 1,
        reverse: false,
        keys: &[(0, 10), (1_000, 20)],
        frames: &[
            (2_000_000, Valued::Value { value: 10 }),
            (6_999_999, Valued::Value { value: 10 }),
            (7_000_000, Valued::Value { value: 10 }),
            (8_000_000, Valued::Value { value: 11 }),
            (16_000_000, Valued::Value { value: 19 }),
            (17_000_000, Valued::Value { value: 10 }),
            (26_000_000, Valued::Value { value: 19 }),
            (27_000_000, Valued::End { value: 20 }),
        ],
    },
    // Times that go back change nothing.
    Row {
        delay: 0,
        duration: 10,
        repeats: 0,
        reverse: false,
        keys: &[(0, 0), (1_000, 10)],
        frames: &[
            (7_000_000, Valued::Value { value: 0 }),
            (10_000_000, Valued::Value { value: 3 }),
            (8_000_000, Valued::Value { value: 3 }),
            (0, Valued::Value { value: 3 }),
            (16_999_999, Valued::Value { value: 9 }),
            (17_000_000, Valued::End { value: 10 }),
            (0, Valued::Over),
        ],
    },
    // The greatest time and the greatest products of the limits.
    Row {
        delay: 0,
        duration: 60_000,
        repeats: 0,
        reverse: false,
        keys: &[(0, 0), (1_000, 1_000_000)],
        frames: &[
            (18_446_744_013_709_551_615, Valued::Value { value: 0 }),
            (18_446_744_073_708_551_615, Valued::Value { value: 999_983 }),
            (18_446_744_073_709_551_614, Valued::Value { value: 999_983 }),
            (18_446_744_073_709_551_615, Valued::End { value: 1_000_000 }),
        ],
    },
    Row {
        delay: 59_999,
        duration: 1,
        repeats: 0,
        reverse: true,
        keys: &[(0, 1_000_000), (999, 1), (1_000, 0)],
        frames: &[
            (0, Valued::Value { value: 1_000_000 }),
            (59_999_000_000, Valued::Value { value: 1_000_000 }),
            (60_000_000_000, Valued::End { value: 0 }),
        ],
    },
    // Answers at the end, behind it, and at a time that goes back.
    Row {
        delay: 0,
        duration: 50,
        repeats: 1,
        reverse: true,
        keys: &[(0, 3), (1_000, 100)],
        frames: &[
            (7_000_000, Valued::Value { value: 3 }),
            (57_000_000, Valued::Value { value: 100 }),
            (106_999_999, Valued::Value { value: 4 }),
            (107_000_000, Valued::End { value: 3 }),
            (107_000_000, Valued::Over),
            (0, Valued::Over),
        ],
    },
];

/// The row's plan. None where it has more keys than there is room for.
fn plan_of(row: &Row) -> Option<Plan> {
    let mut keys = Keys::new();
    for (at, value) in row.keys {
        let key = Key {
            at: *at,
            value: *value,
        };
        if !keys.push(key) {
            return None;
        }
    }
    Some(Plan {
        delay: row.delay,
        duration: row.duration,
        repeats: row.repeats,
        reverse: row.reverse,
        keys,
    })
}

fn assert_row(rt: &impl Abort, row: &Row) {
    let plan = plan_of(row);
    assert!(rt; plan.is_some());
    let Some(plan) = plan else {
        return;
    };
    assert!(rt; plan.fits());
    let mut animator = Animator::new(plan);
    for (time, answer) in row.frames {
        assert_eq!(rt; animator.on_frame(*time), *answer);
    }
}

/// Plans that are out of their limits by one: a way too long, none, an end too late, keys that are none, one, too many, or don't rise
/// from 0 to 1000, and a value too great.
const UNFIT: [(u64, u64, u32, &[(u32, u32)]); 12] = [
    (60_001, 1, 0, &[(0, 0), (1_000, 0)]),
    (0, 60_001, 0, &[(0, 0), (1_000, 0)]),
    (0, 0, 0, &[(0, 0), (1_000, 0)]),
    (0, 1, 100, &[(0, 0), (1_000, 0)]),
    (1, 30_000, 1, &[(0, 0), (1_000, 0)]),
    (0, 1, 0, &[]),
    (0, 1, 0, &[(0, 0)]),
    (0, 1, 0, &[(1, 0), (1_000, 0)]),
    (0, 1, 0, &[(0, 0), (500, 0), (500, 0), (1_000, 0)]),
    (0, 1, 0, &[(0, 0), (1_001, 0)]),
    (0, 1, 0, &[(0, 0), (1_000, 1_000_001)]),
    (
        0,
        1,
        0,
        &[
            (0, 0),
            (1, 0),
            (2, 0),
            (3, 0),
            (4, 0),
            (5, 0),
            (6, 0),
            (7, 0),
            (8, 0),
            (9, 0),
            (10, 0),
            (11, 0),
            (12, 0),
            (13, 0),
            (14, 0),
            (15, 0),
            (1_000, 0),
        ],
    ),
];

#[test]
fn animators_tell_their_frames_and_plans_out_of_their_limits_do_not_fit(rt: HostRuntime) {
    for row in &ROWS {
        assert_row(&rt, row);
    }
    for (delay, duration, repeats, keys) in UNFIT {
        let row = Row {
            delay,
            duration,
            repeats,
            reverse: false,
            keys,
            frames: &[],
        };
        match plan_of(&row) {
            Some(plan) => assert!(rt; !plan.fits()),
            None => assert_eq!(rt; keys.len(), 17),
        }
    }
}
