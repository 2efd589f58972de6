//! Frames by hand.

ghost use Rattle.std.specs.Prelude.{◌≡◌, ◌≤◌};

use frame_phases::{Beginning, Callback, FrameEntry, FrameState, Scheduling, Took};
use loop_model::NoMemory;
use std::process::Abort;

// What was taken: the time and the callbacks in order.
fn assert_batch(rt: &impl Abort, took: Took, time: u64, wanted: &[Callback]) {
    match took {
        Took::Batch {
            time: given,
            callbacks,
        } => {
            assert_eq!(rt; given, time);
            assert!(rt; callbacks.as_slice() == wanted);
        }
        Took::Elsewhere { .. } => panic!(rt; "elsewhere"),
        Took::NoMemory => panic!(rt; "no memory"),
    }
}

// That no phase was taken: the next one.
fn assert_elsewhere(rt: &impl Abort, took: Took, phase: Option<u32>) {
    match took {
        Took::Elsewhere { next } => assert_eq!(rt; next, phase),
        _ => panic!(rt; "taken"),
    }
}

// Takes this many phases, which have no due callback.
fn take_empty(rt: &impl Abort, frames: &mut FrameState, phases: u32, now: u64, time: u64)
    requires { phases ≤ frames.old.phases }
    ensures { frames.new.phases ≡ frames.old.phases }
{
    for phase in 0..phases {
        assert_batch(rt, frames.take(phase, now), time, &[]);
    }
}

/// The one callback of the frames that are late.
const LATE: Callback = Callback {
    number: 0,
    phase: 3,
    due: 0,
    id: 7,
    token: None,
};

/// What two frames record, of which the second has that callback.
const TWO_FRAMES: [FrameEntry; 12] = [
    FrameEntry::Begin {
        vsync: 100,
        start: 100,
        time: 100,
    },
    FrameEntry::Take {
        phase: 0,
        now: 100,
        time: 100,
    },
    FrameEntry::Take {
        phase: 1,
        now: 100,
        time: 100,
    },
    FrameEntry::Take {
        phase: 2,
        now: 100,
        time: 100,
    },
    FrameEntry::Take {
        phase: 3,
        now: 100,
        time: 100,
    },
    FrameEntry::Begin {
        vsync: 100,
        start: 135,
        time: 130,
    },
    FrameEntry::Posted(LATE),
    FrameEntry::Take {
        phase: 0,
        now: 155,
        time: 130,
    },
    FrameEntry::Take {
        phase: 1,
        now: 155,
        time: 130,
    },
    FrameEntry::Take {
        phase: 2,
        now: 155,
        time: 130,
    },
    FrameEntry::Take {
        phase: 3,
        now: 155,
        time: 140,
    },
    FrameEntry::Ran { number: 0 },
];

#[test]
fn late_frames_are_moved_up_by_whole_intervals(rt: HostRuntime) -> Result<(), NoMemory> {
    let mut frames = FrameState::new(rt.alloc(), 0, 10, 4)?;
    assert_eq!(rt; frames.begin_frame(90, 95), Beginning::Unscheduled);
    assert_eq!(rt; frames.schedule(95), Some(100));
    assert_eq!(rt; frames.schedule(95), None);
    assert_eq!(rt;
        frames.begin_frame(100, 100),
        Beginning::Began { time: 100 }
    );
    take_empty(&rt, &mut frames, 4, 100, 100);
    assert_elsewhere(&rt, frames.take(0, 100), None);

    assert_eq!(rt; frames.schedule(100), Some(110));
    assert_eq!(rt;
        frames.begin_frame(90, 95),
        Beginning::Backwards { last: 100 }
    );
    assert_eq!(rt; frames.asked(), Some(100));
    assert_eq!(rt;
        frames.begin_frame(100, 135),
        Beginning::Began { time: 130 }
    );
    assert_eq!(rt;
        frames.begin_frame(100, 135),
        Beginning::Running { next: 0 }
    );
    assert_elsewhere(&rt, frames.take(1, 135), Some(0));
    assert_eq!(rt;
        frames.post(3, 0, 7, None, 135)?,
        Scheduling::Asked { pulse: 140 }
    );
    take_empty(&rt, &mut frames, 3, 155, 130);
    assert_batch(&rt, frames.take(3, 155), 140, &[LATE]);
    let kept = frames.into_kept();
    assert!(rt; kept.looper == 0 && kept.interval == 10 && kept.phases == 4);
    assert!(rt; kept.entries.as_slice() == TWO_FRAMES.as_slice());
    Ok(())
}

/// A callback that is due at once.
const AT_ONCE: Callback = Callback {
    number: 4,
    phase: 0,
    due: 0,
    id: 9,
    token: None,
};

/// Callbacks of one phase, in the order in which they run.
const BY_DUE: [Callback; 3] = [
    Callback {
        number: 1,
        phase: 1,
        due: 1,
        id: 6,
        token: Some(3),
    },
    Callback {
        number: 0,
        phase: 1,
        due: 2,
        id: 5,
        token: None,
    },
    Callback {
        number: 2,
        phase: 1,
        due: 2,
        id: 7,
        token: None,
    },
];

#[test]
fn callbacks_run_by_due_time_then_number(rt: HostRuntime) -> Result<(), NoMemory> {
    let mut frames = FrameState::new(rt.alloc(), 0, 16_666_667, 4)?;
    assert_eq!(rt;
        frames.post(1, 2, 5, None, 1_000_000)?,
        Scheduling::Later { due: 2 }
    );
    assert_eq!(rt;
        frames.post(1, 1, 6, Some(3), 1_000_000)?,
        Scheduling::Asked { pulse: 16_666_667 }
    );
    assert_eq!(rt; frames.post(1, 2, 7, None, 2_000_000)?, Scheduling::Already);
    assert_eq!(rt;
        frames.post(1, 9, 8, Some(4), 2_000_000)?,
        Scheduling::Later { due: 9 }
    );
    assert_eq!(rt; frames.post(0, 0, 9, None, 2_000_000)?, Scheduling::Already);
    assert!(rt; frames.has_due(1, 2));
    assert!(rt; !frames.has_due(2, 2));
    assert_eq!(rt; frames.remove(1, 8, Some(3))?, 0);
    assert_eq!(rt; frames.remove(1, 8, Some(4))?, 1);
    assert_eq!(rt; frames.deliver(16_666_666), None);
    assert_eq!(rt; frames.deliver(16_666_667), Some(16_666_667));
    assert_eq!(rt; frames.deliver(16_666_667), None);
    assert_eq!(rt;
        frames.begin_frame(16_666_667, 16_666_667),
        Beginning::Began { time: 16_666_667 }
    );
    assert_batch(&rt, frames.take(0, 16_666_667), 16_666_667, &[AT_ONCE]);
    assert_batch(&rt, frames.take(1, 16_666_667), 16_666_667, &BY_DUE);
    assert!(rt; !frames.has_due(1, 100));
    Ok(())
}

/// What a frame with that callback records behind its posting.
const ONE_FRAME: [FrameEntry; 6] = [
    FrameEntry::Begin {
        vsync: 100,
        start: 100,
        time: 100,
    },
    FrameEntry::Take {
        phase: 0,
        now: 100,
        time: 100,
    },
    FrameEntry::Take {
        phase: 1,
        now: 100,
        time: 100,
    },
    FrameEntry::Take {
        phase: 2,
        now: 100,
        time: 100,
    },
    FrameEntry::Take {
        phase: 3,
        now: 100,
        time: 100,
    },
    FrameEntry::Ran { number: 0 },
];

#[test]
fn a_record_is_handed_out_in_parts(rt: HostRuntime) -> Result<(), NoMemory> {
    let mut frames = FrameState::new(rt.alloc(), 0, 10, 4)?;
    assert_eq!(rt;
        frames.post(3, 0, 7, None, 95)?,
        Scheduling::Asked { pulse: 100 }
    );
    let first = frames.seal()?;
    assert!(rt; first.as_slice() == [FrameEntry::Posted(LATE)].as_slice());
    assert_eq!(rt;
        frames.begin_frame(100, 100),
        Beginning::Began { time: 100 }
    );
    take_empty(&rt, &mut frames, 3, 100, 100);
    assert_batch(&rt, frames.take(3, 100), 100, &[LATE]);
    let second = frames.seal()?;
    assert!(rt; second.as_slice() == ONE_FRAME.as_slice());
    assert!(rt; frames.into_kept().entries.is_empty());
    Ok(())
}
