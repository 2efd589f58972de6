//! A report with each kind of line.

use dash_report::{report_text, summary_text};
use dash_script::Script;
use frame_phases::{Callback, FrameEntry, FrameRecord};
use loop_model::{
    Act, Base, Call, Entry, Filter, Journal, Kind, NoMemory, Post, QueueRecord, Reply, Route,
    Segment, Sequence,
};
use run_model::Report;
use std::alloc::Global;

/// What a run prints in which each kind of line comes once or more.
const EACH_LINE: &str = "report 1
looper 0
not-allowed
fates accepted 1 dispatched 0 removed 0 dropped 0 stranded 0 queued 1
idle 3
event 5 1
paint 0 7
frame 33333334
run 3 8
looper 1
5 dispatch 1 1 callback 9
10 dispatch 0 1 7
not-posted 0
refused 1 5 quit 8
refused 1 callback 6 quit 8
already-quit 8
fates accepted 4 dispatched 2 removed 1 dropped 1 stranded 0 queued 0
end
";

const EACH_COUNT: &str = "summary 7
accepted 5
dispatched 2
frames 1
paints 1
";

/// A message for handler 1 without anything.
const POST: Post = Post {
    handler: 1,
    what: 0,
    arg: 0,
    obj: None,
    callback: None,
    when: 0,
    asynchronous: false,
    slot: None,
};

/// Whatever an entry of a queue has beside its call and its reply.
const ENTRY: Entry = Entry {
    sender: 0,
    seq: 0,
    call: Call::Next { now: 0 },
    reply: Reply::Disposed,
};

/// The main queue's history.
const MAIN: [Entry; 4] = [
    Entry {
        call: Call::Post(Post {
            what: 4,
            when: 20,
            ..POST
        }),
        reply: Reply::Accepted { number: 0 },
        ..ENTRY
    },
    Entry {
        call: Call::Quit {
            safe: false,
            now: 10,
        },
        reply: Reply::NotAllowed,
        ..ENTRY
    },
    Entry {
        call: Call::Barrier { now: 10 },
        reply: Reply::Token { token: 0 },
        ..ENTRY
    },
    Entry {
        call: Call::Unbarrier { token: 0 },
        reply: Reply::Unbarriered,
        ..ENTRY
    },
];

/// The history of the queue that quits.
const SIDE: [Entry; 13] = [
    Entry {
        call: Call::Post(Post {
            what: 7,
            when: 10,
            ..POST
        }),
        reply: Reply::Accepted { number: 0 },
        ..ENTRY
    },
    Entry {
        call: Call::Post(Post {
            callback: Some(9),
            when: 5,
            ..POST
        }),
        reply: Reply::Accepted { number: 1 },
        ..ENTRY
    },
    Entry {
        call: Call::Next { now: 5 },
        reply: Reply::Dispatched { number: 1 },
        ..ENTRY
    },
    Entry {
        call: Call::Next { now: 10 },
        reply: Reply::Dispatched { number: 0 },
        ..ENTRY
    },
    Entry {
        call: Call::Unbarrier { token: 0 },
        reply: Reply::NotPosted,
        ..ENTRY
    },
    Entry {
        call: Call::Post(Post {
            what: 3,
            when: 20,
            ..POST
        }),
        reply: Reply::Accepted { number: 2 },
        ..ENTRY
    },
    Entry {
        call: Call::Remove(Filter {
            handler: 1,
            kind: Kind::What(3),
            obj: None,
        }),
        reply: Reply::Removed { count: 1 },
        ..ENTRY
    },
    Entry {
        call: Call::Post(Post {
            what: 4,
            when: 20,
            ..POST
        }),
        reply: Reply::Accepted { number: 3 },
        ..ENTRY
    },
    Entry {
        call: Call::Quit {
            safe: false,
            now: 10,
        },
        reply: Reply::QuitDone,
        ..ENTRY
    },
    Entry {
        call: Call::Post(Post {
            what: 5,
            when: 20,
            ..POST
        }),
        reply: Reply::Refused { place: 8 },
        ..ENTRY
    },
    Entry {
        call: Call::Post(Post {
            callback: Some(6),
            when: 20,
            ..POST
        }),
        reply: Reply::Refused { place: 8 },
        ..ENTRY
    },
    Entry {
        call: Call::Quit {
            safe: true,
            now: 10,
        },
        reply: Reply::AlreadyQuit { place: 8 },
        ..ENTRY
    },
    Entry {
        call: Call::Next { now: 10 },
        reply: Reply::Disposed,
        ..ENTRY
    },
];

const ACTS: [Act; 5] = [
    Act::Idle { id: 3, kept: false },
    Act::Event {
        fd: 5,
        events: 1,
        mask: 0,
    },
    Act::Vsync { stamp: FRAME },
    Act::Paint { gauge: 0, value: 7 },
    Act::Dispatch {
        number: 0,
        now: 20,
        route: Route::Intercepted,
    },
];

/// The one frame's time.
const FRAME: u64 = 33_333_334;

const FRAMES: [FrameEntry; 5] = [
    FrameEntry::Posted(Callback {
        number: 0,
        phase: 3,
        due: 30,
        id: 8,
        token: None,
    }),
    FrameEntry::Begin {
        vsync: FRAME,
        start: FRAME,
        time: FRAME,
    },
    FrameEntry::Take {
        phase: 0,
        now: FRAME,
        time: FRAME,
    },
    FrameEntry::Ran { number: 0 },
    FrameEntry::Removed {
        phase: 3,
        id: 9,
        token: None,
        count: 0,
    },
];

fn list<T: Copy + Drop>(alloc: Global, elements: &[T]) -> Result<Sequence<T>, NoMemory> {
    Ok(Sequence::from_vec(Vec::from_slice(alloc, elements)?))
}

/// The queue's history in two parts. What a part starts from isn't printed.
fn queue(alloc: Global, looper: u32, entries: &[Entry]) -> Result<QueueRecord, NoMemory> {
    let (first, second) = entries.split_at(entries.len() / 2);
    let mut segments = Sequence::new(alloc);
    for part in [first, second] {
        segments.push(Segment {
            base: Base::empty(alloc, 4)?,
            entries: list(alloc, part)?,
        })?;
    }
    Ok(QueueRecord {
        looper,
        main: looper == 0,
        lockstep: true,
        senders: 4,
        segments,
    })
}

/// A report whose records have an entry of each kind.
fn report(alloc: Global) -> Result<Report, NoMemory> {
    let script = Script {
        edition: 1,
        loopers: 2,
        threads: 1,
        handlers: Sequence::new(alloc),
        gauges: Sequence::new(alloc),
        period: 16_666_667,
        rules: Sequence::new(alloc),
        blocks: Sequence::new(alloc),
        end: 20,
    };
    let mut queues = Sequence::new(alloc);
    let mut journals = Sequence::new(alloc);
    let mut frames = Sequence::new(alloc);
    let both: [(u32, &[Entry], &[Act], &[FrameEntry]); 2] = [
        (0, &MAIN, &ACTS, &FRAMES),
        (1, &SIDE, &[], &[]),
    ];
    for (looper, entries, acts, of_frames) in both {
        queues.push(queue(alloc, looper, entries)?)?;
        journals.push(Journal {
            looper,
            acts: list(alloc, acts)?,
        })?;
        frames.push(FrameRecord {
            looper,
            interval: 16_666_667,
            phases: 4,
            entries: list(alloc, of_frames)?,
        })?;
    }
    Ok(Report {
        script,
        queues,
        journals,
        frames,
        start: 0,
    })
}

#[test]
fn each_kind_of_line_and_each_count_is_printed(rt: HostRuntime) -> Result<(), NoMemory> {
    let report = report(rt.alloc())?;
    let text = report_text(rt.alloc(), &report)?;
    assert!(rt; text.as_slice() == EACH_LINE.as_bytes());
    let summary = summary_text(rt.alloc(), 7, &report)?;
    assert!(rt; summary.as_slice() == EACH_COUNT.as_bytes());
    Ok(())
}
