//! Histories that no queue makes, and long ones: what became of each post.

use fate_ledger::{Fates, fates};
use loop_model::{
    Base, Call, Entry, Fate, Filter, Kind, NoMemory, Post, Reply, Segment, Sequence, plain,
};
use std::alloc::Global;
use std::test::Fail;

/// A message for handler 0 without anything.
const PLAIN: Post = Post {
    handler: 0,
    what: 0,
    arg: 0,
    obj: None,
    callback: None,
    when: 0,
    asynchronous: false,
    slot: None,
};

/// A call and its reply, and how many times they come, with rising numbers.
type Row = (Call, Reply, u64);

/// Several done quits: the first that reaches the post counts.
const SEVERAL_QUITS: [Row; 11] = [
    (
        Call::Post(Post { when: 15, ..PLAIN }),
        Reply::Accepted { number: 0 },
        1,
    ),
    (
        Call::Post(Post { when: 25, ..PLAIN }),
        Reply::Accepted { number: 1 },
        1,
    ),
    (
        Call::Post(Post { when: 35, ..PLAIN }),
        Reply::Accepted { number: 2 },
        1,
    ),
    (
        Call::Quit {
            safe: true,
            now: 30,
        },
        Reply::QuitDone,
        1,
    ),
    (
        Call::Post(Post { when: 35, ..PLAIN }),
        Reply::Accepted { number: 3 },
        1,
    ),
    (Call::Next { now: 20 }, Reply::Dispatched { number: 1 }, 1),
    (
        Call::Quit {
            safe: true,
            now: 20,
        },
        Reply::QuitDone,
        1,
    ),
    (
        Call::Quit {
            safe: true,
            now: 10,
        },
        Reply::QuitDone,
        1,
    ),
    (
        Call::Quit {
            safe: true,
            now: 40,
        },
        Reply::QuitDone,
        1,
    ),
    (
        Call::Post(Post { when: 45, ..PLAIN }),
        Reply::Accepted { number: 4 },
        1,
    ),
    (Call::Next { now: 10 }, Reply::Disposed, 1),
];

/// Ten thousand posts and as many removals that name none of them take no look at each post for each removal.
const MANY_REMOVALS: [Row; 2] = [
    (
        Call::Post(Post { when: 9, ..PLAIN }),
        Reply::Accepted { number: 0 },
        10_000,
    ),
    (
        Call::Remove(Filter {
            handler: 0,
            kind: Kind::What(2),
            obj: None,
        }),
        Reply::Removed { count: 0 },
        10_000,
    ),
];

/// Twenty thousand posts, each dispatched, and one that stays queued, take no scan of what comes later.
const LONG_HISTORY: [Row; 3] = [
    (
        Call::Post(Post { when: 1, ..PLAIN }),
        Reply::Accepted { number: 0 },
        20_000,
    ),
    (
        Call::Next { now: 1 },
        Reply::Dispatched { number: 0 },
        20_000,
    ),
    (
        Call::Post(Post { when: 9, ..PLAIN }),
        Reply::Accepted { number: 20_000 },
        1,
    ),
];

/// The reply that comes so many times later.
fn numbered(reply: Reply, later: u64) -> Reply {
    match reply {
        Reply::Accepted { number } => Reply::Accepted {
            number: number.saturating_add(later),
        },
        Reply::Dispatched { number } => Reply::Dispatched {
            number: number.saturating_add(later),
        },
        _ => reply,
    }
}

fn history(alloc: Global, rows: &[Row]) -> Result<Vec<Entry>, NoMemory> {
    let mut entries = Vec::new(alloc);
    for row in rows {
        let (call, reply, times) = *row;
        for later in 0..times {
            entries.push(Entry {
                sender: 0,
                seq: 0,
                call,
                reply: numbered(reply, later),
            })?;
        }
    }
    Ok(entries)
}

/// A part of a history. What it starts from says nothing of fates.
fn part(alloc: Global, entries: &[Entry]) -> Result<Segment, NoMemory> {
    Ok(Segment {
        base: Base::empty(alloc, 1)?,
        entries: Sequence::from_vec(Vec::from_slice(alloc, entries)?),
    })
}

/// The fates of a history in two parts, the first of which has at most this many entries.
fn fates_of(alloc: Global, entries: &[Entry], first: usize) -> Result<Fates, NoMemory> {
    let first = first.min(entries.len());
    let parts = [
        part(alloc, &entries[..first])?,
        part(alloc, &entries[first..])?,
    ];
    fates(alloc, &parts)
}

#[test]
fn several_quits(rt: HostRuntime) -> Result<(), Fail> {
    let alloc = rt.alloc();
    let entries = history(alloc, &SEVERAL_QUITS)?;
    let found = fates_of(alloc, &entries, 3)?;
    let wanted = [
        Fate::Dropped,
        Fate::Dispatched,
        Fate::Dropped,
        Fate::Dropped,
        Fate::Stranded,
    ];
    assert!(rt; found.list.as_slice() == wanted.as_slice());
    assert!(rt; found.dispatched == 1 && found.dropped == 3 && found.stranded == 1);
    let slow = plain::fates(alloc, &entries)?;
    assert!(rt; slow.as_slice() == wanted.as_slice());
    Ok(())
}

#[test]
fn many_removals(rt: HostRuntime) -> Result<(), Fail> {
    let entries = history(rt.alloc(), &MANY_REMOVALS)?;
    let found = fates_of(rt.alloc(), &entries, 10_000)?;
    assert!(rt; found.removed == 0 && found.queued == 10_000);
    Ok(())
}

#[test]
fn long_history(rt: HostRuntime) -> Result<(), Fail> {
    let entries = history(rt.alloc(), &LONG_HISTORY)?;
    let found = fates_of(rt.alloc(), &entries, 10_000)?;
    assert!(rt; found.dispatched == 20_000 && found.queued == 1);
    Ok(())
}
