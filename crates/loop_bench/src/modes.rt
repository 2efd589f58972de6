// What is measured: the calls of each mode.

ghost use Rattle.std.specs.Prelude.{◌≡◌, ◌<◌};

use crate::calls::{forget, message, new_queue, post, post_barrier, quit_safely, remove, take};
use crate::handled::handled;
use crate::words::Mode;
use loop_model::{Filter, Kind, NoMemory, Post};
use message_slot::NoClaim;
use queue_state::QueueState;
use std::alloc::Global;
use std::sync::Wait;

/// The time of what is posted for later, in milliseconds.
const LATE: u64 = 1_000_000_000_000;

/// So many entries a queue makes before it hands them out.
const PART: usize = 4_096;

/// So many messages a burst has.
const BURST: u64 = 1_000;

/// How many messages were posted, taken, removed and dropped, and how many looks took none.
#[derive(Clone, Copy)]
pub(crate) struct Counts {
    pub(crate) posted: u64,
    pub(crate) taken: u64,
    pub(crate) waited: u64,
    pub(crate) removed: u64,
    pub(crate) dropped: u64,
}

const NONE: Counts = Counts {
    posted: 0,
    taken: 0,
    waited: 0,
    removed: 0,
    dropped: 0,
};

/// Nothing has happened yet.
pub(crate) fn no_counts() -> Counts {
    NONE
}

/// Makes the calls of the mode for this many messages.
pub(crate) fn run<R: Wait>(
    rt: &R,
    alloc: Global,
    mode: Mode,
    count: u64,
) -> Result<Counts, NoMemory> {
    let mut state = new_queue(alloc)?;
    run_on(rt, alloc, &mut state, mode, count)
}

/// Makes them on this queue, but those by a handler, which have a queue of their own.
fn run_on<R: Wait>(
    rt: &R,
    alloc: Global,
    state: &mut QueueState<NoClaim>,
    mode: Mode,
    count: u64,
) -> Result<Counts, NoMemory>
    requires { state.old.setting.senders ≡ 1 }
{
    match mode {
        Mode::Chain => chain(alloc, state, count),
        Mode::Burst => burst(alloc, state, count),
        Mode::Sealed => sealed(alloc, state, count),
        Mode::Late => late(alloc, state, count),
        Mode::Rising => rising(alloc, state, count),
        Mode::Scatter => scatter(alloc, state, count),
        Mode::Fenced => fenced(alloc, state, count),
        Mode::Barrier => barrier(alloc, state, count),
        Mode::Removals => removals(alloc, state, count),
        Mode::RemoveAll => remove_all(alloc, state, count),
        Mode::SafeQuit => safe_quit(alloc, state, count),
        Mode::Handled => handled(rt, alloc, count, 1),
        Mode::HandledBurst => handled(rt, alloc, count, BURST),
    }
}

/// Posts each message for now and takes it.
fn chain(alloc: Global, state: &mut QueueState<NoClaim>, count: u64) -> Result<Counts, NoMemory>
    requires { state.old.setting.senders ≡ 1 }
{
    let mut taken = 0;
    for now in 0..count {
        post(alloc, state, &message(now))?;
        if take(state, now) {
            taken = more(taken);
        }
    }
    Ok(Counts {
        posted: count,
        taken,
        ..NONE
    })
}

/// Posts all messages, each for its own rising time, and takes them.
fn burst(alloc: Global, state: &mut QueueState<NoClaim>, count: u64) -> Result<Counts, NoMemory>
    requires { state.old.setting.senders ≡ 1 }
{
    post_each(alloc, state, 1, count)?;
    let taken = take_each(state, count, count);
    Ok(Counts {
        posted: count,
        taken,
        ..NONE
    })
}

/// Posts each message for now and takes it, and hands the entries out, part by part, which drops them.
fn sealed(alloc: Global, state: &mut QueueState<NoClaim>, count: u64) -> Result<Counts, NoMemory>
    requires { state.old.setting.senders ≡ 1 }
{
    let mut taken = 0;
    for now in 0..count {
        post(alloc, state, &message(now))?;
        if take(state, now) {
            taken = more(taken);
        }
        forget(state, PART)?;
    }
    Ok(Counts {
        posted: count,
        taken,
        ..NONE
    })
}

/// Posts all messages for later: what the modes `removals` and `remove_all` begin with.
fn late(alloc: Global, state: &mut QueueState<NoClaim>, count: u64) -> Result<Counts, NoMemory>
    requires { state.old.setting.senders ≡ 1 }
{
    post_each(alloc, state, LATE, count)?;
    Ok(Counts {
        posted: count,
        ..NONE
    })
}

/// Posts one half of the messages for later, and then the other half for earlier times, rising.
fn rising(alloc: Global, state: &mut QueueState<NoClaim>, count: u64) -> Result<Counts, NoMemory>
    requires { state.old.setting.senders ≡ 1 }
{
    let first = count / 2;
    post_each(alloc, state, LATE, first)?;
    post_each(alloc, state, 1, count - first)?;
    Ok(Counts {
        posted: count,
        ..NONE
    })
}

/// Posts the messages for scattered times.
fn scatter(alloc: Global, state: &mut QueueState<NoClaim>, count: u64) -> Result<Counts, NoMemory>
    requires { state.old.setting.senders ≡ 1 }
{
    let mut seed = 1;
    for _ in 0..count {
        seed = drawn(seed);
        post(alloc, state, &message(seed >> 24))?;
    }
    Ok(Counts {
        posted: count,
        ..NONE
    })
}

/// Posts a barrier, messages behind it, and for each twentieth an asynchronous one at the end.
fn post_fenced(alloc: Global, state: &mut QueueState<NoClaim>, count: u64) -> Result<(), NoMemory>
    requires { state.old.setting.senders ≡ 1 }
    ensures { state.new.setting ≡ state.old.setting }
{
    post_barrier(alloc, state, 0)?;
    post_each(alloc, state, 1, count)?;
    for _ in 0..count / 20 {
        let asynchronous = Post {
            asynchronous: true,
            ..message(LATE)
        };
        post(alloc, state, &asynchronous)?;
    }
    Ok(())
}

/// What the mode `barrier` begins with.
fn fenced(alloc: Global, state: &mut QueueState<NoClaim>, count: u64) -> Result<Counts, NoMemory>
    requires { state.old.setting.senders ≡ 1 }
{
    post_fenced(alloc, state, count)?;
    Ok(Counts {
        posted: count,
        ..NONE
    })
}

/// Behind a barrier: as many looks that wait as there are asynchronous messages, and as many that take one.
fn barrier(alloc: Global, state: &mut QueueState<NoClaim>, count: u64) -> Result<Counts, NoMemory>
    requires { state.old.setting.senders ≡ 1 }
{
    post_fenced(alloc, state, count)?;
    let mut waited = 0;
    for _ in 0..count / 20 {
        if !take(state, 1) {
            waited = more(waited);
        }
    }
    let taken = take_each(state, LATE, count / 20);
    Ok(Counts {
        posted: count,
        taken,
        waited,
        ..NONE
    })
}

/// Posts the messages for later, and makes as many removals that name none of them.
fn removals(alloc: Global, state: &mut QueueState<NoClaim>, count: u64) -> Result<Counts, NoMemory>
    requires { state.old.setting.senders ≡ 1 }
{
    post_each(alloc, state, LATE, count)?;
    let mut removed: u64 = 0;
    for _ in 0..count {
        removed = removed.saturating_add(remove(state, &named(2))?);
    }
    Ok(Counts {
        posted: count,
        removed,
        ..NONE
    })
}

/// Posts the messages for later, and removes all of them at once.
fn remove_all(
    alloc: Global,
    state: &mut QueueState<NoClaim>,
    count: u64,
) -> Result<Counts, NoMemory>
    requires { state.old.setting.senders ≡ 1 }
{
    post_each(alloc, state, LATE, count)?;
    let removed = remove(state, &named(1))?;
    Ok(Counts {
        posted: count,
        removed,
        ..NONE
    })
}

/// Posts the messages, and quits safely where one half of them is later.
fn safe_quit(alloc: Global, state: &mut QueueState<NoClaim>, count: u64) -> Result<Counts, NoMemory>
    requires { state.old.setting.senders ≡ 1 }
{
    let first = count / 2;
    post_each(alloc, state, 1, first)?;
    post_each(alloc, state, LATE, count - first)?;
    let dropped = quit_safely(state, LATE - 1)?;
    Ok(Counts {
        posted: count,
        dropped,
        ..NONE
    })
}

/// Posts so many messages, the first for this time and each further one for the next millisecond.
fn post_each(
    alloc: Global,
    state: &mut QueueState<NoClaim>,
    first: u64,
    count: u64,
) -> Result<(), NoMemory>
    requires { state.old.setting.senders ≡ 1 }
    ensures { state.new.setting ≡ state.old.setting }
{
    for i in 0..count {
        post(alloc, state, &message(first.saturating_add(i)))?;
    }
    Ok(())
}

/// Looks so many times at this moment, and tells how many messages that took.
fn take_each(state: &mut QueueState<NoClaim>, now: u64, count: u64) -> u64
    requires { state.old.setting.senders ≡ 1 }
    ensures { state.new.setting ≡ state.old.setting }
{
    let mut taken = 0;
    for _ in 0..count {
        if take(state, now) {
            taken = more(taken);
        }
    }
    taken
}

/// The filter of messages with this `what`.
fn named(what: u32) -> Filter {
    Filter {
        handler: 0,
        kind: Kind::What(what),
        obj: None,
    }
}

/// One more.
pub(crate) fn more(count: u64) -> u64 {
    count.saturating_add(1)
}

/// The number that follows this one in a row that looks like drawn at random (Knuth's linear congruential generator).
fn drawn(seed: u64) -> u64 {
    seed.wrapping_mul(6_364_136_223_846_793_005)
        .wrapping_add(1_442_695_040_888_963_407)
}
