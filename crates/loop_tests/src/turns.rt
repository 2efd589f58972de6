//! Turns on a shared queue, by one poster and by several threads.
ghost use Rattle.std.specs.Prelude.{◌≡◌, [], IfOk, None, false, length};
ghost use Rattle.std.specs.Thread.{IsSync};
ghost use Rattle.loop_model.specs.Items.{is_barrier};
ghost use Rattle.shared_queue.specs.Known.{IsOf};
ghost use Rattle.shared_queue.specs.Ends.{AreInOrder, HaveSealed};

use loop_model::{Entry, NoMemory, Post};
use message_list::new_node;
use message_slot::{Message, NoClaim};
use queue_state::{Nexted, Posted, Recorder};
use shared_queue::{Poster, Retired, SharedQueue};
use std::alloc::Global;
use std::sync::Wait;
use std::test::Fail;
use std::thread;
use std::thread::{Threads, yield_now};
use when_queue::MsgNode;

const POSTS: u32 = 1000;

// A message with a target, due at 5.
fn message(alloc: Global, what: u32) -> Result<MsgNode<NoClaim>, NoMemory>
    ensures { IfOk result (λ m. (is_barrier m.item ≡ false) × (m.claim ≡ None)) }
{
    let mut message = Message::blank();
    message.set_post(&Post {
        handler: 1,
        what,
        arg: 0,
        obj: None,
        callback: None,
        when: 5,
        asynchronous: false,
        slot: None,
    });
    match new_node(alloc, message) {
        Ok(node) => Ok(node),
        Err(_) => Err(NoMemory),
    }
}

// Posts a message: its number, and whether a waiting looper has to look again; none where it was not accepted.
fn send<R: Wait, E: Recorder>(
    rt: &R,
    alloc: Global,
    queue: &SharedQueue<NoClaim, E>,
    poster: &mut Poster<NoClaim, E>,
    what: u32,
) -> Option<(u64, bool)>
    requires { IsOf poster.old queue.now }
    ensures { IsOf poster.new queue.now × (poster.new.sender ≡ poster.old.sender) × (poster.new.view.sealed ≡ poster.old.view.sealed) }
{
    let Ok(node) = message(alloc, what) else {
        return None
    };
    match poster.post(rt, queue, node) {
        Posted::Accepted { number, wake } => Some((number, wake)),
        Posted::Refused { .. } => None,
        Posted::NoMemory(_) => None,
    }
}

fn post_many<R: Wait, E: Recorder>(
    rt: &R,
    alloc: Global,
    queue: &SharedQueue<NoClaim, E>,
    poster: &mut Poster<NoClaim, E>,
)
    requires { IsOf poster.old queue.now }
    ensures { IsOf poster.new queue.now × (poster.new.sender ≡ poster.old.sender) × (poster.new.view.sealed ≡ poster.old.view.sealed) }
{
    for what in 0..POSTS {
        send(rt, alloc, queue, poster, what);
    }
}

// Looks until a message is there.
fn take_one<R: Wait>(rt: &R, queue: &SharedQueue<NoClaim>, poster: &mut Poster<NoClaim>)
    requires { IsOf poster.old queue.now }
    ensures { IsOf poster.new queue.now × (poster.new.sender ≡ poster.old.sender) × (poster.new.view.sealed ≡ poster.old.view.sealed) }
{
    for _ in rt.forever() {
        if matches!(poster.next(rt, queue, 10, false), Nexted::Taken { .. }) {
            return;
        }
        yield_now();
    }
}

fn take_many<R: Wait>(rt: &R, queue: &SharedQueue<NoClaim>, poster: &mut Poster<NoClaim>)
    requires { IsOf poster.old queue.now }
    ensures { IsOf poster.new queue.now × (poster.new.sender ≡ poster.old.sender) × (poster.new.view.sealed ≡ poster.old.view.sealed) }
{
    for _ in 0..2 * POSTS {
        take_one(rt, queue, poster);
    }
}

// The first two post, and the third takes.
fn work<R: Wait>(
    rt: &R,
    alloc: Global,
    queue: &SharedQueue<NoClaim>,
    poster: &mut Poster<NoClaim>,
    place: usize,
)
    requires { IsOf poster.old queue.now }
    ensures { IsOf poster.new queue.now × (poster.new.sender ≡ poster.old.sender) × (poster.new.view.sealed ≡ poster.old.view.sealed) }
{
    if place < 2 {
        post_many(rt, alloc, queue, poster);
    } else {
        take_many(rt, queue, poster);
    }
}

// Each poster works in a thread of its own.
fn side_by_side<R: Threads + Wait + Sync>(
    rt: &R,
    alloc: Global,
    queue: &SharedQueue<NoClaim>,
    posters: &mut [Poster<NoClaim>],
)
    requires { AreInOrder queue.now posters.old }
    ensures length { length posters.new ≡ length posters.old }
    ensures order { AreInOrder queue.now posters.new }
    ensures sealed { HaveSealed posters.old [] → HaveSealed posters.new [] }
{
    thread::for_each_mut(
        rt,
        posters,
        3,
        &|i, poster: &mut Poster<NoClaim>|
            requires { IsSync R.row × IsOf poster.old queue.now }
            ensures { IsOf poster.new queue.entry.now × (poster.new.sender ≡ poster.old.sender) × (poster.new.view.sealed ≡ poster.old.view.sealed) }
        { work(rt, alloc, queue, poster, i) },
    );
}

fn worked<R: Threads + Wait + Sync>(rt: &R, alloc: Global) -> Result<Retired<NoClaim>, NoMemory> {
    let (queue, mut posters) = SharedQueue::<NoClaim>::make(alloc, (), 1, false, false, 3)?;
    side_by_side(rt, alloc, &queue, posters.as_mut_slice());
    queue.retire(posters, Vec::new(alloc))
}

// Whether the entries of the sender are numbered in order.
fn in_order(entries: &[Entry], sender: u32) -> bool {
    entries
        .iter()
        .filter(|entry| entry.sender == sender)
        .enumerate()
        .all(|(i, entry)| entry.seq == i as u64)
}

fn count(entries: &[Entry], sender: u32) -> usize {
    entries
        .iter()
        .filter(|entry| entry.sender == sender)
        .count()
}

#[test]
fn two_threads_post_and_a_third_takes(rt: HostRuntime) -> Result<(), Fail> {
    let retired = worked(&rt, rt.alloc())?;
    let [part] = retired.kept.segments.as_slice() else {
        panic!(rt; "nothing was handed out")
    };
    let entries = part.entries.as_slice();
    assert!(rt; entries.len() == 4000 && retired.left.len() == 0);
    assert!(rt;
        count(entries, 0) == 1000 && count(entries, 1) == 1000 && count(entries, 2) == 2000
    );
    assert!(rt; in_order(entries, 0) && in_order(entries, 1) && in_order(entries, 2));
    assert!(rt; retired.kept.looper == 1 && !retired.kept.main && retired.kept.senders == 3);
    Ok(())
}
