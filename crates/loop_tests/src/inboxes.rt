//! An inbox: posts of two threads that an admitter takes, and scripts that run by it.
ghost use Rattle.std.specs.Prelude.{◌≡◌, ◌<◌, ◌+◌, ℕ, length, replicate, None, slice_index_or};
ghost use Rattle.std.specs.Thread.{IsSync};
ghost use Rattle.inbox_queue.specs.Handed.{PutPosts, AreInboxSenders};

use dash_script::{Parsed, parse};
use inbox_queue::{
    Admit, Admitter, Inbox, InboxEnd, InboxRan, InboxSender, Parcel, Put, run_inbox,
};
use loop_io::{Gate, MeetGate, OpenGate};
use loop_model::{Entry, NoMemory, Post, Reply};
use std::alloc::Global;
use std::sync::Wait;
use std::test::Fail;
use std::thread::{Threads, for_each_mut};

fn post(what: u32) -> Post {
    Post {
        handler: 0,
        what,
        arg: 0,
        obj: None,
        callback: None,
        when: 5,
        asynchronous: false,
        slot: None,
    }
}

const POSTS: u32 = 500;

// Puts many posts, up to one that is not answered by its index.
fn put_many<R: Wait>(rt: &R, inbox: &Inbox, sender: &mut InboxSender)
    requires { sender.old.inbox ≡ inbox.now }
    ensures { (sender.new.inbox ≡ inbox.now) × (sender.new.number ≡ sender.old.number) }
{
    for what in 0..POSTS {
        let index = u64::from(what);
        if sender.put(rt, inbox, post(what)) != (Put::Put { index }) {
            return;
        }
    }
}

// Each sender puts its posts on a thread of its own.
fn side_by_side<R: Threads + Wait + Sync>(rt: &R, inbox: &Inbox, senders: &mut [InboxSender])
    requires { AreInboxSenders inbox.now senders.old }
    ensures { (length senders.new ≡ length senders.old) × AreInboxSenders inbox.now senders.new }
{
    for_each_mut(
        rt,
        senders,
        2,
        &|_place, sender: &mut InboxSender|
            requires { IsSync R.row × (sender.old.inbox ≡ inbox.now) }
            ensures { (sender.new.inbox ≡ inbox.entry.now) × (sender.new.number ≡ sender.old.number) }
        { put_many(rt, inbox, sender) },
    );
}

// What the admitter was answered, and how the inbox ended.
type Closed = (Vec<Admit>, InboxEnd);

// Takes both senders in, admits so many times, and closes the inbox.
fn close_both<R: Wait>(
    rt: &R,
    alloc: Global,
    inbox: Inbox,
    mut admitter: Admitter,
    first: InboxSender,
    second: InboxSender,
    times: u32,
) -> Result<Closed, NoMemory>
    requires inbox { (admitter.inbox ≡ inbox) × (first.inbox ≡ inbox) × (second.inbox ≡ inbox) }
    requires senders { (admitter.taken ≡ replicate 2 None) × (first.number ≡ 0) × (second.number ≡ 1) }
{
    admitter.take_in(&inbox, first);
    admitter.take_in(&inbox, second);
    let mut admits = Vec::new(alloc);
    for _ in 0..times {
        admits.push(admitter.admit(rt, &inbox)).ok();
    }
    let end = inbox.close(rt, admitter)?;
    Ok((admits, end))
}

// The last of so many senders and one more.
fn pop_last(inbox: &Inbox, senders: &mut Vec<InboxSender>, place: u32) -> InboxSender
    requires { (length senders.old.items ≡ place + 1) × AreInboxSenders inbox.now senders.old.items }
    ensures sender { (result.inbox ≡ inbox.now) × (result.number ≡ place) }
    ensures rest { (length senders.new.items ≡ place) × AreInboxSenders inbox.now senders.new.items }
{
    senders.pop().unwrap()
}

fn worked<R: Threads + Wait + Sync>(rt: &R, alloc: Global) -> Result<Closed, NoMemory> {
    let (inbox, mut senders, admitter) = Inbox::make(alloc, 2)?;
    side_by_side(rt, &inbox, senders.as_mut_slice());
    let second = pop_last(&inbox, &mut senders, 1);
    let first = pop_last(&inbox, &mut senders, 0);
    close_both(rt, alloc, inbox, admitter, first, second, 1500)
}

// A parcel of the first sender.
fn parcel(index: u64, what: u32) -> Parcel {
    Parcel {
        from: 0,
        index,
        post: post(what),
    }
}

// The first of two senders puts two posts; then the admitter admits so many times. What came of it.
fn put_two<R: Wait>(rt: &R, alloc: Global, times: u32) -> Result<([Put; 2], Closed), NoMemory> {
    let (inbox, mut senders, admitter) = Inbox::make(alloc, 2)?;
    let second = pop_last(&inbox, &mut senders, 1);
    let mut first = pop_last(&inbox, &mut senders, 0);
    let puts = [
        first.put(rt, &inbox, post(7)),
        first.put(rt, &inbox, post(8)),
    ];
    let closed = close_both(rt, alloc, inbox, admitter, first, second, times)?;
    Ok((puts, closed))
}

#[test]
fn what_is_put_is_admitted_or_left(rt: HostRuntime) -> Result<(), Fail> {
    let both = [parcel(0, 7), parcel(1, 8)];
    let answers = [Admit::Parcel(both[0]), Admit::Parcel(both[1]), Admit::Empty];
    let rows: [(u32, &[Admit], &[Parcel], &[Parcel]); 2] = [
        (3, &answers, &both, &[]),
        (1, &answers[..1], &both[..1], &both[1..]),
    ];
    for (times, answered, admitted, left) in rows {
        let (puts, (admits, end)) = put_two(&rt, rt.alloc(), times)?;
        assert!(rt; puts == [Put::Put { index: 0 }, Put::Put { index: 1 }]);
        assert!(rt; admits.as_slice() == answered && end.admitted.as_slice() == admitted);
        assert!(rt; end.left.as_slice() == left);
    }
    Ok(())
}

// Whether the parcels of the sender are numbered in order.
fn in_order(parcels: &[Parcel], from: u32) -> bool {
    parcels
        .iter()
        .filter(|parcel| parcel.from == from)
        .enumerate()
        .all(|(i, parcel)| parcel.index == i as u64)
}

fn count(parcels: &[Parcel], from: u32) -> usize {
    parcels.iter().filter(|parcel| parcel.from == from).count()
}

#[test]
fn two_senders_put_side_by_side(rt: HostRuntime) -> Result<(), Fail> {
    let (admits, end) = worked(&rt, rt.alloc())?;
    let admitted = end.admitted.as_slice();
    assert!(rt; admits.len() == 1500 && admitted.len() == 1000 && end.left.len() == 0);
    assert!(rt; count(admitted, 0) == 500 && count(admitted, 1) == 500);
    assert!(rt; in_order(admitted, 0) && in_order(admitted, 1));
    Ok(())
}

const TWO_THREADS: &str =
    "dashboard 1\nloopers 1\nthreads 2\nhandler 0 0\nvsync 16666667\nat 10\n0 post 0 1 0\n0 post 0 2 0\n1 post 0 3 0\nend 10\n";

const ALL_FORMS: &str =
    "dashboard 1\nloopers 1\nthreads 2\nhandler 0 0\nhandler 1 0 async\nvsync 16666667\nat 0\n0 post 0 1 5\n1 front 0 2\nat 3\n0 post-async 0 3 1\n1 callback 1 9 7\n0 post 1 4 20\nend 12\n";

// What came of the script of this text.
fn ran<R: Threads + Wait + Sync, G: Gate + Sync>(
    rt: &R,
    alloc: Global,
    text: &str,
    gate: &G,
) -> Option<InboxRan> {
    match parse(alloc, text.as_bytes()) {
        Parsed::Ok(script) => Some(run_inbox(rt, alloc, script, gate)),
        Parsed::Bad { .. } => None,
        Parsed::NoMemory => None,
    }
}

fn dispatched(entries: &[Entry]) -> usize {
    entries
        .iter()
        .filter(|entry| matches!(entry.reply, Reply::Dispatched { .. }))
        .count()
}

#[test]
fn every_form_of_a_post_goes_through(rt: HostRuntime) -> Result<(), Fail> {
    let Some(InboxRan::Ok(report)) = ran(&rt, rt.alloc(), ALL_FORMS, &OpenGate) else {
        panic!(rt; "the script runs")
    };
    let [part] = report.kept.segments.as_slice() else {
        panic!(rt; "the history has one part")
    };
    let entries = part.entries.as_slice();
    assert!(rt; dispatched(entries) == 4);
    assert!(rt; report.admitted.len() == 2);
    let Some(last) = entries.last() else {
        panic!(rt; "there are entries")
    };
    assert!(rt; matches!(last.reply, Reply::Halted));
    Ok(())
}

// The number of the line for which the script of this text is refused, none where it runs, and else an error.
fn refused<R: Threads + Wait + Sync>(
    rt: &R,
    alloc: Global,
    text: &str,
) -> Result<Option<u64>, NoMemory> {
    match ran(rt, alloc, text, &OpenGate) {
        Some(InboxRan::Ok(_)) => Ok(None),
        Some(InboxRan::Bad { line }) => Ok(Some(line)),
        Some(InboxRan::NoMemory) => Err(NoMemory),
        None => Err(NoMemory),
    }
}

// A script, and the number of its first line that an inbox run doesn't know.
const REFUSED: [(&str, Option<u64>); 5] = [
    (TWO_THREADS, None),
    (
        "dashboard 1\nloopers 2\nthreads 1\nvsync 16666667\nend 1\n",
        Some(2),
    ),
    (
        "dashboard 1\nloopers 1\nthreads 1\nhandler 0 0\ngauge 0 0 5\nvsync 16666667\nend 1\n",
        Some(5),
    ),
    (
        "dashboard 1\nloopers 1\nthreads 1\nhandler 0 0\nvsync 16666667\non 0 1 times 1 post 0 2 0\nend 1\n",
        Some(6),
    ),
    (
        "dashboard 1\nloopers 1\nthreads 1\nhandler 0 0\nvsync 16666667\nat 1\n0 post 0 1 0\n0 remove 0 1\nend 1\n",
        Some(8),
    ),
];

#[test]
fn lines_that_it_does_not_know_are_refused(rt: HostRuntime) -> Result<(), Fail> {
    for row in &REFUSED {
        let (text, wanted) = *row;
        let line = refused(&rt, rt.alloc(), text)?;
        assert!(rt; line == wanted);
    }
    Ok(())
}

#[test]
fn the_threads_put_side_by_side(rt: HostRuntime) -> Result<(), Fail> {
    let gate = MeetGate::new(0, 1, 0, 10_000_000);
    let Some(InboxRan::Ok(report)) = ran(&rt, rt.alloc(), TWO_THREADS, &gate) else {
        panic!(rt; "the script runs")
    };
    let [part] = report.kept.segments.as_slice() else {
        panic!(rt; "the history has one part")
    };
    assert!(rt; part.entries.len() == 8);
    assert!(rt; gate.has_met() && !gate.missed());
    Ok(())
}
