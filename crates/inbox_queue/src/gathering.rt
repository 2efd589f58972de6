//! A block's posts on their way through an inbox: the threads put them side by side, and the admitter takes them out.
ghost use Rattle.std.specs.Prelude.{◌≡◌, ◌<◌, ◌++◌, ℕ, true, false, [], ◌∷◌, length, slice_index_or, IfOk};
ghost use Rattle.std.specs.Thread.{IsSync};
ghost use Rattle.inbox_queue.specs.Handed.{PutPosts, AreInboxSenders, AreAllTakenIn, IsAllAdmitted};
ghost use Rattle.inbox_queue.specs.Gathered.{planned_for, PutsOf, EachPuts, PutBeginnings, HavePut, all_put};
ghost use Rattle.inbox_queue.specs.Plans.{planned_posts};
ghost use Rattle.inbox_queue.specs.InboxRun.{IsOfBlock};

use crate::admitter::{Admit, Admitter};
use crate::inbox::Inbox;
use crate::parcel::Parcel;
use crate::planned::{planned_count, post_in};
use crate::sender::{InboxSender, Put};
use dash_script::{Block, Line, Script};
use loop_io::Gate;
use loop_model::{NoMemory, Sequence};
use std::alloc::Global;
use std::sync::Wait;
use std::thread::{Threads, for_each_mut};

/// The thread puts the post that the line plans for it, if any, and passes the gate before. Answers false where it found no
/// memory.
fn put_line<R: Wait, G: Gate>(
    rt: &R,
    inbox: &Inbox,
    script: &Script,
    gate: &G,
    time: u64,
    sender: &mut InboxSender,
    line: &Line,
) -> bool
    requires { sender.old.inbox ≡ inbox.now }
    ensures same { (sender.new.inbox ≡ sender.old.inbox) × (sender.new.number ≡ sender.old.number) }
    ensures put { result ≡ true → sender.new.put ≡ sender.old.put ++ planned_posts script.now time sender.old.number (line.now ∷ []) }
    ensures kept { result ≡ false → sender.new.put ≡ sender.old.put }
{
    let Some(post) = post_in(script, time, sender.number(), line) else {
        return true;
    };
    gate.pass(sender.number(), sender.count());
    match sender.put(rt, inbox, post) {
        Put::Put { .. } => true,
        Put::NoMemory(_) => false,
    }
}

/// The thread puts the posts that its lines of the block plan, up to one that finds no memory.
fn put_lines<R: Wait, G: Gate>(
    rt: &R,
    inbox: &Inbox,
    script: &Script,
    gate: &G,
    block: &Block,
    sender: &mut InboxSender,
)
    requires { (sender.old.inbox ≡ inbox.now) × (sender.old.put ≡ []) }
    ensures { PutsOf sender.old sender.new (planned_for script.now block.now sender.old.number) }
{
    for line in block.lines.as_slice() {
        if !put_line(rt, inbox, script, gate, block.time, sender, line) {
            return;
        }
    }
}

/// All threads put their posts, each on a thread of its own.
fn put_all<R: Threads + Wait + Sync, G: Gate + Sync>(
    rt: &R,
    inbox: &Inbox,
    script: &Script,
    gate: &G,
    block: &Block,
    senders: &mut [InboxSender],
)
    requires senders { AreInboxSenders inbox.now senders.old }
    requires new { (k : ℕ) (d : PutPosts) → k < length senders.old → (slice_index_or senders.old k d).put ≡ [] }
    ensures senders { (length senders.new ≡ length senders.old) × AreInboxSenders inbox.now senders.new }
    ensures put { EachPuts script.now block.now senders.old senders.new }
{
    let count = senders.len().max(1);
    let put = |place: usize, sender: &mut InboxSender|
        requires { IsSync R.row × IsSync G.row × (sender.old.inbox ≡ inbox.now) × (sender.old.number ≡ place) × (sender.old.put ≡ []) }
        ensures { PutsOf sender.old sender.new (planned_for script.entry.now block.entry.now place) }
    { put_lines(rt, inbox, script, gate, block, sender) };
    for_each_mut(rt, senders, count, &put);
}

/// Whether each sender has put all that its lines of the block plan.
fn have_put(script: &Script, block: &Block, senders: &[InboxSender]) -> bool
    requires numbers { (k : ℕ) (d : PutPosts) → k < length senders.now → (slice_index_or senders.now k d).number ≡ k }
    requires put { PutBeginnings script.now block.now senders.now }
    ensures { result ≡ true → HavePut script.now block.now senders.now }
{
    for sender in senders {
        let planned = planned_count(script, block.time, block.lines.as_slice(), sender.number());
        if sender.count() != planned {
            return false;
        }
    }
    true
}

/// The admitter takes in all senders.
fn take_in_all(inbox: &Inbox, admitter: &mut Admitter, senders: Vec<InboxSender>)
    requires admitter { (admitter.old.inbox ≡ inbox.now) × (length admitter.old.taken ≡ length senders.items) }
    requires senders { AreInboxSenders inbox.now senders.items }
    ensures admitter { (admitter.new.inbox ≡ inbox.now) × (admitter.new.admitted ≡ admitter.old.admitted) }
    ensures taken { admitter.new.taken ≡ all_put senders.items }
{
    for sender in senders {
        admitter.take_in(inbox, sender);
    }
}

/// The admitter admits until the inbox is empty. Answers false where it found no memory.
fn admit_all<R: Wait>(rt: &R, inbox: &Inbox, admitter: &mut Admitter) -> bool
    requires inbox { admitter.old.inbox ≡ inbox.now }
    requires senders { AreAllTakenIn admitter.old }
    ensures same { (admitter.new.inbox ≡ inbox.now) × (admitter.new.taken ≡ admitter.old.taken) }
    ensures all { result ≡ true → IsAllAdmitted admitter.new }
{
    for _ in rt.forever() {
        match admitter.admit(rt, inbox) {
            Admit::Parcel(_) => {}
            Admit::Empty => return true,
            Admit::NoMemory => return false,
        }
    }
    unreachable!()
}

/// What the threads put in a block, in the order in which it was admitted.
pub(crate) fn gather<R: Threads + Wait + Sync, G: Gate + Sync>(
    rt: &R,
    alloc: Global,
    script: &Script,
    gate: &G,
    block: &Block,
) -> Result<Sequence<Parcel>, NoMemory>
    requires { 0 < script.now.threads }
    ensures { IfOk result (IsOfBlock script.now block.now) }
{
    let (inbox, mut senders, mut admitter) = Inbox::make(alloc, script.threads)?;
    put_all(rt, &inbox, script, gate, block, senders.as_mut_slice());
    let whole = have_put(script, block, senders.as_slice());
    take_in_all(&inbox, &mut admitter, senders);
    let empty = admit_all(rt, &inbox, &mut admitter);
    let end = inbox.close(rt, admitter)?;
    if whole & empty {
        Ok(end.admitted)
    } else {
        Err(NoMemory)
    }
}
