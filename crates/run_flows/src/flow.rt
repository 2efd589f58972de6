//! Which arrows a trace has.
ghost use Rattle.std.specs.Prelude.{◌≡◌, ◌++◌, IfOk, OnOk, option_to_list};
ghost use Rattle.std.specs.List.{filter_map, flat_map};
ghost use Rattle.loop_model.specs.Posts.{accepted_post};
ghost use Rattle.run_flows.specs.Flows.{flow_to, flows, queue_flows, added_post, sent_from};

use loop_model::{Call, Entry, NoMemory, Post, Reply};
use std::alloc::Global;
use trace_check::{Trace, TraceQueue};

/// An accepted post, as the history of its queue has it.
#[derive(Clone, Copy, Debug, PartialEq, Eq)]
pub struct Sent {
    /// The message.
    pub post: Post,
    /// The number of who posted it.
    pub sender: u32,
    /// The queue's time as it was posted, in milliseconds: the greatest moment of the entries before, since a post has none.
    pub time: u64,
}

/// An arrow from an accepted post to the dispatch of its number.
#[derive(Clone, Copy, Debug, PartialEq, Eq)]
pub struct Flow {
    /// The number of the looper whose queue it is.
    pub looper: u32,
    /// The message's number among the accepted posts of the queue, counted from 0.
    pub number: u64,
    /// The post.
    pub sent: Sent,
    /// The number of who looked for a message and got it.
    pub taker: u32,
    /// The moment of the dispatch, in milliseconds.
    pub time: u64,
}

/// Puts an item at the end, where there is one.
fn push_some<T: Drop>(out: &mut Vec<T>, item: Option<T>) -> Result<(), NoMemory>
    ensures { OnOk result (out.new.items ≡ out.old.items ++ option_to_list item) }
{
    match item {
        Some(item) => {
            out.push(item)?;
            Ok(())
        }
        None => Ok(()),
    }
}

/// The post that an entry adds to the queue.
fn accepted_post(entry: &Entry) -> Option<Post>
    ensures { result ≡ accepted_post entry.now }
{
    let Call::Post(post) = entry.call else {
        return None;
    };
    if entry.reply.is_accepted() {
        Some(post)
    } else {
        None
    }
}

/// The post that an entry adds at this time of the queue.
fn sent_by(time: u64, entry: &Entry) -> Option<Sent>
    ensures { result ≡ added_post time entry.now }
{
    let post = accepted_post(entry)?;
    let sender = entry.sender;
    Some(Sent { post, sender, time })
}

/// The accepted posts of a history, in order.
fn sent_posts(alloc: Global, entries: &[Entry]) -> Result<Vec<Sent>, NoMemory>
    ensures { IfOk result (λ found. found.items ≡ sent_from 0 entries.now) }
{
    let mut found = Vec::new(alloc);
    let mut time = 0;
    for entry in entries {
        push_some(&mut found, sent_by(time, entry))?;
        time = time.max(entry.call.moment());
    }
    Ok(found)
}

/// The arrow that ends at an entry, where the entry dispatches one of these posts.
fn flow_to(posts: &[Sent], looper: u32, entry: &Entry) -> Option<Flow>
    ensures { result ≡ flow_to posts.now looper entry.now }
{
    let Call::Next { now } = entry.call else {
        return None;
    };
    let Reply::Dispatched { number } = entry.reply else {
        return None;
    };
    let sent = posts.get(usize::try_from(number).ok()?)?;
    Some(Flow {
        looper,
        number,
        sent: *sent,
        taker: entry.sender,
        time: now,
    })
}

/// The arrows of one queue.
fn push_flows(alloc: Global, out: &mut Vec<Flow>, queue: &TraceQueue) -> Result<(), NoMemory>
    ensures { OnOk result (out.new.items ≡ out.old.items ++ queue_flows queue.now) }
{
    let entries = queue.entries.as_slice();
    let posts = sent_posts(alloc, entries)?;
    for entry in entries {
        push_some(out, flow_to(&posts, queue.looper, entry))?;
    }
    Ok(())
}

/// The arrows of a trace, queue by queue, each queue's in the order of its dispatches: one for each dispatch of an accepted
/// post, and no other. `NoMemory` where there was none.
pub fn flows(alloc: Global, trace: &Trace) -> Result<Vec<Flow>, NoMemory>
    ensures { IfOk result (λ found. found.items ≡ flows trace.now) }
{
    let mut out = Vec::new(alloc);
    for queue in trace.queues.as_slice() {
        push_flows(alloc, &mut out, queue)?;
    }
    Ok(out)
}
