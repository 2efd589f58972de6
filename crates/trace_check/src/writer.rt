//! The text of a trace.
ghost use Rattle.std.specs.Prelude.{◌≡◌, ◌++◌, ◌∷◌, [], Some, length, map, codes, OnOk, IfOk, string_bytes};
ghost use Rattle.std.specs.List.{flat_map, join_with_byte};
ghost use Rattle.trace_check.specs.declared.line.TraceLine.TheVariants as line_of;
ghost use Rattle.line_words.specs.Written.{maybe, one_of, spelled_words};
ghost use Rattle.trace_check.specs.Line.{call_words, post_words, filter_words, reply_words};
ghost use Rattle.trace_check.specs.Text.{queue_head, trace_line_text, queue_lines, trace_text};
ghost use Rattle.loop_model.specs.Chain.{entries_of};
ghost use Rattle.trace_check.specs.Text.{trace_of, trace_queue_of};

use crate::line::Head;
use crate::trace::{Trace, TraceQueue};
use loop_model::{Call, Entry, Filter, Kind, NoMemory, Post, QueueRecord, Reply, Segment};
use std::alloc::Global;
use std::fmt;
use std::fmt::Write;

/// A number, or the mark where there is none.
#[derive(Clone, Copy)]
struct Maybe(Option<u64>);

impl fmt::Display for Maybe {
    ghost output = { λ s. Some (maybe s.0) };

    fn fmt<W: fmt::Write>(&self, f: &mut fmt::Formatter<W>) -> fmt::Result {
        match self.0 {
            Some(number) => write!(f, "{number}"),
            None => write!(f, "-"),
        }
    }
}

/// One of two words.
fn one_of(first: &'static str, second: &'static str, is_first: bool) -> &'static str
    ensures { result.now ≡ one_of first.now second.now is_first }
{
    if is_first { first } else { second }
}

/// The words of a post.
#[derive(Clone, Copy)]
struct Posted(Post);

impl fmt::Display for Posted {
    ghost output = { λ s. Some (join_with_byte 32 (spelled_words (post_words s.0))) };

    fn fmt<W: fmt::Write>(&self, f: &mut fmt::Formatter<W>) -> fmt::Result {
        let post = self.0;
        let flag = one_of("a", "s", post.asynchronous);
        let slot = match post.slot {
            Some(slot) => Some(u64::from(slot)),
            None => None,
        };
        write!(
            f,
            "{} {} {} {} {} {} {flag} {}",
            post.handler,
            post.what,
            post.arg,
            Maybe(post.obj),
            Maybe(post.callback),
            post.when,
            Maybe(slot)
        )
    }
}

/// The words of a filter.
#[derive(Clone, Copy)]
struct Filtered(Filter);

impl fmt::Display for Filtered {
    ghost output = { λ s. Some (join_with_byte 32 (spelled_words (filter_words s.0))) };

    fn fmt<W: fmt::Write>(&self, f: &mut fmt::Formatter<W>) -> fmt::Result {
        let handler = self.0.handler;
        let obj = Maybe(self.0.obj);
        match self.0.kind {
            Kind::What(what) => write!(f, "{handler} what {what} {obj}"),
            Kind::Callback(callback) => write!(f, "{handler} callback {callback} {obj}"),
            Kind::All => write!(f, "{handler} all {obj}"),
        }
    }
}

/// The words of a call.
#[derive(Clone, Copy)]
struct Called(Call);

impl fmt::Display for Called {
    ghost output = { λ s. Some (join_with_byte 32 (spelled_words (call_words s.0))) };

    fn fmt<W: fmt::Write>(&self, f: &mut fmt::Formatter<W>) -> fmt::Result {
        match self.0 {
            Call::Post(post) => write!(f, "post {}", Posted(post)),
            Call::Barrier { now } => write!(f, "barrier {now}"),
            Call::Unbarrier { token } => write!(f, "unbarrier {token}"),
            Call::Remove(filter) => write!(f, "remove {}", Filtered(filter)),
            Call::Quit { safe, now } => write!(f, "quit {} {now}", one_of("safe", "plain", safe)),
            Call::Next { now } => write!(f, "next {now}"),
            Call::Advance { now } => write!(f, "advance {now}"),
            Call::Halt { now } => write!(f, "halt {now}"),
        }
    }
}

/// The words of a reply.
#[derive(Clone, Copy)]
struct Replied(Reply);

impl fmt::Display for Replied {
    ghost output = { λ s. Some (join_with_byte 32 (spelled_words (reply_words s.0))) };

    fn fmt<W: fmt::Write>(&self, f: &mut fmt::Formatter<W>) -> fmt::Result {
        match self.0 {
            Reply::Accepted { number } => write!(f, "accepted {number}"),
            Reply::Refused { place } => write!(f, "refused {place}"),
            Reply::Token { token } => write!(f, "token {token}"),
            Reply::Unbarriered => write!(f, "unbarriered"),
            Reply::NotPosted => write!(f, "not-posted"),
            Reply::Removed { count } => write!(f, "removed {count}"),
            Reply::QuitDone => write!(f, "quit-done"),
            Reply::AlreadyQuit { place } => write!(f, "already-quit {place}"),
            Reply::NotAllowed => write!(f, "not-allowed"),
            Reply::Dispatched { number } => write!(f, "dispatched {number}"),
            Reply::Disposed => write!(f, "disposed"),
            Reply::Advanced => write!(f, "advanced"),
            Reply::Halted => write!(f, "halted"),
        }
    }
}

fn push_entry(out: &mut String, entry: &Entry) -> Result<(), NoMemory>
    ensures { OnOk result (string_bytes out.new ≡ string_bytes out.old ++ trace_line_text (line_of.Entry entry.now)) }
{
    let call = Called(entry.call);
    let reply = Replied(entry.reply);
    writeln!(out, "{} {} {call} {reply}", entry.sender, entry.seq)?;
    Ok(())
}

fn push_entries(out: &mut String, entries: &[Entry]) -> Result<(), NoMemory>
    ensures { OnOk result
        (string_bytes out.new ≡ string_bytes out.old ++ flat_map trace_line_text (map line_of.Entry entries.now)) }
{
    for entry in entries {
        push_entry(out, entry)?;
    }
    Ok(())
}

/// The line of a queue of a trace.
fn head_of(queue: &TraceQueue) -> Head
    ensures { result ≡ queue_head queue.now (length queue.now.entries) }
{
    Head {
        looper: queue.looper,
        main: queue.main,
        lockstep: queue.lockstep,
        senders: queue.senders,
        count: queue.entries.len() as u64,
    }
}

/// How many entries these parts have. `NoMemory` where no number of 64 bits tells.
fn count_entries(parts: &[Segment]) -> Result<u64, NoMemory>
    ensures { IfOk result (λ count. count ≡ length (entries_of parts.now)) }
{
    let mut count: u64 = 0;
    for part in parts {
        let Some(more) = count.checked_add(part.entries.len() as u64) else {
            return Err(NoMemory)
        };
        count = more;
    }
    Ok(count)
}

/// The line of a queue whose record this is.
fn head_of_record(queue: &QueueRecord) -> Result<Head, NoMemory>
    ensures { IfOk result (λ head. head ≡ queue_head (trace_queue_of queue.now) (length (entries_of queue.now.segments))) }
{
    Ok(Head {
        looper: queue.looper,
        main: queue.main,
        lockstep: queue.lockstep,
        senders: queue.senders,
        count: count_entries(queue.segments.as_slice())?,
    })
}

#[tactic(auto, unfolding(crate::specs::Text::trace_line_text))]
fn push_head(out: &mut String, head: &Head) -> Result<(), NoMemory>
    ensures { OnOk result (string_bytes out.new ≡ string_bytes out.old ++ trace_line_text (line_of.Queue head.now)) }
{
    let side = one_of("main", "side", head.main);
    let mode = one_of("lockstep", "free", head.lockstep);
    writeln!(
        out,
        "queue {} {side} {mode} {} {}",
        head.looper, head.senders, head.count
    )?;
    Ok(())
}

fn push_queues(out: &mut String, queues: &[TraceQueue]) -> Result<(), NoMemory>
    ensures { OnOk result
        (string_bytes out.new ≡ string_bytes out.old ++ flat_map trace_line_text (flat_map queue_lines queues.now)) }
{
    for queue in queues {
        push_head(out, &head_of(queue))?;
        push_entries(out, queue.entries.as_slice())?;
    }
    Ok(())
}

/// The lines of the entries of these parts, in order.
fn push_parts(out: &mut String, parts: &[Segment]) -> Result<(), NoMemory>
    ensures { OnOk result
        (string_bytes out.new ≡ string_bytes out.old ++ flat_map trace_line_text (map line_of.Entry (entries_of parts.now))) }
{
    for part in parts {
        push_entries(out, part.entries.as_slice())?;
    }
    Ok(())
}

fn push_records(out: &mut String, records: &[QueueRecord]) -> Result<(), NoMemory>
    ensures { OnOk result
        (string_bytes out.new ≡ string_bytes out.old ++ flat_map trace_line_text (flat_map queue_lines (map trace_queue_of records.now))) }
{
    for queue in records {
        let head = head_of_record(queue)?;
        push_head(out, &head)?;
        push_parts(out, queue.segments.as_slice())?;
    }
    Ok(())
}

/// The text of the trace whose queues are those of these records, in their order. The histories are not copied. `NoMemory`
/// where there was none.
pub fn print_records(alloc: Global, records: &[QueueRecord]) -> Result<Vec<u8>, NoMemory>
    ensures { IfOk result (λ bytes. bytes.items ≡ trace_text (trace_of records.now)) }
{
    let mut out = String::new(alloc);
    writeln!(out, "trace 1")?;
    push_records(&mut out, records)?;
    writeln!(out, "end")?;
    Ok(out.into_bytes())
}

/// The text of a trace. `NoMemory` where there was none.
pub fn print_trace(alloc: Global, trace: &Trace) -> Result<Vec<u8>, NoMemory>
    ensures { IfOk result (λ bytes. bytes.items ≡ trace_text trace.now) }
{
    let mut out = String::new(alloc);
    writeln!(out, "trace 1")?;
    push_queues(&mut out, trace.queues.as_slice())?;
    writeln!(out, "end")?;
    Ok(out.into_bytes())
}
