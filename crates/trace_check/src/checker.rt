//! Whether a queue's history is one that a queue could have.
ghost use Rattle.std.specs.Prelude.{◌≡◌, ◌↔◌, IsTrue, Some};
ghost use Rattle.loop_model.specs.Legal.{FitsTime, CallFitsTime, is_control};
ghost use Rattle.trace_check.specs.Checking.{AllFirst, AllLegal, IsCheckedFirst, IsCheckedLegal, IsExplained, IsFaultBy, IsSenderFault, past_base, checked_of};
ghost use Rattle.trace_check.specs.Ranks.{AreIndexed};

use crate::counts::Counts;
use crate::fault::Fault;
use crate::past::Past;
use crate::trace::TraceQueue;
use loop_model::{Call, Entry, Reply};
use std::alloc::Global;

/// What a check answers.
#[derive(Clone, Copy, Debug, PartialEq, Eq)]
pub enum Checked {
    /// Each entry has the reply and the moment of a queue of one thread, and the senders number their entries.
    Legal,
    /// The entry at this place, counted from 0, is the first that has not.
    First { place: u64 },
    /// No memory was found.
    NoMemory,
}

/// What an explanation answers.
#[derive(Clone, Copy, Debug, PartialEq, Eq)]
pub enum Explained {
    /// As `Checked::Legal`.
    Legal,
    /// The entry at this place, counted from 0, is the first bad one, and this is wrong with it.
    First { place: u64, fault: Fault },
    /// No memory was found.
    NoMemory,
}

/// Whether a moment fits the time: in lockstep it is the time, and else not before it.
fn is_moment(lockstep: bool, time: u64, now: u64) -> bool
    ensures { IsTrue result ↔ FitsTime lockstep time now }
{
    if lockstep { now == time } else { time <= now }
}

/// Whether the moment of the call fits the time.
fn is_timely(lockstep: bool, time: u64, call: &Call) -> bool
    ensures { IsTrue result ↔ CallFitsTime lockstep time call.now }
{
    match *call {
        Call::Barrier { now } => is_moment(lockstep, time, now),
        Call::Quit { now, .. } => is_moment(lockstep, time, now),
        Call::Next { now } => is_moment(lockstep, time, now),
        Call::Halt { now } => is_moment(lockstep, time, now),
        Call::Advance { now } => time <= now,
        Call::Post(_) => true,
        Call::Unbarrier { .. } => true,
        Call::Remove(_) => true,
    }
}

/// Whether the controller alone makes such a call.
fn is_control(call: &Call) -> bool
    ensures { result ≡ is_control call.now }
{
    match call {
        Call::Advance { .. } => true,
        Call::Halt { .. } => true,
        Call::Post(_) => false,
        Call::Barrier { .. } => false,
        Call::Unbarrier { .. } => false,
        Call::Remove(_) => false,
        Call::Quit { .. } => false,
        Call::Next { .. } => false,
    }
}

/// What is wrong with the entry's sender, which has made so many entries, or with its number. The reply and the moment fit.
fn sender_fault(queue: &TraceQueue, made: u64, entry: &Entry) -> Option<Fault>
    ensures { IsSenderFault result queue.now made entry.now }
{
    if entry.sender >= queue.senders {
        return Some(Fault::Sender);
    }
    if entry.seq != made {
        return Some(Fault::Number { wanted: made });
    }
    if is_control(&entry.call) {
        if entry.sender + 1 != queue.senders {
            return Some(Fault::Control);
        }
    }
    None
}

/// Whether both are this reply.
fn is_reply(answer: &Option<Reply>, reply: &Reply) -> bool
    ensures { IsTrue result ↔ answer.now ≡ Some reply.now }
{
    match answer {
        Some(answer) => answer == reply,
        None => false,
    }
}

/// What is wrong with the entry, where anything is.
fn fault_of(queue: &TraceQueue, past: &Past, made: u64, entry: &Entry) -> Option<Fault>
    requires { AreIndexed past.now.items }
    ensures { IsFaultBy result queue.now (past_base past.now) made entry.now }
{
    let wanted = past.answer(queue.main, queue.lockstep, &entry.call);
    if !is_reply(&wanted, &entry.reply) {
        return Some(Fault::Reply { wanted });
    }
    let time = past.time();
    if !is_timely(queue.lockstep, time, &entry.call) {
        return Some(Fault::Moment { time });
    }
    sender_fault(queue, made, entry)
}

/// What `check` answers of the queue's history, and of the first bad entry what is wrong with it: the reply that it should have
/// had, or where its reply is the right one, what else. The cost is that of `check`.
pub fn explain(alloc: Global, queue: &TraceQueue) -> Explained
    ensures legal { IsCheckedLegal (checked_of result) queue.now }
    ensures all_legal { AllLegal (checked_of result) queue.now }
    ensures first { IsCheckedFirst (checked_of result) queue.now }
    ensures all_first { AllFirst (checked_of result) queue.now }
    ensures fault { IsExplained result queue.now }
{
    let entries = queue.entries.as_slice();
    let Ok(past) = Past::new(alloc, entries) else {
        return Explained::NoMemory;
    };
    let mut past = past;
    let mut counts = Counts::new(alloc);
    for (place, entry) in entries.iter().enumerate() {
        if let Some(fault) = fault_of(queue, &past, counts.of(entry.sender), entry) {
            return Explained::First {
                place: place as u64,
                fault,
            };
        }
        let Ok(()) = counts.add(entry.sender) else {
            return Explained::NoMemory;
        };
        let Ok(()) = past.add(entry) else {
            return Explained::NoMemory;
        };
    }
    Explained::Legal
}

/// Whether the queue's history is legal and its senders number their entries: each reply is the one that a queue of one
/// thread gives after the entries before it (the rules of AOSP's `MessageQueue`), each moment fits the time, each sender's
/// entries count up from 0, and the last sender alone, the controller, moves the time or halts. `First` with the place of
/// the least entry with which that ends. `NoMemory` where there was none. For h entries it costs about h log h.
pub fn check(alloc: Global, queue: &TraceQueue) -> Checked
    ensures legal { IsCheckedLegal result queue.now }
    ensures all_legal { AllLegal result queue.now }
    ensures first { IsCheckedFirst result queue.now }
    ensures all_first { AllFirst result queue.now }
{
    match explain(alloc, queue) {
        Explained::Legal => Checked::Legal,
        Explained::First { place, .. } => Checked::First { place },
        Explained::NoMemory => Checked::NoMemory,
    }
}
