//! What a long run uses again, and what it hands out.
use super::{Case, ONE, Wants, joined};
use dashboard_cli::*;
use loop_model::{Call, Entry, Segment};
use std::alloc::{AllocError, Global};

/// Fifty-one posts at once.
fn posts(script: &mut Vec<u8>) -> Result<(), AllocError> {
    for _ in 0..51 {
        script.extend_from_slice(b"0 post 0 1 0\n")?;
    }
    Ok(())
}

/// The slots of a history's posts, in order.
fn slots(alloc: Global, history: &[Entry]) -> Result<Vec<Option<u32>>, AllocError> {
    let mut slots = Vec::new(alloc);
    for entry in history {
        if let Call::Post(post) = entry.call {
            slots.push(post.slot)?;
        }
    }
    Ok(slots)
}

/// Whether fifty posts have the fifty slots of the pool, in some order, and the one behind them has none.
fn are_all_slots(slots: &[Option<u32>]) -> bool {
    (0..50).all(|slot| slots.contains(&Some(slot))) && slots.last() == Some(&None)
}

/// Adds fifty-one posts, and as many more once these are dispatched; and a history of so many posts that it comes in parts.
pub(super) fn add<'a>(alloc: Global, cases: &mut Vec<Case<'a>>) -> Result<(), AllocError> {
    let mut twice = joined(alloc, ONE, "at 1\n")?;
    posts(&mut twice)?;
    twice.extend_from_slice(b"at 2\n")?;
    posts(&mut twice)?;
    twice.extend_from_slice(b"end 2\n")?;
    cases.push(Case::new("run", twice, Status::Ok, Wants::UsedAgain))?;
    let mut many = joined(alloc, ONE, "at 0\n")?;
    for _ in 0..41 {
        posts(&mut many)?;
    }
    many.extend_from_slice(b"end 0\n")?;
    cases.push(Case::new("run", many, Status::Ok, Wants::Parts))?;
    Ok(())
}

/// The parts of the first queue's history.
fn parts(report: &Report) -> Option<&[Segment]> {
    let queue = report.queues.as_slice().first()?;
    Some(queue.segments.as_slice())
}

/// Whether what was posted again has the slots again that the first messages gave back.
pub(super) fn are_used_again(alloc: Global, report: &Report) -> Result<bool, AllocError> {
    let Some([part, ..]) = parts(report) else {
        return Ok(false);
    };
    let slots = slots(alloc, part.entries.as_slice())?;
    if slots.len() != 102 {
        return Ok(false);
    }
    let (first, second) = slots.as_slice().split_at(51);
    Ok(are_all_slots(first) && are_all_slots(second))
}

/// Whether the queue with many entries handed them out after its rounds: the last part has the halt alone.
pub(super) fn has_parts(report: &Report) -> bool {
    let Some([first, last]) = parts(report) else {
        return false;
    };
    let whole = first.entries.len() == 4_182 && last.base.length == 4_182;
    whole && last.entries.len() == 1
}
