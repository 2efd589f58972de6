// From a history to its fates.

ghost use Rattle.std.specs.Prelude.{◌≡◌, ◌+◌, IfOk, count_by, length, reverse};
ghost use Rattle.loop_model.specs.Chain.{entries_of};
ghost use Rattle.loop_model.specs.Fates.{fates, is_dispatched, is_removed, is_dropped, is_stranded, is_queued};

use crate::counted::Fates;
use crate::ledger::Ledger;
use loop_model::{Entry, Fate, NoMemory, Segment};
use std::alloc::Global;

/// What became of each accepted post of a history, which is all entries of these parts: what the first entry that ended it says,
/// or that it is still queued. It is refused only when out of memory. A rule of this project's profile.
pub fn fates(alloc: Global, segments: &[Segment]) -> Result<Fates, NoMemory>
    ensures list { IfOk result (λ f. f.list ≡ fates (entries_of segments.now)) }
    ensures dispatched { IfOk result (λ f. f.dispatched ≡ count_by is_dispatched (fates (entries_of segments.now))) }
    ensures removed { IfOk result (λ f. f.removed ≡ count_by is_removed (fates (entries_of segments.now))) }
    ensures dropped { IfOk result (λ f. f.dropped ≡ count_by is_dropped (fates (entries_of segments.now))) }
    ensures stranded { IfOk result (λ f. f.stranded ≡ count_by is_stranded (fates (entries_of segments.now))) }
    ensures queued { IfOk result (λ f. f.queued ≡ count_by is_queued (fates (entries_of segments.now))) }
    ensures together { IfOk result (λ f. f.dispatched + f.removed + f.dropped + f.stranded + f.queued ≡ length f.list) }
{
    let entries = all_entries(alloc, segments)?;
    let list = fate_list(alloc, entries.as_slice())?;
    Ok(Fates::counted(list))
}

/// The entries of all parts, one part behind the other.
fn all_entries(alloc: Global, segments: &[Segment]) -> Result<Vec<Entry>, NoMemory>
    ensures { IfOk result (λ all. all.items ≡ entries_of segments.now) }
{
    let mut all = Vec::new(alloc);
    for segment in segments {
        let Ok(()) = all.extend_from_slice(segment.entries.as_slice()) else {
            return Err(NoMemory);
        };
    }
    Ok(all)
}

/// The fates of the accepted posts, by number.
fn fate_list(alloc: Global, entries: &[Entry]) -> Result<Vec<Fate>, NoMemory>
    ensures { IfOk result (λ list. list.items ≡ fates entries.now) }
{
    let mut ledger = Ledger::new(alloc, entries)?;
    let mut place = entries.len();
    while place > 0 {
        place -= 1;
        ledger.next(entries, place)?;
    }
    Ok(from_last(ledger.fates))
}

/// The same fates from the last to the first.
fn from_last(mut fates: Vec<Fate>) -> Vec<Fate>
    ensures { result.items ≡ reverse fates.items }
{
    fates.as_mut_slice().reverse();
    fates
}
