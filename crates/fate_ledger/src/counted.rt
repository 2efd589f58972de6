// The fates of a history, with how many there are of each.

ghost use Rattle.std.specs.Prelude.{◌≡◌, ◌+◌, count_by, length};
ghost use Rattle.loop_model.specs.Fates.{is_dispatched, is_removed, is_dropped, is_stranded, is_queued};
ghost use Rattle.fate_ledger.specs.Counts.{is_fate};

use loop_model::{Fate, Sequence};

/// One fate for each accepted post of a history, by number, and how many there are of each.
#[derive(Debug, Drop)]
pub struct Fates {
    /// The fates, by the number of the message.
    pub list: Sequence<Fate>,
    /// How many were dispatched.
    pub dispatched: u64,
    /// How many were removed.
    pub removed: u64,
    /// How many a quit dropped.
    pub dropped: u64,
    /// How many a disposal stranded.
    pub stranded: u64,
    /// How many are queued still.
    pub queued: u64,
}

impl Fates {
    /// The fates with their counts.
    #[tactic(auto, using(loop_model::proofs::FateLaws::counts_add_up))]
    pub(crate) fn counted(list: Vec<Fate>) -> Fates
        ensures list { result.list ≡ list.items }
        ensures dispatched { result.dispatched ≡ count_by is_dispatched list.items }
        ensures removed { result.removed ≡ count_by is_removed list.items }
        ensures dropped { result.dropped ≡ count_by is_dropped list.items }
        ensures stranded { result.stranded ≡ count_by is_stranded list.items }
        ensures queued { result.queued ≡ count_by is_queued list.items }
        ensures together { result.dispatched + result.removed + result.dropped + result.stranded + result.queued ≡ length list.items }
    {
        Fates {
            dispatched: count(&list, Fate::Dispatched),
            removed: count(&list, Fate::Removed),
            dropped: count(&list, Fate::Dropped),
            stranded: count(&list, Fate::Stranded),
            queued: count(&list, Fate::Queued),
            list: Sequence::from_vec(list),
        }
    }
}

/// How many posts had this fate.
fn count(list: &[Fate], wanted: Fate) -> u64
    ensures { result ≡ count_by (is_fate wanted) list.now }
{
    list.iter().filter(|fate| is_fate(fate, wanted)).count() as u64
}

/// Whether it is the wanted fate.
fn is_fate(fate: &Fate, wanted: Fate) -> bool
    ensures { result ≡ is_fate wanted fate.now }
{
    match wanted {
        Fate::Queued => matches!(fate, Fate::Queued),
        Fate::Dispatched => matches!(fate, Fate::Dispatched),
        Fate::Removed => matches!(fate, Fate::Removed),
        Fate::Dropped => matches!(fate, Fate::Dropped),
        Fate::Stranded => matches!(fate, Fate::Stranded),
    }
}
