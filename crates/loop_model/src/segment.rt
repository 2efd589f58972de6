// A part of a history.

use crate::base::Base;
use crate::entry::Entry;
use crate::sequence::Sequence;

/// Entries, with what they start from.
#[derive(Debug, Drop)]
pub struct Segment {
    /// What they start from.
    pub base: Base,
    /// The entries, in order.
    pub entries: Sequence<Entry>,
}
