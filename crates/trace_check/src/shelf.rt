//! The items that bear labels of one shape.
ghost use Rattle.std.specs.Prelude.{◌≡◌, IfOk, OnOk};
ghost use Rattle.std.specs.Option.{option_map};
ghost use Rattle.trace_check.specs.Labels.{Label as LabelOf, label_of};
ghost use Rattle.trace_check.specs.Shelves.{IsBare, ranks_at, ranks_with, ranks_without};

use crate::label::{Label, Shape, label_asked, label_of};
use loop_model::{Entry, Item, NoMemory};
use std::alloc::Global;
use std::collections::{BTreeMap, BTreeSet};

/// The time of an item and its place among equal times.
pub(crate) type Rank = (u64, u64);

/// For each label that was named, the ranks of the items that bear it.
#[derive(Drop)]
pub(crate) struct Shelf {
    ranks: BTreeMap<Label, BTreeSet<Rank>>,
}

impl Shelf {
    /// No label is named.
    #[tactic(auto, unfolding(crate::specs::Shelves::ranks_at))]
    fn new(alloc: Global) -> Shelf
        ensures { IsBare result }
    {
        Shelf {
            ranks: BTreeMap::new(alloc),
        }
    }

    /// Keeps the items of this label from now on.
    #[tactic(auto, unfolding(crate::specs::Shelves::ranks_at))]
    fn name(&mut self, alloc: Global, label: Label) -> Result<(), NoMemory>
        requires { IsBare self.old }
        ensures { OnOk result (IsBare self.new) }
    {
        match self.ranks.insert(label, BTreeSet::new(alloc)) {
            Ok(_) => Ok(()),
            Err(_) => Err(NoMemory),
        }
    }

    /// Names what the calls of these entries ask for by labels of this shape, so that no later call looks at every item.
    pub(crate) fn named(alloc: Global, shape: Shape, entries: &[Entry]) -> Result<Shelf, NoMemory>
        ensures { IfOk result IsBare }
    {
        let mut shelf = Shelf::new(alloc);
        for entry in entries {
            if let Some(label) = label_asked(shape, &entry.call) {
                shelf.name(alloc, label)?;
            }
        }
        Ok(shelf)
    }

    /// The ranks that are kept for this label, where it was named.
    #[tactic(auto, unfolding(crate::specs::Shelves::ranks_at))]
    pub(crate) fn get(&self, label: Label) -> Option<&BTreeSet<Rank>>
        ensures { option_map (λ s. s.now.keys) result ≡ ranks_at self.now label }
    {
        self.ranks.get(&label)
    }

    /// Puts in the rank of an item, where it bears a label of this shape that was named.
    #[tactic(auto, unfolding(crate::specs::Shelves::ranks_at))]
    pub(crate) fn insert(&mut self, shape: Shape, item: &Item, rank: Rank) -> Result<(), NoMemory>
        ensures { OnOk result
            ((l : LabelOf) → ranks_at self.new l ≡ ranks_with (label_of shape item.now) rank l (ranks_at self.old l)) }
    {
        let Some(label) = label_of(shape, item) else {
            return Ok(());
        };
        let Some(ranks) = self.ranks.get_mut(&label) else {
            return Ok(());
        };
        match ranks.insert(rank) {
            Ok(_) => Ok(()),
            Err(_) => Err(NoMemory),
        }
    }

    /// Takes out the rank of an item, where it bears a label of this shape that was named.
    #[tactic(auto, unfolding(crate::specs::Shelves::ranks_at))]
    pub(crate) fn remove(&mut self, shape: Shape, item: &Item, rank: Rank)
        ensures { (l : LabelOf)
            → ranks_at self.new l ≡ ranks_without (label_of shape item.now) rank l (ranks_at self.old l) }
    {
        let Some(label) = label_of(shape, item) else {
            return;
        };
        let Some(ranks) = self.ranks.get_mut(&label) else {
            return;
        };
        ranks.remove(&rank);
    }
}
