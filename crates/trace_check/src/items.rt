//! The items that stand in a queue, in order.
ghost use Rattle.std.specs.Prelude.{◌≡◌, ◌+◌, ℕ, Bool, [], false, find, slice_get, count_by, filter, IsTrue, IfOk, IfSome, OnOk};
ghost use Rattle.std.specs.Option.{option_map};
ghost use Rattle.std.specs.BTreeMap as tree;
ghost use Rattle.std.specs.BTreeMap.{is_at};
ghost use Rattle.std.specs.Map.{remove_entry};
ghost use Rattle.loop_model.specs.declared.item.Item.{Item as ItemOf};
ghost use Rattle.loop_model.specs.Entries.{ends};
ghost use Rattle.loop_model.specs.Items.{is_asynchronous, matches};
ghost use Rattle.loop_model.specs.Listed.{first_listed, insert_item, kept_by};
ghost use Rattle.trace_check.specs.Ranks.{AreApart, AreIndexed, AreRanked, IsOneEnded, StandsAtRank, listed, rank_of};
ghost use Rattle.trace_check.specs.Shelves.{by_rank, keys_passing};

use crate::label::{Shape, filter_label, filter_shape, label_ended};
use crate::shelf::Rank;
use crate::shelves::Shelves;
use loop_model::{Call, Entry, Filter, Item, LiveItems, NoMemory, Reply};
use std::alloc::Global;
use std::collections::{BTreeMap, BTreeSet};

/// The live items by rank, so that they stand in order, and the ranks of those that the calls of the history ask for.
#[derive(Drop)]
pub(crate) struct Items {
    by_rank: BTreeMap<Rank, Item>,
    shelves: Shelves,
}

/// The rank of an item of this time that is put in at this place of the history: items at time 0 stand before those that
/// were put in earlier, and all others behind those of their time.
fn rank_of(when: u64, place: u64) -> Rank
    ensures { result ≡ rank_of when place }
{
    if when == 0 {
        (0, u64::MAX - place)
    } else {
        (when, place)
    }
}

/// Whether the entry may end an item.
fn may_end(entry: &Entry) -> bool
    ensures { result ≡ false → (x : ItemOf) → ends entry.now x ≡ false }
{
    match entry.call {
        Call::Post(_) => false,
        Call::Barrier { .. } => false,
        Call::Advance { .. } => false,
        Call::Halt { .. } => false,
        Call::Remove(_) => true,
        Call::Next { .. } => true,
        Call::Unbarrier { .. } => match entry.reply {
            Reply::NotPosted => false,
            _ => true,
        },
        Call::Quit { .. } => match entry.reply {
            Reply::AlreadyQuit { .. } => false,
            Reply::NotAllowed => false,
            _ => true,
        },
    }
}

impl Items {
    /// No items. What the calls of these entries ask for will be found without a look at the others.
    pub(crate) fn new(alloc: Global, entries: &[Entry]) -> Result<Items, NoMemory>
        ensures none { IfOk result (λ s. listed s ≡ []) }
        ensures ranked { IfOk result (AreRanked 0) }
        ensures indexed { IfOk result AreIndexed }
    {
        let shelves = Shelves::named(alloc, entries)?;
        Ok(Items {
            by_rank: BTreeMap::new(alloc),
            shelves,
        })
    }

    /// Puts a new item into its place.
    pub(crate) fn insert(&mut self, place: u64, item: Item) -> Result<(), NoMemory>
        requires ranked { AreRanked place self.old }
        requires indexed { AreIndexed self.old }
        ensures listed { OnOk result (listed self.new ≡ insert_item item (listed self.old)) }
        ensures ranked { OnOk result (AreRanked (place + 1) self.new) }
        ensures indexed { OnOk result (AreIndexed self.new) }
    {
        let rank = rank_of(item.when(), place);
        self.shelves.insert(&item, rank)?;
        match self.by_rank.insert(rank, item) {
            Ok(_) => Ok(()),
            Err(_) => Err(NoMemory),
        }
    }

    /// Takes out the item at this rank.
    fn take_out(&mut self, rank: Rank, item: &Item)
        requires known { StandsAtRank self.old (rank, item.now) }
        requires indexed { AreIndexed self.old }
        ensures entries { self.new.by_rank.entries ≡ remove_entry (is_at (by_rank rank)) self.old.by_rank.entries }
        ensures indexed { AreIndexed self.new }
    {
        self.shelves.remove(item, rank);
        self.by_rank.remove(&rank);
    }

    /// The item of the first of these ranks: where they are those of the items that pass some test, the first of them.
    fn first_on(&self, ranks: &BTreeSet<Rank>) -> Option<(Rank, Item)>
        requires { AreIndexed self.now }
        ensures found { (p : ItemOf → Bool) → ranks.now.keys ≡ keys_passing p self.now.by_rank.entries
            → option_map (λ e. e.1) result ≡ find p (listed self.now) }
        ensures known { IfSome result (StandsAtRank self.now) }
    {
        let Some(rank) = ranks.first() else {
            return None;
        };
        let Some(item) = self.by_rank.get(rank) else {
            return None;
        };
        Some((*rank, *item))
    }

    /// The first item that the entry ends, by a look at each item.
    fn look_for_ended(&self, entry: &Entry) -> Option<(Rank, Item)>
        ensures { result ≡ find (λ e. ends entry.now e.1) self.now.by_rank.entries }
    {
        for (rank, item) in self.by_rank.iter() {
            if entry.ends(item) {
                return Some((*rank, *item));
            }
        }
        None
    }

    /// The first asynchronous message, by a look at each item.
    fn look_for_asynchronous(&self) -> Option<(Rank, Item)>
        ensures { result ≡ find (λ e. is_asynchronous e.1) self.now.by_rank.entries }
    {
        for (rank, item) in self.by_rank.iter() {
            if item.is_asynchronous() {
                return Some((*rank, *item));
            }
        }
        None
    }

    /// The first asynchronous message with its rank.
    fn first_asynchronous(&self) -> Option<(Rank, Item)>
        requires { AreIndexed self.now }
        ensures item { option_map (λ e. e.1) result ≡ find is_asynchronous (listed self.now) }
        ensures known { IfSome result (StandsAtRank self.now) }
    {
        match self.shelves.of(Shape::Asynchronous).get((0, 0, 0)) {
            Some(ranks) => self.first_on(ranks),
            None => self.look_for_asynchronous(),
        }
    }

    /// The item at the head with its rank.
    fn head(&self) -> Option<(Rank, Item)>
        ensures item { option_map (λ e. e.1) result ≡ slice_get (listed self.now) 0 }
        ensures known { IfSome result (StandsAtRank self.now) }
    {
        match self.by_rank.first_key_value() {
            Some((rank, item)) => Some((*rank, *item)),
            None => None,
        }
    }

    /// The head, or behind a barrier the first asynchronous message, with its rank.
    fn first_ranked(&self) -> Option<(Rank, Item)>
        requires { AreIndexed self.now }
        ensures item { option_map (λ e. e.1) result ≡ first_listed (listed self.now) }
        ensures known { IfSome result (StandsAtRank self.now) }
    {
        let Some((rank, item)) = self.head() else {
            return None;
        };
        if item.is_barrier() {
            return self.first_asynchronous();
        }
        Some((rank, item))
    }

    /// The head, or behind a barrier the first asynchronous message.
    fn first(&self) -> Option<Item>
        requires { AreIndexed self.now }
        ensures { result ≡ first_listed (listed self.now) }
    {
        match self.first_ranked() {
            Some((_, item)) => Some(item),
            None => None,
        }
    }

    /// How many messages the filter names, by a look at each item.
    fn count_all(&self, filter: &Filter) -> u64
        ensures { result ≡ count_by (matches filter.now) (listed self.now) }
    {
        self.by_rank
            .values()
            .filter(|item| item.is_named_by(filter))
            .count() as u64
    }

    /// One of the items that the entry ends, where there is one. Where all of them stand at the end, or bear a label that was
    /// named, no other item is looked at.
    fn one_ended(&self, entry: &Entry) -> Option<(Rank, Item)>
        requires { AreIndexed self.now }
        ensures { IsOneEnded self.now entry.now result }
    {
        if let Some((shape, label)) = label_ended(entry) {
            if let Some(ranks) = self.shelves.of(shape).get(label) {
                return self.first_on(ranks);
            }
        }
        if let Some((rank, item)) = self.by_rank.last_key_value() {
            if entry.ends(item) {
                return Some((*rank, *item));
            }
        }
        self.look_for_ended(entry)
    }

    /// Takes out the message that is next, where the entry hands out that one.
    fn take_first(&mut self, entry: &Entry) -> bool
        requires apart { AreApart (listed self.old) }
        requires indexed { AreIndexed self.old }
        ensures taken { IsTrue result → listed self.new ≡ kept_by entry.now.call entry.now.reply (listed self.old) }
        ensures left { result ≡ false → self.new ≡ self.old }
        ensures ranked { (n : ℕ) → AreRanked n self.old → AreRanked n self.new }
        ensures indexed { AreIndexed self.new }
    {
        let Call::Next { .. } = entry.call else {
            return false;
        };
        let Reply::Dispatched { number } = entry.reply else {
            return false;
        };
        let Some((rank, item)) = self.first_ranked() else {
            return false;
        };
        if !item.has_number(number) {
            return false;
        }
        self.take_out(rank, &item);
        true
    }

    /// Takes out what the entry ends, one by one.
    fn take_ended(&mut self, entry: &Entry)
        requires { AreIndexed self.old }
        ensures listed { listed self.new ≡ kept_by entry.now.call entry.now.reply (listed self.old) }
        ensures ranked { (n : ℕ) → AreRanked n self.old → AreRanked n self.new }
        ensures indexed { AreIndexed self.new }
    {
        while let Some((rank, item)) = self.one_ended(entry) {
            self.take_out(rank, &item);
        }
    }

    /// Takes out what the entry ends.
    pub(crate) fn remove(&mut self, entry: &Entry)
        requires apart { AreApart (listed self.old) }
        requires indexed { AreIndexed self.old }
        ensures listed { listed self.new ≡ kept_by entry.now.call entry.now.reply (listed self.old) }
        ensures ranked { (n : ℕ) → AreRanked n self.old → AreRanked n self.new }
        ensures indexed { AreIndexed self.new }
    {
        if !may_end(entry) {
            return;
        }
        if self.take_first(entry) {
            return;
        }
        self.take_ended(entry);
    }
}

impl LiveItems for Items {
    ghost listed = { listed };

    ghost IsSound = { AreIndexed };

    fn has_barrier(&self, token: u64) -> bool {
        match self.shelves.of(Shape::Token).get((0, token, 0)) {
            Some(ranks) => match self.first_on(ranks) {
                Some(_) => true,
                None => false,
            },
            None => self.by_rank.values().any(|item| item.has_token(token)),
        }
    }

    fn count(&self, filter: &Filter) -> u64 {
        let shape = filter_shape(filter);
        match self.shelves.of(shape).get(filter_label(filter)) {
            Some(ranks) => ranks.len() as u64,
            None => self.count_all(filter),
        }
    }

    fn pick(&self, now: u64) -> Option<Item> {
        match self.first() {
            Some(item) if item.when() <= now => Some(item),
            _ => None,
        }
    }
}
