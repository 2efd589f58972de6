// A ledger that goes through a history once, from its last entry to its first.

ghost use Rattle.std.specs.Prelude.{◌≡◌, ◌+◌, ◌<◌, IfOk, OnOk, drop, reverse, length, slice_get};
ghost use Rattle.loop_model.specs.Fates.{fate_of};
ghost use Rattle.loop_model.specs.Posts.{accepted_by};
ghost use Rattle.fate_ledger.specs.Ledgers.{StandsAtPlace, fates_from, posts_of};

use crate::behind::Behind;
use crate::ending::ending_of;
use loop_model::{Call, Entry, Fate, NoMemory, Post};
use std::alloc::Global;

/// What the entries from a place on end, the number of the first message that they post, and the fates of these
/// messages, the last one first.
#[derive(Drop)]
pub struct Ledger {
    /// What the entries behind end.
    pub behind: Behind,
    /// How many posts stand before.
    pub number: u64,
    /// The fates of the posts behind, the last one first.
    pub fates: Vec<Fate>,
}

impl Ledger {
    /// The ledger at the end of a history.
    pub fn new(alloc: Global, entries: &[Entry]) -> Result<Ledger, NoMemory>
        ensures { IfOk result (λ l. StandsAtPlace entries.now (length entries.now) l) }
    {
        let number = posts(entries);
        Ok(Ledger {
            behind: Behind::new(alloc, number, entries.len())?,
            number,
            fates: Vec::new(alloc),
        })
    }

    /// Goes on to the entry at this place. After running out of memory the ledger is not to be used.
    pub fn next(&mut self, entries: &[Entry], place: usize) -> Result<(), NoMemory>
        requires within { place < length entries.now }
        requires follows { StandsAtPlace entries.now (place + 1) self.old }
        ensures { OnOk result (StandsAtPlace entries.now place self.new) }
    {
        self.post(entries, place)?;
        self.behind.add(place, ending_of(&entries[place]))
    }

    /// Adds the fate of the message that the entry at this place posts, where it posts one.
    fn post(&mut self, entries: &[Entry], place: usize) -> Result<(), NoMemory>
        requires within { place < length entries.now }
        requires follows { StandsAtPlace entries.now (place + 1) self.old }
        ensures behind { self.new.behind ≡ self.old.behind }
        ensures number { OnOk result (self.new.number + posts_of (drop place entries.now) ≡ posts_of entries.now) }
        ensures fates { OnOk result (reverse self.new.fates.items ≡ fates_from self.new.number (drop place entries.now)) }
    {
        let Some(post) = posted(&entries[place]) else {
            return Ok(());
        };
        self.number -= 1;
        let end = self.behind.first_end(self.number, &post);
        let Ok(()) = self.fates.push(fate_at(entries, end)) else {
            return Err(NoMemory);
        };
        Ok(())
    }
}

/// How many messages the entries post.
fn posts(entries: &[Entry]) -> u64
    ensures { result ≡ posts_of entries.now }
{
    let mut count = 0;
    for entry in entries {
        count += entry.posts();
    }
    count
}

/// What the entry at this place makes of a message that it ends, or that the message is queued where there is none.
fn fate_at(entries: &[Entry], place: usize) -> Fate
    ensures { result ≡ fate_of (slice_get entries.now place) }
{
    match entries.get(place) {
        Some(entry) => entry.fate(),
        None => Fate::Queued,
    }
}

/// The post that the entry adds.
fn posted(entry: &Entry) -> Option<Post>
    ensures { result ≡ accepted_by entry.now.call entry.now.reply }
{
    match entry.call {
        Call::Post(post) if entry.reply.is_accepted() => Some(post),
        _ => None,
    }
}
