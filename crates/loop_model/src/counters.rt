//! The counters of a queue, and its replies by them and by its items: what the plain queue, the queue itself and the
//! check of a history share.
ghost use Rattle.std.specs.Prelude.{◌≡◌, ◌+◌, ◌<◌, ◌||◌, ◌^◌, List, [], count_by};
ghost use Rattle.std.specs.List.{list_any};
ghost use Rattle.loop_model.specs.declared.item.Item.{Item as ItemOf};
ghost use Rattle.loop_model.specs.Items.{is_just, matches, token_of};
ghost use Rattle.loop_model.specs.Answers.{next_reply};
ghost use Rattle.loop_model.specs.Counters.{left_with, no_counters, noted, setting};
ghost use Rattle.loop_model.specs.Listed.{listed_answer, pick_listed};

use crate::call::Call;
use crate::entry::Entry;
use crate::item::Item;
use crate::post::Filter;
use crate::reply::Reply;

/// The live items of a queue in order, as far as a reply asks for them (this project's profile).
pub trait LiveItems {
    /// The items in order.
    ghost listed: { Self → List ItemOf };

    /// What its calls rest on.
    ghost IsSound: { Self → Type 0 };

    /// Whether a barrier of this token stands in the queue.
    fn has_barrier(&self, token: u64) -> bool
        requires sound { IsSound self.now }
        ensures { result ≡ list_any (λ item. is_just (token_of item) token) (listed self.now) };

    /// How many messages the filter names.
    fn count(&self, filter: &Filter) -> u64
        requires sound { IsSound self.now }
        ensures { result ≡ count_by (matches filter.now) (listed self.now) };

    /// The first eligible message, where it is due at this moment, in milliseconds.
    fn pick(&self, now: u64) -> Option<Item>
        requires sound { IsSound self.now }
        ensures { result ≡ pick_listed (listed self.now) now };
}

/// What the entries of a queue so far have left, beside their number, the counts by sender and the live items
/// (this project's profile).
#[derive(Clone, Copy, Debug, PartialEq, Eq)]
pub struct Counters {
    /// The greatest moment in them, in milliseconds.
    pub time: u64,
    /// How many posts were accepted, which is the number of the next one.
    pub accepted: u64,
    /// How many barriers were posted, which is the token of the next one.
    pub barriers: u64,
    /// The place of the first quit that was done.
    pub quit: Option<u64>,
    /// Whether the queue was disposed of.
    pub disposed: bool,
    /// Whether the queue was halted.
    pub halted: bool,
}

/// The reply to a look for a message, by what is picked and by whether the queue is quitting.
fn next_reply(picked: Option<Item>, quitting: bool) -> Option<Reply>
    ensures { result ≡ next_reply picked quitting }
{
    match picked {
        Some(Item::Post { number, .. }) => Some(Reply::Dispatched { number }),
        Some(Item::Barrier { .. }) => None,
        None if quitting => Some(Reply::Disposed),
        None => None,
    }
}

impl Counters {
    /// No entry went before.
    pub fn new() -> Counters
        ensures { result ≡ no_counters }
    {
        Counters {
            time: 0,
            accepted: 0,
            barriers: 0,
            quit: None,
            disposed: false,
            halted: false,
        }
    }

    /// Counts one more entry, which stands at this place of the history.
    pub fn note(&mut self, place: u64, entry: &Entry)
        requires accepted { self.old.accepted + 1 < 2 ^ 64 }
        requires barriers { self.old.barriers + 1 < 2 ^ 64 }
        ensures { self.new ≡ noted self.old place entry.now }
    {
        if self.quit.is_none() && entry.reply == Reply::QuitDone {
            self.quit = Some(place);
        }
        self.time = self.time.max(entry.call.moment());
        self.accepted += entry.posts();
        self.barriers += entry.barriers();
        self.disposed = self.disposed || entry.reply == Reply::Disposed;
        self.halted = self.halted || entry.reply == Reply::Halted;
    }

    /// Disposed of or halted.
    pub fn is_over(&self) -> bool
        ensures { result ≡ (self.now.disposed || self.now.halted) }
    {
        self.disposed || self.halted
    }

    /// The reply of a queue of one thread to a call, by these live items. None where the call makes no entry, as `answer` of
    /// `plain` says.
    #[tactic(auto, unfolding(crate::specs::Listed::listed_answer))]
    pub fn answer<I: LiveItems>(
        &self,
        main: bool,
        lockstep: bool,
        items: &I,
        call: &Call,
    ) -> Option<Reply>
        requires sound { I.IsSound items.now }
        ensures { result ≡ listed_answer (setting main lockstep) (left_with 0 self.now [] (I.listed items.now)) call.now }
    {
        match *call {
            Call::Post(_) => match self.quit {
                Some(place) => Some(Reply::Refused { place }),
                None => Some(Reply::Accepted {
                    number: self.accepted,
                }),
            },
            Call::Barrier { .. } => Some(Reply::Token {
                token: self.barriers,
            }),
            Call::Unbarrier { token } => {
                if items.has_barrier(token) {
                    Some(Reply::Unbarriered)
                } else {
                    Some(Reply::NotPosted)
                }
            }
            Call::Remove(filter) => {
                let count = items.count(&filter);
                Some(Reply::Removed { count })
            }
            Call::Quit { .. } if main => Some(Reply::NotAllowed),
            Call::Quit { .. } => match self.quit {
                Some(place) => Some(Reply::AlreadyQuit { place }),
                None => Some(Reply::QuitDone),
            },
            Call::Next { .. } if self.is_over() => None,
            Call::Next { now } => next_reply(items.pick(now), self.quit.is_some()),
            Call::Advance { now } => {
                let stays = self.is_over() || now <= self.time || !lockstep;
                if stays || items.pick(self.time).is_some() {
                    None
                } else {
                    Some(Reply::Advanced)
                }
            }
            Call::Halt { now } => {
                if self.is_over() || !main || items.pick(now).is_some() {
                    None
                } else {
                    Some(Reply::Halted)
                }
            }
        }
    }
}
