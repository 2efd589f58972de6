//! A message.
ghost use Rattle.std.specs.Prelude.{◌≡◌, Some, None};
ghost use Rattle.loop_model.specs.Items.{when_of, is_barrier, is_just, matches, token_of as item_token};
ghost use Rattle.message_slot.specs.Letter.{blank, cleared, posted, numbered, number_in, post_of, slot_by, with_slot};
ghost use Rattle.message_slot.specs.Fields.{handler_of, what_of, arg_of, obj_of, callback_of, is_sent_asynchronous, token_or_0};

use crate::claim::Claim;
use loop_model::{Filter, Item, Post};
use std::marker::Model;

/// A message (`android.os.Message`) is cleared, a post whose slot is that of its claim, or a barrier with its time and token.
///
/// Contracts see it as the item that it is in a queue, and its claim. A cleared message shows no target and every
/// number 0.
#[derive(Drop)]
pub struct Message<K: Claim> {
    item: Option<Item>,
    claim: Option<K>,
}

impl<K: Claim> Model for Message<K> {
    ghost use Rattle.message_slot.specs.Letter.{Letter, item_in, slot_by};

    ghost Value = { Letter K };

    ghost view = { λ m. record { item = item_in (slot_by K.number m.claim) m.item; claim = m.claim } };
}

impl<K: Claim> Message<K> {
    /// A cleared message without a claim, as a new `Message` of the Android API reference is.
    pub fn blank() -> Message<K>
        ensures { result ≡ blank }
    {
        Message {
            item: None,
            claim: None,
        }
    }

    /// Makes it this post, with its time in milliseconds, but for the slot, which is always that of its claim (this project's
    /// profile). It has the number 0 until a queue accepts it.
    pub fn set_post(&mut self, p: &Post)
        ensures { self.new ≡ record { item = posted (slot_by K.number self.old.claim) p.now; claim = self.old.claim } }
    {
        self.item = Some(Item::Post {
            number: 0,
            post: *p,
        });
    }

    /// Makes it a barrier with this time, in milliseconds, and this token (`postSyncBarrier` of AOSP's `MessageQueue`).
    pub fn set_barrier(&mut self, when: u64, token: u64)
        ensures { self.new ≡ record { item = Item.Barrier token when; claim = self.old.claim } }
    {
        self.item = Some(Item::Barrier { token, when });
    }

    /// Clears all but the claim (`recycle` of the Android API reference's `Message`).
    pub fn clear(&mut self)
        ensures { self.new ≡ record { item = cleared; claim = self.old.claim } }
    {
        self.item = None;
    }

    /// Numbers a post that a queue accepts. A barrier and a cleared message stay as they are (this project's profile).
    pub fn set_number(&mut self, number: u64)
        ensures { self.new ≡ record { item = numbered number self.old.item; claim = self.old.claim } }
    {
        if let Some(item) = self.item {
            self.item = Some(with_number(item, number));
        }
    }

    /// Puts a claim into it, and answers the one that stood there before, or None (this project's profile).
    pub fn put_claim(&mut self, claim: K) -> Option<K>
        ensures before { result ≡ self.old.claim }
        ensures claim { self.new.claim ≡ Some claim }
        ensures item { self.new.item ≡ with_slot (K.number claim) self.old.item }
    {
        self.claim.replace(claim)
    }

    /// Takes the claim out and answers it, or None where it has none (this project's profile).
    pub fn take_claim(&mut self) -> Option<K>
        ensures before { result ≡ self.old.claim }
        ensures claim { self.new.claim ≡ None }
        ensures item { self.new.item ≡ with_slot None self.old.item }
    {
        self.claim.take()
    }

    /// What it is in a queue. A cleared message is shown as a barrier with time and token 0.
    pub fn item(&self) -> Item
        ensures { result ≡ self.now.item }
    {
        match self.item {
            Some(item) => with_slot(item, self.slot()),
            None => Item::Barrier { token: 0, when: 0 },
        }
    }

    /// The number of an accepted post, else 0 (this project's profile).
    pub fn number(&self) -> u64
        ensures { result ≡ number_in self.now.item }
    {
        match &self.item {
            Some(Item::Post { number, .. }) => *number,
            Some(Item::Barrier { .. }) => 0,
            None => 0,
        }
    }

    /// The fields as they were posted. A barrier and a cleared message show blank ones.
    pub fn as_post(&self) -> Post
        ensures { result ≡ post_of self.now.item }
    {
        match self.item() {
            Item::Post { post, .. } => post,
            Item::Barrier { .. } => BLANK,
        }
    }

    /// The handler that a post is for (`getTarget`). A barrier and a cleared message have none.
    pub fn handler(&self) -> Option<u32>
        ensures { result ≡ handler_of self.now.item }
    {
        match &self.item {
            Some(Item::Post { post, .. }) => Some(post.handler),
            Some(Item::Barrier { .. }) => None,
            None => None,
        }
    }

    /// The user's code of a post (`what`), else 0.
    pub fn what(&self) -> u32
        ensures { result ≡ what_of self.now.item }
    {
        match &self.item {
            Some(Item::Post { post, .. }) => post.what,
            Some(Item::Barrier { .. }) => 0,
            None => 0,
        }
    }

    /// The argument of a post (`arg1`), else 0.
    pub fn arg(&self) -> u32
        ensures { result ≡ arg_of self.now.item }
    {
        match &self.item {
            Some(Item::Post { post, .. }) => post.arg,
            Some(Item::Barrier { .. }) => 0,
            None => 0,
        }
    }

    /// The identity of a post's object (`obj`), where it has one.
    pub fn obj(&self) -> Option<u64>
        ensures { result ≡ obj_of self.now.item }
    {
        match &self.item {
            Some(Item::Post { post, .. }) => post.obj,
            Some(Item::Barrier { .. }) => None,
            None => None,
        }
    }

    /// The identity of a post's callback (`getCallback`), where it has one.
    pub fn callback(&self) -> Option<u64>
        ensures { result ≡ callback_of self.now.item }
    {
        match &self.item {
            Some(Item::Post { post, .. }) => post.callback,
            Some(Item::Barrier { .. }) => None,
            None => None,
        }
    }

    /// The time of a post or of a barrier in milliseconds (`getWhen`), else 0.
    pub fn when(&self) -> u64
        ensures { result ≡ when_of self.now.item }
    {
        match &self.item {
            Some(Item::Post { post, .. }) => post.when,
            Some(Item::Barrier { when, .. }) => *when,
            None => 0,
        }
    }

    /// Whether a barrier lets a post pass (`isAsynchronous`). False of a barrier and a cleared message.
    pub fn asynchronous(&self) -> bool
        ensures { result ≡ is_sent_asynchronous self.now.item }
    {
        match &self.item {
            Some(Item::Post { post, .. }) => post.asynchronous,
            Some(Item::Barrier { .. }) => false,
            None => false,
        }
    }

    /// The token of a barrier (AOSP keeps it in `arg1`), else 0.
    pub fn token(&self) -> u64
        ensures { result ≡ token_or_0 self.now.item }
    {
        match &self.item {
            Some(Item::Post { .. }) => 0,
            Some(Item::Barrier { token, .. }) => *token,
            None => 0,
        }
    }

    /// Whether it is a barrier, as a cleared message is shown too.
    pub fn is_barrier(&self) -> bool
        ensures { result ≡ is_barrier self.now.item }
    {
        match &self.item {
            Some(Item::Post { .. }) => false,
            Some(Item::Barrier { .. }) => true,
            None => true,
        }
    }

    /// Whether it is the barrier of this token. A cleared message is shown as one with token 0.
    pub fn has_token(&self, token: u64) -> bool
        ensures { result ≡ is_just (item_token self.now.item) token }
    {
        match &self.item {
            Some(Item::Post { .. }) => false,
            Some(Item::Barrier { token: its, .. }) => *its == token,
            None => token == 0,
        }
    }

    /// Whether it is a post that the filter names.
    pub fn is_named_by(&self, filter: &Filter) -> bool
        ensures { result ≡ matches filter.now self.now.item }
    {
        match &self.item {
            Some(Item::Post { post, .. }) => filter.matches(post),
            Some(Item::Barrier { .. }) => false,
            None => false,
        }
    }

    /// The slot of its claim, or None where it has none. A post has the very slot of its claim.
    pub fn slot(&self) -> Option<u32>
        ensures slot { result ≡ slot_by K.number self.now.claim }
        ensures formed { with_slot result self.now.item ≡ self.now.item }
    {
        match &self.claim {
            Some(claim) => claim.slot(),
            None => None,
        }
    }
}

/// The fields of a message that is no post.
const BLANK: Post = Post {
    handler: 0,
    what: 0,
    arg: 0,
    obj: None,
    callback: None,
    when: 0,
    asynchronous: false,
    slot: None,
};

/// The item with this slot, where it is a post.
fn with_slot(item: Item, slot: Option<u32>) -> Item
    ensures { result ≡ with_slot slot item }
{
    match item {
        Item::Post { number, mut post } => {
            post.slot = slot;
            Item::Post { number, post }
        }
        barrier => barrier,
    }
}

/// The item with this number, where it is a post.
fn with_number(item: Item, number: u64) -> Item
    ensures { result ≡ numbered number item }
{
    match item {
        Item::Post { post, .. } => Item::Post { number, post },
        barrier => barrier,
    }
}
