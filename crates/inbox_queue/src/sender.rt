// A sender of an inbox.
ghost use Rattle.std.specs.Prelude.{◌≡◌, length};
ghost use Rattle.inbox_queue.specs.Handed.{with_post, MatchPut};

use crate::inbox::{Inbox, InboxPass};
use crate::parcel::Parcel;
use crate::rule::Puts;
use loop_model::Post;
use std::marker::Model;
use std::sync::Wait;

/// What a sender is answered.
#[derive(Clone, Copy, Debug, PartialEq, Eq)]
pub enum Put {
    /// The post lies in the inbox. So many posts of this sender lay there before it.
    Put { index: u64 },
    /// No memory was found. The post comes back, and nothing was put.
    NoMemory(Post),
}

/// One sender's way into an inbox. Contracts see it as the list of posts that it put, with its inbox and its number.
#[derive(Drop)]
pub struct InboxSender {
    pub(crate) pass: InboxPass,
    pub(crate) number: u32,
    pub(crate) count: u64,
}

impl Model for InboxSender {
    ghost use Rattle.inbox_queue.specs.Carried.{posts_of};
    ghost use Rattle.inbox_queue.specs.Passes.{known, home, SendsBy};
    ghost use Rattle.inbox_queue.specs.Handed.{PutPosts};

    ghost Value = { PutPosts };

    ghost view = { λ s. record { inbox = home s.pass; number = s.number; put = posts_of (known s.pass) } };

    ghost invariant = { λ s. SendsBy s.pass s.number s.count };
}

impl InboxSender {
    /// Its number among the senders of the inbox, counted from 0 (this project's profile).
    pub fn number(&self) -> u32
        ensures { result ≡ self.now.number }
    {
        self.number
    }

    /// How many posts it has put (this project's profile).
    pub fn count(&self) -> u64
        ensures { result ≡ length self.now.put }
    {
        self.count
    }

    /// Puts a post into the inbox, and answers how many this sender had put before it. NoMemory where none was found, or where
    /// this sender's count is at its type's end: then nothing is put (this project's profile).
    pub fn put<R: Wait>(&mut self, rt: &R, inbox: &Inbox, post: Post) -> Put
        requires { self.old.inbox ≡ inbox.now }
        ensures { MatchPut result (λ index. (index ≡ length self.old.put) × (self.new ≡ with_post self.old post))
            (λ back. (back ≡ post) × (self.new ≡ self.old)) }
    {
        if self.count == u64::MAX {
            return Put::NoMemory(post);
        }
        let index = self.count;
        let parcel = Parcel {
            from: self.number,
            index,
            post,
        };
        match inbox.queue.push_as::<Puts, R>(rt, &mut self.pass, parcel) {
            Ok(()) => {
                self.count += 1;
                Put::Put { index }
            }
            Err(_) => Put::NoMemory(post),
        }
    }
}
