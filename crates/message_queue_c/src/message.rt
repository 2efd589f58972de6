// Messages and filters as C has them.
ghost use Rattle.std.specs.Prelude.{◌≡◌};
ghost use Rattle.message_queue_c.specs.Messages.{named_post, fields_of, filter_by, named, number_or_0};

use loop_model::{Filter, Kind, Post};

/// A message as C has it. Times are milliseconds. An object and a callback are known by a number, and are there where their
/// flag says so.
#[repr(C)]
#[derive(Clone, Copy, Debug, PartialEq, Eq)]
pub struct MqMessage {
    /// When it is due, in milliseconds; 0 for a post at the front.
    pub when: u64,
    /// The object, where `has_obj` is set.
    pub obj: u64,
    /// The callback, where `has_callback` is set.
    pub callback: u64,
    /// The handler that it is for.
    pub handler: u32,
    /// The user's code.
    pub what: u32,
    /// The argument (`arg1`).
    pub arg: u32,
    /// Whether an object goes along.
    pub has_obj: bool,
    /// Whether it is the post of a callback.
    pub has_callback: bool,
    /// Whether barriers let it pass (`isAsynchronous`).
    pub asynchronous: bool,
}

/// Which messages of a handler are meant: all of them, or those with this `what` where `by_what` is set, or else the posts of
/// this callback where `by_callback` is set; and only those with this object where `has_obj` is set.
#[repr(C)]
#[derive(Clone, Copy, Debug, PartialEq, Eq)]
pub struct MqFilter {
    /// The object, where `has_obj` is set.
    pub obj: u64,
    /// The callback, where `by_callback` is set.
    pub callback: u64,
    /// The handler whose messages are meant.
    pub handler: u32,
    /// The `what`, where `by_what` is set.
    pub what: u32,
    /// Whether only those with the `what` are meant.
    pub by_what: bool,
    /// Whether only posts of the callback are meant; read where `by_what` is not set.
    pub by_callback: bool,
    /// Whether only those with the object are meant.
    pub has_obj: bool,
}

fn named(has: bool, number: u64) -> Option<u64>
    ensures { result ≡ named has number }
{
    if has {
        return Some(number);
    }
    None
}

fn number_or_0(number: Option<u64>) -> u64
    ensures { result ≡ number_or_0 number }
{
    match number {
        Some(number) => number,
        None => 0,
    }
}

impl MqMessage {
    /// The post that these fields name.
    pub(crate) fn post(&self) -> Post
        ensures { result ≡ named_post self.now }
    {
        Post {
            handler: self.handler,
            what: self.what,
            arg: self.arg,
            obj: named(self.has_obj, self.obj),
            callback: named(self.has_callback, self.callback),
            when: self.when,
            asynchronous: self.asynchronous,
            slot: None,
        }
    }

    /// The fields of a post.
    pub(crate) fn of(post: &Post) -> MqMessage
        ensures { result ≡ fields_of post.now }
    {
        MqMessage {
            when: post.when,
            obj: number_or_0(post.obj),
            callback: number_or_0(post.callback),
            handler: post.handler,
            what: post.what,
            arg: post.arg,
            has_obj: post.obj.is_some(),
            has_callback: post.callback.is_some(),
            asynchronous: post.asynchronous,
        }
    }
}

impl MqFilter {
    /// The filter that these fields name.
    pub(crate) fn filter(&self) -> Filter
        ensures { result ≡ filter_by self.now }
    {
        Filter {
            handler: self.handler,
            kind: self.kind(),
            obj: named(self.has_obj, self.obj),
        }
    }

    fn kind(&self) -> Kind
        ensures { result ≡ (filter_by self.now).kind }
    {
        if self.by_what {
            return Kind::What(self.what);
        }
        if self.by_callback {
            return Kind::Callback(self.callback);
        }
        Kind::All
    }
}
