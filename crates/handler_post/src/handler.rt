//! The forms of sending and removing.
ghost use Rattle.std.specs.Prelude.{◌≡◌, None, false, true};
ghost use Rattle.loop_model.specs.declared.post.Kind.TheVariants.{What, Callback, All};
ghost use Rattle.loop_model.specs.Posts.{moment_after};
ghost use Rattle.handler_post.specs.Forms.{message_by, callback_by, filter_by};
ghost use Rattle.handler_post.specs.Ways.{IsReady, ByWay};
ghost use Rattle.handler_post.specs.Sends.{Sends, Erases, Has};

use crate::way::{Erased, Sent, Way};
use loop_model::{Filter, Kind, Post};
use message_pool::Payload;
use queue_state::Recorder;
use std::alloc::Global;
use std::sync::Wait;

/// A receiver of messages on one looper, by its number there (`android.os.Handler` of the Android API reference).
///
/// A handler that is asynchronous marks each message that it sends, and barriers let those pass. Each sending answers as `Sent`
/// says, and each removal as `Erased`; the methods in brackets are those of the reference's `Handler`.
#[derive(Clone, Copy, Debug, PartialEq, Eq)]
pub struct Handler {
    /// Its number on its looper.
    pub id: u32,
    /// Whether each message that it sends is asynchronous.
    pub asynchronous: bool,
}

impl Handler {
    /// The handler of this number (`new Handler(looper)`).
    pub const fn new(id: u32) -> Handler
        ensures { result ≡ record { id = id; asynchronous = false } }
    {
        Handler {
            id,
            asynchronous: false,
        }
    }

    /// The handler of this number, each of whose messages barriers let pass (`createAsync`).
    pub const fn new_async(id: u32) -> Handler
        ensures { result ≡ record { id = id; asynchronous = true } }
    {
        let asynchronous = true;
        Handler { id, asynchronous }
    }

    fn message(&self, what: u32, arg: u32, obj: Option<u64>, when: u64) -> Post
        ensures { result ≡ message_by self.now what arg obj when }
    {
        Post {
            handler: self.id,
            what,
            arg,
            obj,
            callback: None,
            when,
            asynchronous: self.asynchronous,
            slot: None,
        }
    }

    fn callback(&self, callback: u64, token: Option<u64>, when: u64) -> Post
        ensures { result ≡ callback_by self.now callback token when }
    {
        Post {
            callback: Some(callback),
            ..self.message(0, 0, token, when)
        }
    }

    fn filter(&self, kind: Kind, obj: Option<u64>) -> Filter
        ensures { result ≡ filter_by self.now kind obj }
    {
        Filter {
            handler: self.id,
            kind,
            obj,
        }
    }

    /// A message of this handler, which is due once it is sent (`obtainMessage`). Its fields may be set before that, as its object
    /// by `Post { obj: Some(object), ..handler.obtain(what, arg) }`.
    pub fn obtain(&self, what: u32, arg: u32) -> Post
        ensures { result ≡ message_by self.now what arg None 0 }
    {
        self.message(what, arg, None, 0)
    }

    /// A callback of this handler, which is due once it is posted (`Message.obtain` of a `Runnable`). Its object is the token by which
    /// it may be removed.
    pub fn runnable(&self, callback: u64) -> Post
        ensures { result ≡ callback_by self.now callback None 0 }
    {
        self.callback(callback, None, 0)
    }

    /// This handler's messages with this `what`, for a removal or a question.
    pub fn messages(&self, what: u32) -> Filter
        ensures { result ≡ filter_by self.now (What what) None }
    {
        self.filter(Kind::What(what), None)
    }

    /// This handler's posts of this callback, for a removal or a question.
    pub fn callbacks(&self, callback: u64) -> Filter
        ensures { result ≡ filter_by self.now (Callback callback) None }
    {
        self.filter(Kind::Callback(callback), None)
    }

    /// All of this handler's messages and callbacks, for a removal or a question.
    pub fn all(&self) -> Filter
        ensures { result ≡ filter_by self.now All None }
    {
        self.filter(Kind::All, None)
    }

    /// Sends a message that is due at once, where `now` is the time in milliseconds (`sendMessage`).
    pub fn send_message<R: Wait, E: Recorder, P: Payload>(
        &self,
        rt: &R,
        alloc: Global,
        way: &mut Way<E, P>,
        what: u32,
        arg: u32,
        obj: Option<u64>,
        now: u64,
    ) -> Sent
        requires { IsReady way.old }
        ensures { ByWay (Sends (message_by self.now what arg obj now)) way.old way.new result }
    {
        way.send(rt, alloc, &self.message(what, arg, obj, now))
    }

    /// Sends a message that is due at `when`, in milliseconds (`sendMessageAtTime`).
    pub fn send_at<R: Wait, E: Recorder, P: Payload>(
        &self,
        rt: &R,
        alloc: Global,
        way: &mut Way<E, P>,
        what: u32,
        arg: u32,
        obj: Option<u64>,
        when: u64,
    ) -> Sent
        requires { IsReady way.old }
        ensures { ByWay (Sends (message_by self.now what arg obj when)) way.old way.new result }
    {
        way.send(rt, alloc, &self.message(what, arg, obj, when))
    }

    /// Sends a message that is due at `when`, in milliseconds, and that barriers let pass in any case
    /// (`Message.setAsynchronous`).
    pub fn send_async_at<R: Wait, E: Recorder, P: Payload>(
        &self,
        rt: &R,
        alloc: Global,
        way: &mut Way<E, P>,
        what: u32,
        arg: u32,
        when: u64,
    ) -> Sent
        requires { IsReady way.old }
        ensures { ByWay (Sends (record (message_by self.now what arg None when) { asynchronous = true })) way.old way.new result }
    {
        let post = Post {
            asynchronous: true,
            ..self.message(what, arg, None, when)
        };
        way.send(rt, alloc, &post)
    }

    /// Sends a message that is due `delay` milliseconds after `now`, or at the last moment where that lies behind it
    /// (`sendMessageDelayed`; to stop at the last moment is this project's profile).
    pub fn send_delayed<R: Wait, E: Recorder, P: Payload>(
        &self,
        rt: &R,
        alloc: Global,
        way: &mut Way<E, P>,
        what: u32,
        arg: u32,
        obj: Option<u64>,
        now: u64,
        delay: u64,
    ) -> Sent
        requires { IsReady way.old }
        ensures { ByWay (Sends (message_by self.now what arg obj (moment_after now delay))) way.old way.new result }
    {
        let when = now.saturating_add(delay);
        way.send(rt, alloc, &self.message(what, arg, obj, when))
    }

    /// Sends a message that is due `delay` milliseconds after `now`, or at the last moment where that lies behind it, and that
    /// barriers let pass in any case (`Message.setAsynchronous`, `sendMessageDelayed`).
    pub fn send_async_delayed<R: Wait, E: Recorder, P: Payload>(
        &self,
        rt: &R,
        alloc: Global,
        way: &mut Way<E, P>,
        what: u32,
        arg: u32,
        now: u64,
        delay: u64,
    ) -> Sent
        requires { IsReady way.old }
        ensures { ByWay (Sends (record (message_by self.now what arg None (moment_after now delay)) { asynchronous = true })) way.old way.new result }
    {
        let when = now.saturating_add(delay);
        self.send_async_at(rt, alloc, way, what, arg, when)
    }

    /// Sends a message that goes to the head of the queue (`sendMessageAtFrontOfQueue`).
    pub fn send_front<R: Wait, E: Recorder, P: Payload>(
        &self,
        rt: &R,
        alloc: Global,
        way: &mut Way<E, P>,
        what: u32,
        arg: u32,
        obj: Option<u64>,
    ) -> Sent
        requires { IsReady way.old }
        ensures { ByWay (Sends (message_by self.now what arg obj 0)) way.old way.new result }
    {
        way.send(rt, alloc, &self.message(what, arg, obj, 0))
    }

    /// Posts a callback that is due at once, where `now` is the time in milliseconds (`post`).
    pub fn post_callback<R: Wait, E: Recorder, P: Payload>(
        &self,
        rt: &R,
        alloc: Global,
        way: &mut Way<E, P>,
        callback: u64,
        now: u64,
    ) -> Sent
        requires { IsReady way.old }
        ensures { ByWay (Sends (callback_by self.now callback None now)) way.old way.new result }
    {
        way.send(rt, alloc, &self.callback(callback, None, now))
    }

    /// Posts a callback that is due `delay` milliseconds after `now`, or at the last moment where that lies behind it
    /// (`postDelayed`; to stop at the last moment is this project's profile).
    pub fn post_callback_delayed<R: Wait, E: Recorder, P: Payload>(
        &self,
        rt: &R,
        alloc: Global,
        way: &mut Way<E, P>,
        callback: u64,
        now: u64,
        delay: u64,
    ) -> Sent
        requires { IsReady way.old }
        ensures { ByWay (Sends (callback_by self.now callback None (moment_after now delay))) way.old way.new result }
    {
        let when = now.saturating_add(delay);
        way.send(rt, alloc, &self.callback(callback, None, when))
    }

    /// Posts a callback that is due at `when`, in milliseconds, with a token by which it may be removed (`postAtTime`).
    pub fn post_at_time<R: Wait, E: Recorder, P: Payload>(
        &self,
        rt: &R,
        alloc: Global,
        way: &mut Way<E, P>,
        callback: u64,
        token: Option<u64>,
        when: u64,
    ) -> Sent
        requires { IsReady way.old }
        ensures { ByWay (Sends (callback_by self.now callback token when)) way.old way.new result }
    {
        way.send(rt, alloc, &self.callback(callback, token, when))
    }

    /// Posts a callback that is due `delay` milliseconds after `now`, or at the last moment where that lies behind it, with a token
    /// by which it may be removed (`postDelayed` with a token).
    pub fn post_delayed_with<R: Wait, E: Recorder, P: Payload>(
        &self,
        rt: &R,
        alloc: Global,
        way: &mut Way<E, P>,
        callback: u64,
        token: Option<u64>,
        now: u64,
        delay: u64,
    ) -> Sent
        requires { IsReady way.old }
        ensures { ByWay (Sends (callback_by self.now callback token (moment_after now delay))) way.old way.new result }
    {
        let when = now.saturating_add(delay);
        self.post_at_time(rt, alloc, way, callback, token, when)
    }

    /// Posts a callback that goes to the head of the queue (`postAtFrontOfQueue`).
    pub fn post_at_front<R: Wait, E: Recorder, P: Payload>(
        &self,
        rt: &R,
        alloc: Global,
        way: &mut Way<E, P>,
        callback: u64,
    ) -> Sent
        requires { IsReady way.old }
        ensures { ByWay (Sends (callback_by self.now callback None 0)) way.old way.new result }
    {
        way.send(rt, alloc, &self.callback(callback, None, 0))
    }

    /// Removes this handler's messages with this `what`, and with this object where one is named (`removeMessages`). A posted
    /// callback has the `what` 0.
    pub fn remove_messages<R: Wait, E: Recorder, P: Payload>(
        &self,
        rt: &R,
        way: &mut Way<E, P>,
        what: u32,
        obj: Option<u64>,
    ) -> Erased
        requires { IsReady way.old }
        ensures { ByWay (Erases (filter_by self.now (What what) obj)) way.old way.new result }
    {
        way.remove(rt, &self.filter(Kind::What(what), obj))
    }

    /// Removes this handler's posts of this callback, and with this object where one is named (`removeCallbacks`).
    pub fn remove_callbacks<R: Wait, E: Recorder, P: Payload>(
        &self,
        rt: &R,
        way: &mut Way<E, P>,
        callback: u64,
        obj: Option<u64>,
    ) -> Erased
        requires { IsReady way.old }
        ensures { ByWay (Erases (filter_by self.now (Callback callback) obj)) way.old way.new result }
    {
        way.remove(rt, &self.filter(Kind::Callback(callback), obj))
    }

    /// Removes all of this handler's messages and callbacks, or those with this object where one is named
    /// (`removeCallbacksAndMessages`).
    pub fn remove_all<R: Wait, E: Recorder, P: Payload>(
        &self,
        rt: &R,
        way: &mut Way<E, P>,
        obj: Option<u64>,
    ) -> Erased
        requires { IsReady way.old }
        ensures { ByWay (Erases (filter_by self.now All obj)) way.old way.new result }
    {
        way.remove(rt, &self.filter(Kind::All, obj))
    }

    /// Whether a message of this handler with this `what`, and with this object where one is named, stands in the queue
    /// (`hasMessages`). It makes no entry.
    pub fn has_messages<R: Wait, E: Recorder, P: Payload>(
        &self,
        rt: &R,
        way: &mut Way<E, P>,
        what: u32,
        obj: Option<u64>,
    ) -> bool
        requires { IsReady way.old }
        ensures { ByWay (Has (filter_by self.now (What what) obj)) way.old way.new result }
    {
        way.has(rt, &self.filter(Kind::What(what), obj))
    }

    /// Whether a post of this callback by this handler, and with this token where one is named, stands in the queue
    /// (`hasCallbacks`). It makes no entry.
    pub fn has_callbacks<R: Wait, E: Recorder, P: Payload>(
        &self,
        rt: &R,
        way: &mut Way<E, P>,
        callback: u64,
        token: Option<u64>,
    ) -> bool
        requires { IsReady way.old }
        ensures { ByWay (Has (filter_by self.now (Callback callback) token)) way.old way.new result }
    {
        way.has(rt, &self.filter(Kind::Callback(callback), token))
    }

    /// Whether any message or callback of this handler, and with this object where one is named, stands in the queue
    /// (`hasMessagesOrCallbacks`). It makes no entry.
    pub fn has_any<R: Wait, E: Recorder, P: Payload>(
        &self,
        rt: &R,
        way: &mut Way<E, P>,
        obj: Option<u64>,
    ) -> bool
        requires { IsReady way.old }
        ensures { ByWay (Has (filter_by self.now All obj)) way.old way.new result }
    {
        way.has(rt, &self.filter(Kind::All, obj))
    }
}
