//! What dispatches the messages of a looper.
ghost use Rattle.std.specs.Prelude.{◌≡◌, ℕ, ◌≤◌, List, [], ◌∷◌, ◌++◌, Option, Some, None, IfSome};
ghost use Rattle.loop_model.specs.declared.journal.Act.{Act};
ghost use Rattle.loop_model.specs.declared.journal.Route.TheVariants.{Callback, Intercepted, Handled};
ghost use Rattle.loop_model.specs.declared.call.Call.TheVariants.{Next};
ghost use Rattle.loop_model.specs.declared.reply.Reply.TheVariants.{Disposed};
ghost use Rattle.loop_model.specs.declared.entry.Entry.{Entry};
ghost use Rattle.message_slot.specs.Letter.{number_in};
ghost use Rattle.message_pool.specs.Passes.{Claimed};
ghost use Rattle.message_pool.specs.Values.{without_value};
ghost use Rattle.looper_run.specs.Holding.{Workplace, held};
ghost use Rattle.looper_run.specs.Acts.{IsQuietAct};
ghost use Rattle.looper_run.specs.Asked.{Asked, Pulse, Listen, with_asked};
ghost use Rattle.looper_run.specs.Carried.{Carries, KeepsLent, unasked, unawaited};
ghost use Rattle.looper_run.specs.Ready.{ServesBetween, RestsBetween, HasToRoute, HasRouted, LeavesTaken};
ghost use Rattle.looper_run.specs.Tests.{IsLent, Unless, Intercepts};

use crate::own::Own;
use message_pool::{Payload, PoolClaim};
use message_slot::Message;
use queue_state::Recorder;

/// How a call of a dispatcher went.
#[derive(Clone, Copy, Debug, PartialEq, Eq)]
pub enum Did {
    /// The message was taken.
    Yes,
    /// The callback object left the message to the handler. Elsewhere it counts as Yes.
    No,
    /// The run is given up.
    NoMemory,
}

/// The code of the handlers of a looper. A message with a callback runs that; of another the handler's callback object is
/// asked, and the handler itself handles what that declines, as in `dispatchMessage` of the Android API reference's
/// `Handler`. Moments are in milliseconds. What it is lent may make entries other than looks for a message, and it may
/// append Vsync and Paint acts. `before`, `pulse` and `listen` are this project's profile.
pub trait Dispatcher {
    /// Where the entries of its looper's queue go.
    type Record: Recorder;

    /// What the messages of its looper's queue carry; `()` where nothing is wanted.
    type Value: Payload;

    /// The queues and pools that it works on.
    ghost Serves: { Self → Workplace → Type 0 };

    /// Data of the dispatcher's own kind, which its calls leave as it is.
    ghost Origin: { Type 0 };

    ghost origin: { Self → Origin };

    /// How often its calls rang the bell by the looper's poster, modulo 2 to the 64.
    ghost nudges: { Self → ℕ };

    /// What it was asked at the starts of rounds, where it tells that.
    ghost asked: { Self → Option (List Asked) };

    /// What holds, between two dispatches, of the looper's sender number, of what it has seen of its queue's history, and
    /// of its journal's acts.
    ghost Meets: { Self → ℕ → List Entry → List Act → Type 0 };

    /// What it awaits: the dispatch of the message of this number, which `before` was called with, or none.
    ghost Awaits: { Self → Option ℕ → Type 0 };

    /// What it holds of the message that `before` was lent, by the claim that this had. By default that is nothing. The calls that route the
    /// message are told that this is the claim which the looper's poster saw accepted with the message's number.
    ghost Took: { Self → Option Claimed → Type 0 } = { λ d claim. Unit {0} };

    /// Called with the number of each message, counted from 0, before it is dispatched. It is lent the message: a value that this carries
    /// it takes out here, by `take_value` of message_pool, or leaves it to be dropped with the message. All else of it stays.
    fn before(&mut self, number: u64, m: &mut Message<PoolClaim<Self::Value>>)
        requires number { number ≡ number_in m.old.item }
        requires awaits { Awaits self.old None }
        ensures rest { without_value m.new ≡ without_value m.old }
        ensures awaits { Awaits self.new (Some number) }
        ensures took { Took self.new m.old.claim }
        ensures carries { Carries Serves origin nudges asked unawaited Meets self.old self.new };

    /// Called once at the start of each round, where a pulse that was asked for is delivered. Only NoMemory counts as an answer.
    fn pulse(&mut self, own: &mut Own<Self::Record, Self::Value>, now: u64) -> Did
        requires ready { ServesBetween Serves Awaits Meets self.old (held own.old) }
        ensures keeps { KeepsLent Serves origin nudges unasked IsLent self.old self.new own.old own.new }
        ensures asked { Unless result (asked self.new ≡ with_asked (asked self.old) (Pulse now ∷ [])) }
        ensures rests { Unless result (RestsBetween Awaits Meets self.new (held own.new)) };

    /// Tells a listener of the events on a descriptor, and answers its new mask: INPUT 1, OUTPUT 2, ERROR 4, and with 0 it
    /// is told no more. None where memory ran out, and then the run is given up.
    fn listen(&mut self, fd: u32, events: u32, listener: u32) -> Option<u32>
        ensures mask { IfSome result (λ mask. mask ≤ 7) }
        ensures asked { IfSome result (λ mask. asked self.new ≡ with_asked (asked self.old)
            (Listen (record { fd = fd; events = events; listener = listener; mask = mask }) ∷ [])) }
        ensures carries { Carries Serves origin nudges unasked Awaits Meets self.old self.new };

    /// Runs the idle handler of this number, and answers whether it is kept (`queueIdle` of the Android API reference's
    /// `MessageQueue.IdleHandler`); `keep` is what it was added with. None where memory ran out, and then the run is given up.
    fn idle(&mut self, id: u32, keep: bool) -> Option<bool>
        ensures carries { Carries Serves origin nudges asked Awaits Meets self.old self.new };

    /// Runs the callback of a message that has one. Only NoMemory counts as an answer.
    fn run_callback(
        &mut self,
        own: &mut Own<Self::Record, Self::Value>,
        id: u64,
        m: &Message<PoolClaim<Self::Value>>,
        now: u64,
    ) -> Did
        requires ready { HasToRoute Serves Awaits Took Meets self.old (held own.old) m.now now (Some id) }
        ensures keeps { KeepsLent Serves origin nudges asked IsLent self.old self.new own.old own.new }
        ensures routed { Unless result (HasRouted Awaits Meets self.new (held own.new) m.now now (Callback id)) };

    /// Asks the handler's callback object, which answers No where the handler itself is to handle the message.
    fn intercept(
        &mut self,
        own: &mut Own<Self::Record, Self::Value>,
        m: &Message<PoolClaim<Self::Value>>,
        now: u64,
    ) -> Did
        requires ready { HasToRoute Serves Awaits Took Meets self.old (held own.old) m.now now None }
        ensures keeps { KeepsLent Serves origin nudges asked IsLent self.old self.new own.old own.new }
        ensures routed { Intercepts result (HasRouted Awaits Meets self.new (held own.new) m.now now Intercepted)
            (LeavesTaken Awaits Took Meets self.old self.new (held own.old) (held own.new) m.now now) };

    /// Handles a message that has no callback and was not intercepted. Only NoMemory counts as an answer.
    fn handle(
        &mut self,
        own: &mut Own<Self::Record, Self::Value>,
        m: &Message<PoolClaim<Self::Value>>,
        now: u64,
    ) -> Did
        requires ready { HasToRoute Serves Awaits Took Meets self.old (held own.old) m.now now None }
        ensures keeps { KeepsLent Serves origin nudges asked IsLent self.old self.new own.old own.new }
        ensures routed { Unless result (HasRouted Awaits Meets self.new (held own.new) m.now now Handled) };

    /// The test stays true where another sender makes an entry.
    ghost others: { (d : Self) (s : ℕ) (es : List Entry) (e : Entry) (acts : List Act) → ¬ (e.sender ≡ s) → Meets d s es acts → Meets d s (es ++ e ∷ []) acts };

    /// It stays true where the looper's look ends the queue.
    ghost disposal: { (d : Self) (s : ℕ) (es : List Entry) (e : Entry) (now : ℕ) (acts : List Act)
        → e.sender ≡ s → e.call ≡ Next now → e.reply ≡ Disposed → Meets d s es acts → Meets d s (es ++ e ∷ []) acts };

    /// It stays true where an idle handler ran, or a listener was told of an event.
    ghost quiet: { (d : Self) (s : ℕ) (es : List Entry) (a : Act) (acts : List Act) → IsQuietAct a → Meets d s es acts → Meets d s es (acts ++ a ∷ []) };
}
