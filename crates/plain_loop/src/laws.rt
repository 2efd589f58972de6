// A law of values, for whoever builds on them. The function does nothing; its contract is the law.
ghost use Rattle.plain_loop.specs.Values.{ValueIsSent};

use message_pool::Payload;

/// A value that is known by a number is the one that was sent with that number, whichever senders know of it: what is seen of the two values
/// is the same. A line knows so of a value that it sent, and a handler of the value that it is lent (`IsValueOf`; this project's profile).
pub fn value_is_sent<P: Payload>()
    ensures { ValueIsSent P.content }
{}
