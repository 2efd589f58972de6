// The ways in which an entry ends messages.

ghost use Rattle.std.specs.Prelude.{◌≡◌};
ghost use Rattle.fate_ledger.specs.Endings.{ending_of};

use loop_model::{Call, Entry, Filter, Reply};

/// What an entry ends: the messages of a filter, one message by its number, all of them, those later than a moment, or none.
#[derive(Clone, Copy, Debug, PartialEq, Eq)]
pub enum Ending {
    /// A removal, of the messages of this filter.
    Removal(Filter),
    /// A dispatch, of the message of this number.
    Dispatch(u64),
    /// All messages: a quit that is not safe, or a disposal.
    Everything,
    /// A safe quit at this moment in milliseconds: the messages that are later.
    SafeQuit(u64),
    /// None.
    Nothing,
}

/// What the entry ends.
pub(crate) fn ending_of(entry: &Entry) -> Ending
    ensures { result ≡ ending_of entry.now.call entry.now.reply }
{
    match entry.call {
        Call::Remove(filter) => Ending::Removal(filter),
        Call::Next { .. } => match entry.reply {
            Reply::Dispatched { number } => Ending::Dispatch(number),
            Reply::Disposed => Ending::Everything,
            _ => Ending::Nothing,
        },
        Call::Quit { safe, now } => {
            if entry.reply != Reply::QuitDone {
                return Ending::Nothing;
            }
            if safe {
                Ending::SafeQuit(now)
            } else {
                Ending::Everything
            }
        }
        _ => Ending::Nothing,
    }
}
