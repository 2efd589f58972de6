// What removals name, as keys that have an order.

ghost use Rattle.std.specs.Prelude.{◌≡◌};
ghost use Rattle.fate_ledger.specs.Keys.{removal_key};

use loop_model::{Filter, Kind};

/// What a filter names: the handler, and the what, the callback and the object, where it names them.
#[derive(Clone, Copy, Debug, PartialEq, Eq, PartialOrd, Ord)]
pub struct RemovalKey {
    /// The handler.
    pub handler: u32,
    /// The `what`, where it names one.
    pub what: Option<u32>,
    /// The callback, where it names one.
    pub callback: Option<u64>,
    /// The object, where it names one.
    pub obj: Option<u64>,
}

/// What the filter names.
pub(crate) fn key_of(filter: &Filter) -> RemovalKey
    ensures { result ≡ removal_key filter.now }
{
    let (what, callback) = match filter.kind {
        Kind::What(what) => (Some(what), None),
        Kind::Callback(callback) => (None, Some(callback)),
        Kind::All => (None, None),
    };
    RemovalKey {
        handler: filter.handler,
        what,
        callback,
        obj: filter.obj,
    }
}
