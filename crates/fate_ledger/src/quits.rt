// The safe quits that stand behind a place of a history.

ghost use Rattle.std.specs.Prelude.{◌≡◌, [], OnOk};
ghost use Rattle.fate_ledger.specs.Quits.{AreQuitsRising, IsBoundAt, first_quit, IsAddedBefore};

use loop_model::NoMemory;
use std::alloc::Global;

/// A safe quit: its moment in milliseconds, and its place in the history.
#[derive(Clone, Copy, Debug, PartialEq, Eq)]
pub struct SafeQuit {
    /// Its moment, in milliseconds.
    pub now: u64,
    /// Its place in the history.
    pub place: usize,
}

/// The safe quits that no earlier one outdoes, by rising moment. The last of them stands first in the history.
#[derive(Drop)]
pub struct SafeQuits {
    /// Those that are earlier in time than all that stand before them, in rising order.
    pub list: Vec<SafeQuit>,
}

impl SafeQuits {
    /// No quits.
    pub(crate) fn new(alloc: Global) -> SafeQuits
        ensures { result.list.items ≡ [] }
    {
        SafeQuits {
            list: Vec::new(alloc),
        }
    }

    /// The place of the first quit that was made before the moment, or `end` where none was.
    pub(crate) fn first_before(&self, moment: u64, end: usize) -> usize
        requires { AreQuitsRising self.now.list.items }
        ensures { result ≡ first_quit moment end self.now.list.items }
    {
        let count = count_before(&self.list, moment);
        if count == 0 {
            return end;
        }
        self.list[count - 1].place
    }

    /// Adds a quit that stands in front of all the others; those that end no more than it does are let go.
    pub(crate) fn add(&mut self, now: u64, place: usize) -> Result<(), NoMemory>
        requires { AreQuitsRising self.old.list.items }
        ensures rising { OnOk result (AreQuitsRising self.new.list.items) }
        ensures first { OnOk result (IsAddedBefore now place self.old.list.items self.new.list.items) }
    {
        let kept = count_before(&self.list, now);
        self.list.truncate(kept);
        self.list.push(SafeQuit { now, place })?;
        Ok(())
    }
}

/// How many of the quits were made before the moment.
fn count_before(quits: &[SafeQuit], moment: u64) -> usize
    requires { AreQuitsRising quits.now }
    ensures { IsBoundAt moment quits.now result }
{
    quits.partition_point(|quit| quit.now < moment)
}
