//! How many entries each sender has made.
ghost use Rattle.std.specs.Prelude.{◌≡◌, ◌+◌, ◌<◌, ◌^◌, ◌==◌, ℕ, cond, OnOk};
ghost use Rattle.trace_check.specs.Checking.{made_in};

use loop_model::NoMemory;
use std::alloc::Global;
use std::collections::BTreeMap;

/// The number of entries by sender, for those that have made any.
#[derive(Drop)]
pub(crate) struct Counts {
    by_sender: BTreeMap<u32, u64>,
}

impl Counts {
    /// Nobody has made an entry.
    pub(crate) fn new(alloc: Global) -> Counts
        ensures { (sender : ℕ) → made_in result sender ≡ 0 }
    {
        Counts {
            by_sender: BTreeMap::new(alloc),
        }
    }

    /// How many entries the sender has made.
    pub(crate) fn of(&self, sender: u32) -> u64
        ensures { result ≡ made_in self.now sender }
    {
        match self.by_sender.get(&sender) {
            Some(count) => *count,
            None => 0,
        }
    }

    /// Counts one more entry of the sender.
    pub(crate) fn add(&mut self, sender: u32) -> Result<(), NoMemory>
        requires { made_in self.old sender + 1 < 2 ^ 64 }
        ensures { OnOk result ((other : ℕ) → made_in self.new other ≡ made_in self.old other + cond (sender == other) 1 0) }
    {
        let count = self.of(sender) + 1;
        match self.by_sender.insert(sender, count) {
            Ok(_) => Ok(()),
            Err(_) => Err(NoMemory),
        }
    }
}
