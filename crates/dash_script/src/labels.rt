//! Which barrier labels each thread has used.
ghost use Rattle.std.specs.Prelude.{◌≡◌, ◌<◌, ◌==◌, ◌&&◌, ◌||◌, ℕ, false, length, get_or, IfOk};
ghost use Rattle.dash_script.specs.Progress.{is_used};

use loop_model::NoMemory;
use std::alloc::Global;
use std::marker::Model;

/// How many threads there are at most.
const THREADS: u64 = 16;

/// How many labels a thread has.
const LABELS: u64 = 1_000;

/// One flag for each label of each thread, so that a label is looked up in one step.
#[derive(Drop)]
pub(crate) struct Labels {
    flags: Vec<bool>,
}

impl Model for Labels {
    ghost use Rattle.std.specs.Prelude.{◌≡◌, List, Bool, length};

    ghost Value = { List Bool };

    ghost view = { λ s. s.flags.items };

    ghost invariant = { λ s. length s.flags.items ≡ 16000 };
}

/// So many flags, none of them set.
fn unset(alloc: Global, count: usize) -> Result<Vec<bool>, NoMemory>
    ensures whole { IfOk result (λ flags. length flags.items ≡ count) }
    ensures unset { IfOk result (λ flags. (i : ℕ) → get_or flags.items i false ≡ false) }
{
    Ok(vec![in alloc; false; count]?)
}

impl Labels {
    /// No label is used yet.
    pub(crate) fn new(alloc: Global) -> Result<Self, NoMemory>
        ensures { IfOk result (λ labels. (thread label : ℕ) → is_used labels thread label ≡ false) }
    {
        Ok(Labels {
            flags: unset(alloc, 16_000)?,
        })
    }

    /// Whether the thread has used the label.
    pub(crate) fn has(&self, thread: u64, label: u64) -> bool
        ensures { result ≡ is_used self.now thread label }
    {
        if thread >= THREADS || label >= LABELS {
            return false;
        }
        self.flags[(thread * LABELS + label) as usize]
    }

    /// The thread uses the label.
    pub(crate) fn mark(&mut self, thread: u64, label: u64)
        requires few_threads { thread < 16 }
        requires few_labels { label < 1000 }
        ensures { (t l : ℕ) → is_used self.new t l ≡ (is_used self.old t l || (thread == t && label == l)) }
    {
        self.flags[(thread * LABELS + label) as usize] = true;
    }
}
