//! The barriers that a thread has posted.
ghost use Rattle.std.specs.Prelude.{◌≡◌, ◌==◌};
ghost use Rattle.std.specs.List.{find as first_with};

/// A barrier that a thread posted under a label on a looper's queue, and the token that was answered.
#[derive(Clone, Copy, Debug, PartialEq, Eq)]
pub struct Labelled {
    /// The label, a number that the script gives.
    pub label: u32,
    /// The number of the looper on whose queue it stands.
    pub looper: u32,
    /// The token that `postSyncBarrier` answered.
    pub token: u64,
}

/// The thread's barrier of this label, the first of them.
pub(crate) fn find(barriers: &[Labelled], label: u32) -> Option<Labelled>
    ensures { result ≡ first_with (λ b. b.label == label) barriers.now }
{
    for barrier in barriers {
        if barrier.label == label {
            return Some(*barrier);
        }
    }
    None
}
