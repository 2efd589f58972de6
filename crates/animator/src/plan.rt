//! What is animated, in whole milliseconds of frame time.
ghost use Rattle.std.specs.Prelude.{◌≡◌, ◌↔◌, IsTrue, All};
ghost use Rattle.animator.specs.Plans.{IsKey, IsPlan, rise, rise_from};

use crate::keys::{Key, Keys, MOST_KEYS};

/// When the last way ends at the latest, in milliseconds.
const LAST_END: u64 = 60_000;

const MOST_REPEATS: u32 = 99;

/// The place of the last key.
const LAST_PLACE: u32 = 1_000;

const MOST_VALUE: u32 = 1_000_000;

/// An animator's plan (`ValueAnimator`).
#[derive(Debug, Drop)]
pub struct Plan {
    /// Milliseconds from the first frame to the start of the way, 0 to 60,000 (`setStartDelay`).
    pub delay: u64,
    /// How long one way takes, in milliseconds, 1 to 60,000 (`setDuration`).
    pub duration: u64,
    /// How many ways follow the first one, 0 to 99 (`setRepeatCount`). All ways end within 60,000 milliseconds.
    pub repeats: u32,
    /// Whether each second way goes backwards (`REVERSE`), else each begins anew (`RESTART`).
    pub reverse: bool,
    /// 2 to 16 keys by rising place, the first at 0 and the last at 1000.
    pub keys: Keys,
}

impl Plan {
    /// Whether the plan is within the limits that its fields name (this project's profile). `Animator::new` asks for it.
    pub fn fits(&self) -> bool
        ensures { IsTrue result ↔ IsPlan self.now }
    {
        if self.delay > LAST_END || self.duration > LAST_END {
            return false;
        }
        if self.duration == 0 || self.repeats > MOST_REPEATS {
            return false;
        }
        if self.delay + self.duration * (u64::from(self.repeats) + 1) > LAST_END {
            return false;
        }
        let keys = self.keys.as_slice();
        if keys.len() > MOST_KEYS || !are_keys(keys) {
            return false;
        }
        rise(keys)
    }
}

/// Whether the place and the value of a key are within their limits.
fn is_key(key: &Key) -> bool
    ensures { IsTrue result ↔ IsKey key.now }
{
    key.at <= LAST_PLACE && key.value <= MOST_VALUE
}

/// Whether those of each key are.
fn are_keys(keys: &[Key]) -> bool
    ensures { IsTrue result ↔ All IsKey keys.now }
{
    for key in keys {
        if !is_key(key) {
            return false;
        }
    }
    true
}

/// Whether the keys behind this place rise, and the last is at 1000.
fn rise_from(start: u32, keys: &[Key]) -> bool
    ensures { result ≡ rise_from start keys.now }
{
    let mut place = start;
    for key in keys {
        if key.at <= place {
            return false;
        }
        place = key.at;
    }
    place == LAST_PLACE
}

/// Whether the first key is at 0, and the others rise to 1000.
fn rise(keys: &[Key]) -> bool
    ensures { result ≡ rise keys.now }
{
    match keys.split_first() {
        None => false,
        Some((first, rest)) => first.at == 0 && rise_from(first.at, rest),
    }
}
