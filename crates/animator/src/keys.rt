//! The keys of an animator.
ghost use Rattle.std.specs.Prelude.{◌≡◌, ◌↔◌, ◌<◌, ◌++◌, ◌∷◌, [], take, length, true, false, IsTrue};

use std::marker::Model;

/// How many keys a plan may have at most (this project's profile).
pub(crate) const MOST_KEYS: usize = 16;

/// The value that an animator has at a place of its way, which is counted from 0 to 1000 (`Keyframe`).
#[repr(C)]
#[derive(Clone, Copy, Debug, PartialEq, Eq)]
pub struct Key {
    /// 0 to 1,000.
    pub at: u32,
    /// 0 to 1,000,000.
    pub value: u32,
}

/// Up to 16 keys, in place, which contracts see as a list.
#[derive(Debug, Drop)]
pub struct Keys {
    items: [Key; 16],
    count: usize,
}

impl Model for Keys {
    ghost use Rattle.std.specs.Prelude.{List, take, ◌≤◌};
    ghost use Rattle.animator.specs.declared.keys.Key.{Key as KeySeen};

    ghost Value = { List KeySeen };

    ghost view = { λ s. take s.count s.items };

    ghost invariant = { λ s. s.count ≤ 16 };
}

impl Keys {
    /// No keys yet.
    pub fn new() -> Self
        ensures { result ≡ [] }
    {
        Keys {
            items: [Key { at: 0, value: 0 }; 16],
            count: 0,
        }
    }

    /// The first `count` of these keys, or all where it is greater.
    pub fn first_of(items: [Key; 16], count: usize) -> Self
        ensures { result ≡ take count items }
    {
        Keys {
            items,
            count: count.min(MOST_KEYS),
        }
    }

    /// The same keys once more.
    pub fn copied(&self) -> Self
        ensures { result ≡ self.now }
    {
        Keys {
            items: self.items,
            count: self.count,
        }
    }

    /// The keys, to be looked at.
    pub fn as_slice(&self) -> &[Key]
        ensures { result.now ≡ self.now }
    {
        &self.items[..self.count]
    }

    /// Puts a key at the end, and answers whether there was room: where 16 are there the keys stay as they were.
    pub fn push(&mut self, key: Key) -> bool
        ensures answer { IsTrue result ↔ length self.old < 16 }
        ensures pushed { result ≡ true → self.new ≡ self.old ++ key ∷ [] }
        ensures full { result ≡ false → self.new ≡ self.old }
    {
        if self.count == MOST_KEYS {
            return false;
        }
        self.items[self.count] = key;
        self.count += 1;
        true
    }
}
