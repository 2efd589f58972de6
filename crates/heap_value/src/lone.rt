// A value that lies on the heap by itself.
ghost use Rattle.std.specs.Prelude.{◌≡◌};
ghost use Rattle.heap_value.specs.Held.{held};

use std::alloc::Global;
use std::marker::{Model, Send};
use std_alloc::room::Vacant;

/// A value that lies on the heap by itself. It owns the value and its block (profile).
pub struct Lone<T> {
    /// Where it lies.
    pub at: *mut T,
    /// The value, as contracts see it.
    pub ghost value: { T },
}

impl<T> Model for Lone<T> {
    ghost also_owns = { λ l. held T.row l.at l.value };
}

impl<T> Lone<T> {
    /// Fills the room with the value (profile).
    pub fn put(room: Vacant<T, Global>, value: T) -> Lone<T>
        ensures { result.value ≡ value }
    {
        let Vacant { ptr, alloc: _ } = room;
        unsafe {
            ptr.write(value);
        }
        Lone { at: ptr }
    }

    /// Takes the value out, and leaves its room (profile).
    pub fn take(self, alloc: Global) -> (T, Vacant<T, Global>)
        ensures { result.0 ≡ self.value }
    {
        let Lone { at } = self;
        let value = unsafe { at.read() };
        (value, Vacant { ptr: at, alloc })
    }
}

unsafe impl<T: Send> Send for Lone<T> {}
