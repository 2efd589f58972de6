// The value is lent. The clause names the row of `Lone`, which the file that declares it cannot import.
ghost use Rattle.std.specs.Prelude.{◌≡◌};
ghost use Rattle.std.specs.Borrow.{Lends, sem};
ghost use Rattle.heap_value.specs.contracts.lone.Lone.{the_row};
ghost use Rattle.heap_value.specs.Lent.{with_value};

use crate::lone::Lone;

impl<T> Lone<T> {
    /// The value. When the borrow ends, it is what was written through it (profile).
    pub fn get_mut(&mut self) -> &mut T
        ensures* writes_back { sem 𝓛 (Lends (the_row T.row) T.row self.entry result (with_value self.old)) }
        ensures value { result.now ≡ self.old.value }
    {
        unsafe { &mut *self.at }
    }
}
