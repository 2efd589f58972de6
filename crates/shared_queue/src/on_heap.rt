// A value on the heap, so that a turn moves it by its place.
ghost use Rattle.std.specs.Prelude.{◌≡◌, IfOk};
ghost use Rattle.std.specs.Borrow.{Lends, sem};
ghost use Rattle.shared_queue.specs.contracts.on_heap.OnHeap.{the_row};

use loop_model::NoMemory;
use std::alloc::Global;
use std::marker::Model;

/// Contracts see it as the value.
#[derive(Drop)]
pub struct OnHeap<T> {
    place: Box<T>,
}

impl<T> Model for OnHeap<T> {
    ghost use Rattle.std.specs.Prelude.{ℕ};

    ghost Value = { T };

    ghost view = { λ h. h.place.value };
}

impl<T: Drop> OnHeap<T> {
    pub(crate) fn new(alloc: Global, value: T) -> Result<OnHeap<T>, NoMemory>
        ensures { IfOk result (λ h. h ≡ value) }
    {
        match Box::new(alloc, value) {
            Ok(place) => Ok(OnHeap { place }),
            Err(_) => Err(NoMemory),
        }
    }
}

impl<T> OnHeap<T> {
    pub(crate) fn value(&self) -> &T
        ensures { result.now ≡ self.now }
    {
        self.place.as_ref()
    }

    pub(crate) fn value_mut(&mut self) -> &mut T
        ensures* writes_back { sem 𝓛 (Lends (the_row T.row) T.row self.entry result (λ w. w)) }
        ensures value { result.now ≡ self.old }
    {
        self.place.as_mut()
    }

    pub(crate) fn into_value(self) -> T
        ensures { result ≡ self }
    {
        Box::into_inner(self.place)
    }
}
