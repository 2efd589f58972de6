//! What was handed out, which only contracts read. It takes no memory, and its calls do nothing at run time.
ghost use Rattle.std.specs.Prelude.{◌≡◌, List, [], ◌++◌};
ghost use Rattle.std.specs.Borrow.{ftrue};

use loop_model::Sequence;
use std::marker::{Model, PhantomData, Send};

/// The elements that were handed out, in order.
#[derive(Drop)]
pub(crate) struct Gone<T> {
    of: PhantomData<T>,
    pub(crate) ghost items: { List T },
}

impl<T> Model for Gone<T> {
    ghost also_owns = { λ _. ftrue };
}

// It owns nothing.
unsafe impl<T: Send> Send for Gone<T> {}

impl<T> Gone<T> {
    /// Nothing was handed out.
    pub(crate) fn nothing() -> Gone<T>
        ensures { result.items ≡ [] }
    {
        Gone { of: PhantomData }
    }

    /// Behind these, more was handed out.
    pub(crate) fn and(&self, more: &Sequence<T>) -> Gone<T>
        ensures { result.items ≡ self.now.items ++ more.now }
    {
        Gone { of: PhantomData }
    }
}
