//! What a message may carry beside its numbers.
ghost use Rattle.std.specs.Prelude.{ℕ, List, []};

/// A value that a message carries, as an object in `obj` of the Android API reference's `Message`. A message owns its value; `()` is
/// the type where nobody wants one.
pub trait Payload: Drop + Send {
    /// What contracts see of a value, as numbers of its type's choice. By default they see nothing of it.
    ghost content: { Self → List ℕ } = { λ value. [] };
}

impl Payload for () {}
