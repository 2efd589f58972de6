// What goes through an inbox.

use loop_model::Post;

/// A message on its way through an inbox, with the number of its sender and its place among that sender's (this project's
/// profile).
#[derive(Clone, Copy, Debug, PartialEq, Eq)]
pub struct Parcel {
    /// The number of its sender, counted from 0.
    pub from: u32,
    /// How many parcels this sender had put before it.
    pub index: u64,
    /// The message that was put.
    pub post: Post,
}
