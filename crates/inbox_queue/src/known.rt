// What a pass of an inbox knows. No value of it is made.

use crate::parcel::Parcel;
use loop_model::Post;
use std::collections::LinkedList;

pub enum Known {
    /// Its pass was taken in by another.
    Spent,
    /// What the sender of this number has put.
    Sends(u64, LinkedList<Post>),
    /// What each sender had put that was taken in, or none for one that still puts; and what was admitted.
    Admits(LinkedList<Option<LinkedList<Post>>>, LinkedList<Parcel>),
}
