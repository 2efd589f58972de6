//! What items have in common that a trace may ask for: labels of several shapes.
ghost use Rattle.std.specs.Prelude.{◌≡◌, IfSome};
ghost use Rattle.loop_model.specs.declared.item.Item.{Item as ItemOf};
ghost use Rattle.loop_model.specs.Entries.{ends};
ghost use Rattle.trace_check.specs.Labels.{barrier_label, bears, filter_label, filter_shape, label_of, number_by, object_label, post_label, shape_by};

use loop_model::{Call, Entry, Filter, Item, Kind, Post, Reply};

/// What a label tells of an item.
#[derive(Clone, Copy, PartialEq, Eq)]
pub(crate) enum Shape {
    /// That it is an asynchronous message.
    Asynchronous,
    /// The token of a barrier.
    Token,
    /// A message's handler and `what`.
    What,
    /// The same and its object.
    WhatObject,
    /// A message's handler and callback.
    Callback,
    /// The same and its object.
    CallbackObject,
    /// A message's handler.
    Any,
    /// The same and its object.
    AnyObject,
}

/// A handler, a number (a token, `what` or callback) and an object, each 0 where the shape has none.
pub(crate) type Label = (u32, u64, u64);

/// The label with this number of a message that has an object.
fn object_label(post: &Post, number: u64) -> Option<Label>
    ensures { result ≡ object_label post.now number }
{
    let object = post.obj?;
    Some((post.handler, number, object))
}

/// The label of a message's callback.
fn callback_label(post: &Post) -> Option<Label>
    ensures { result ≡ post_label Shape.Callback post.now }
{
    let callback = post.callback?;
    Some((post.handler, callback, 0))
}

/// The label of a message's callback and object.
fn callback_object_label(post: &Post) -> Option<Label>
    ensures { result ≡ post_label Shape.CallbackObject post.now }
{
    let callback = post.callback?;
    object_label(post, callback)
}

/// The label of this shape that a message bears, where it bears one.
fn post_label(shape: Shape, post: &Post) -> Option<Label>
    ensures { result ≡ post_label shape post.now }
{
    match shape {
        Shape::Asynchronous => {
            if post.asynchronous {
                Some((0, 0, 0))
            } else {
                None
            }
        }
        Shape::Token => None,
        Shape::What => Some((post.handler, u64::from(post.what), 0)),
        Shape::WhatObject => object_label(post, u64::from(post.what)),
        Shape::Callback => callback_label(post),
        Shape::CallbackObject => callback_object_label(post),
        Shape::Any => Some((post.handler, 0, 0)),
        Shape::AnyObject => object_label(post, 0),
    }
}

/// The label of this shape that a barrier bears: its token alone.
fn barrier_label(shape: Shape, token: u64) -> Option<Label>
    ensures { result ≡ barrier_label shape token }
{
    match shape {
        Shape::Token => Some((0, token, 0)),
        Shape::Asynchronous => None,
        Shape::What => None,
        Shape::WhatObject => None,
        Shape::Callback => None,
        Shape::CallbackObject => None,
        Shape::Any => None,
        Shape::AnyObject => None,
    }
}

/// The label of this shape that an item bears, where it bears one.
#[tactic(auto, unfolding(crate::specs::Labels::label_of))]
pub(crate) fn label_of(shape: Shape, item: &Item) -> Option<Label>
    ensures { result ≡ label_of shape item.now }
{
    match item {
        Item::Post { post, .. } => post_label(shape, post),
        Item::Barrier { token, .. } => barrier_label(shape, *token),
    }
}

/// The number that a filter names.
fn number_by(kind: Kind) -> u64
    ensures { result ≡ number_by kind }
{
    match kind {
        Kind::What(what) => u64::from(what),
        Kind::Callback(callback) => callback,
        Kind::All => 0,
    }
}

fn shape_by(kind: Kind, with_object: bool) -> Shape
    ensures { result ≡ shape_by kind with_object }
{
    match kind {
        Kind::What(_) => {
            if with_object {
                Shape::WhatObject
            } else {
                Shape::What
            }
        }
        Kind::Callback(_) => {
            if with_object {
                Shape::CallbackObject
            } else {
                Shape::Callback
            }
        }
        Kind::All => {
            if with_object {
                Shape::AnyObject
            } else {
                Shape::Any
            }
        }
    }
}

/// The shape of the messages that a filter names.
pub(crate) fn filter_shape(filter: &Filter) -> Shape
    ensures { result ≡ filter_shape filter.now }
{
    shape_by(filter.kind, filter.obj.is_some())
}

/// The label of the messages that a filter names.
pub(crate) fn filter_label(filter: &Filter) -> Label
    ensures { result ≡ filter_label filter.now }
{
    let number = number_by(filter.kind);
    (filter.handler, number, filter.obj.unwrap_or(0))
}

/// The label that the items which the entry ends have in common, where it is one that its call asks for.
pub(crate) fn label_ended(entry: &Entry) -> Option<(Shape, Label)>
    ensures { IfSome result (λ p. (x : ItemOf) → bears p.0 p.1 x ≡ ends entry.now x) }
{
    match entry.call {
        Call::Remove(filter) => Some((filter_shape(&filter), filter_label(&filter))),
        Call::Unbarrier { token } => match entry.reply {
            Reply::Unbarriered => Some((Shape::Token, (0, token, 0))),
            _ => None,
        },
        _ => None,
    }
}

/// The label of this shape that the call asks for: that of its filter, of its token, and for a barrier that of the
/// asynchronous messages, which it lets pass.
pub(crate) fn label_asked(shape: Shape, call: &Call) -> Option<Label> {
    let (asked, label) = match call {
        Call::Remove(filter) => (filter_shape(filter), filter_label(filter)),
        Call::Unbarrier { token } => (Shape::Token, (0, *token, 0)),
        Call::Barrier { .. } => (Shape::Asynchronous, (0, 0, 0)),
        _ => return None,
    };
    if asked == shape { Some(label) } else { None }
}
