//! The shelves of all shapes.
ghost use Rattle.std.specs.Prelude.{◌≡◌, IfOk, OnOk};
ghost use Rattle.trace_check.specs.Shelves.{AreBare, AreWith, AreWithout, shelf_of};

use crate::label::Shape;
use crate::shelf::{Rank, Shelf};
use loop_model::{Entry, Item, NoMemory};
use std::alloc::Global;

/// A shelf for each shape of label.
#[derive(Drop)]
pub(crate) struct Shelves {
    asynchronous: Shelf,
    token: Shelf,
    what: Shelf,
    what_object: Shelf,
    callback: Shelf,
    callback_object: Shelf,
    any: Shelf,
    any_object: Shelf,
}

impl Shelves {
    /// Names what the calls of these entries ask for.
    pub(crate) fn named(alloc: Global, entries: &[Entry]) -> Result<Shelves, NoMemory>
        ensures { IfOk result AreBare }
    {
        Ok(Shelves {
            asynchronous: Shelf::named(alloc, Shape::Asynchronous, entries)?,
            token: Shelf::named(alloc, Shape::Token, entries)?,
            what: Shelf::named(alloc, Shape::What, entries)?,
            what_object: Shelf::named(alloc, Shape::WhatObject, entries)?,
            callback: Shelf::named(alloc, Shape::Callback, entries)?,
            callback_object: Shelf::named(alloc, Shape::CallbackObject, entries)?,
            any: Shelf::named(alloc, Shape::Any, entries)?,
            any_object: Shelf::named(alloc, Shape::AnyObject, entries)?,
        })
    }

    /// The shelf of this shape.
    pub(crate) fn of(&self, shape: Shape) -> &Shelf
        ensures { result.now ≡ shelf_of shape self.now }
    {
        match shape {
            Shape::Asynchronous => &self.asynchronous,
            Shape::Token => &self.token,
            Shape::What => &self.what,
            Shape::WhatObject => &self.what_object,
            Shape::Callback => &self.callback,
            Shape::CallbackObject => &self.callback_object,
            Shape::Any => &self.any,
            Shape::AnyObject => &self.any_object,
        }
    }

    /// Puts in the rank of an item, at each named label that it bears.
    pub(crate) fn insert(&mut self, item: &Item, rank: Rank) -> Result<(), NoMemory>
        ensures { OnOk result (AreWith self.old self.new item.now rank) }
    {
        self.asynchronous.insert(Shape::Asynchronous, item, rank)?;
        self.token.insert(Shape::Token, item, rank)?;
        self.what.insert(Shape::What, item, rank)?;
        self.what_object.insert(Shape::WhatObject, item, rank)?;
        self.callback.insert(Shape::Callback, item, rank)?;
        self.callback_object
            .insert(Shape::CallbackObject, item, rank)?;
        self.any.insert(Shape::Any, item, rank)?;
        self.any_object.insert(Shape::AnyObject, item, rank)?;
        Ok(())
    }

    /// Takes out the rank of an item, at each named label that it bears.
    pub(crate) fn remove(&mut self, item: &Item, rank: Rank)
        ensures { AreWithout self.old self.new item.now rank }
    {
        self.asynchronous.remove(Shape::Asynchronous, item, rank);
        self.token.remove(Shape::Token, item, rank);
        self.what.remove(Shape::What, item, rank);
        self.what_object.remove(Shape::WhatObject, item, rank);
        self.callback.remove(Shape::Callback, item, rank);
        self.callback_object
            .remove(Shape::CallbackObject, item, rank);
        self.any.remove(Shape::Any, item, rank);
        self.any_object.remove(Shape::AnyObject, item, rank);
    }
}
