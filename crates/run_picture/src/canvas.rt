//! Bytes of an SVG in which the element of no group begins.
ghost use Rattle.run_picture.specs.Drawn.{HasNoElement};

use crate::label::push_escaped;
use line_words::push_number;
use loop_model::NoMemory;
use std::alloc::Global;
use std::marker::Model;

/// What is drawn apart from the elements of groups: the background, and their shapes. An element begins with a
/// parenthesis, and here that is written as an entity.
#[derive(Drop)]
pub(crate) struct Canvas {
    alloc: Global,
    bytes: Vec<u8>,
}

impl Model for Canvas {
    ghost use Rattle.std.specs.Prelude.{List, ℕ};
    ghost use Rattle.run_picture.specs.Flat.{IsFlat};

    ghost Value = { List ℕ };

    ghost view = { λ s. s.bytes.items };

    ghost invariant = { λ s. IsFlat s.bytes.items };
}

impl Canvas {
    /// Nothing is drawn yet.
    pub(crate) fn new(alloc: Global) -> Canvas {
        Canvas {
            alloc,
            bytes: Vec::new(alloc),
        }
    }

    /// One byte.
    pub(crate) fn push(&mut self, byte: u8) -> Result<(), NoMemory> {
        if byte == b'(' {
            self.bytes.extend_from_slice(b"&#40;")?;
        } else {
            self.bytes.push(byte)?;
        }
        Ok(())
    }

    /// Markup.
    pub(crate) fn extend_from_slice(&mut self, markup: &[u8]) -> Result<(), NoMemory> {
        for byte in markup {
            self.push(*byte)?;
        }
        Ok(())
    }

    /// A number.
    pub(crate) fn push_number(&mut self, number: u64) -> Result<(), NoMemory> {
        let mut digits = Vec::new(self.alloc);
        push_number(&mut digits, number)?;
        self.extend_from_slice(&digits)
    }

    /// Text; what would be markup is written as an entity.
    pub(crate) fn push_escaped(&mut self, text: &[u8]) -> Result<(), NoMemory> {
        let mut escaped = Vec::new(self.alloc);
        push_escaped(&mut escaped, text)?;
        self.extend_from_slice(&escaped)
    }

    /// What is drawn.
    pub(crate) fn into_bytes(self) -> Vec<u8>
        ensures { HasNoElement result.items }
    {
        self.bytes
    }
}
