//! Texts that are read line by line.
ghost use Rattle.std.specs.Prelude.{◌≡◌, ◌∷◌, [], Ok, IfOk, IfErr, OnOk};
ghost use Rattle.line_words.specs.Refusing.{Language};
ghost use Rattle.line_words.specs.RefusedReading.{line_read, read_from, read_text};
ghost use Rattle.line_words.specs.Stops.{Reads, Stops};

use crate::words::split_first;
use loop_model::NoMemory;
use std::alloc::Global;

/// Why reading stops.
#[derive(Drop)]
pub enum Stop<C> {
    /// This line is bad, counted from 1, for this cause.
    Bad(u64, C),
    /// There was no memory.
    Memory,
}

impl<C> From<NoMemory> for Stop<C> {
    ghost use Rattle.std.specs.Prelude.{◌≡◌};
    ghost use Rattle.line_words.specs.declared.reader.Stop.TheVariants.{Memory};

    ghost from_gives = { λ _ e. e ≡ Memory };

    fn from(_e: NoMemory) -> Stop<C> {
        Stop::Memory
    }
}

/// What is read of a text so far, line by line (this project's profile).
pub trait ByLines: Drop {
    /// What a text is the text of.
    type Whole: Drop;
    /// What a line is refused for.
    type Cause: Drop;

    /// What a line says.
    ghost Said: { Type 0 };
    /// What lines hold.
    ghost Held: { Type 0 };
    /// What lines say and hold, and why one is refused.
    ghost language: { Language Said Held Self.Whole Self.Cause };
    /// What the lines so far hold.
    ghost so_far: { Self → Held };
    /// What is true between lines.
    ghost IsSound: { Self → Type 0 } = { λ draft. Unit {0} };

    /// Nothing is read yet.
    fn new(alloc: Global) -> Result<Self, NoMemory>
        ensures held { IfOk result (λ draft. so_far draft ≡ language.start) }
        ensures sound { IfOk result IsSound };

    /// Takes this line, which has a line feed behind these bytes, or stops at it.
    fn take(&mut self, alloc: Global, line: u64, bytes: &[u8]) -> Result<(), Stop<Self::Cause>>
        requires { IsSound self.old }
        ensures held { OnOk result (line_read language line (so_far self.old) bytes.now ≡ Ok (so_far self.new)) }
        ensures refused { IfErr result (λ stop. Stops stop (line_read language line (so_far self.old) bytes.now)) }
        ensures sound { OnOk result (IsSound self.new) };

    /// What the lines are the text of, where this line has these bytes and no line feed.
    fn end(self, line: u64, bytes: &[u8]) -> Result<Self::Whole, Stop<Self::Cause>>
        requires { IsSound self }
        ensures { Reads result (read_from language line (so_far self) (bytes.now ∷ [])) };
}

/// Reads line by line until the first line that has a cause, and answers it with its first cause. Reading is one pass.
pub fn read_lines<D: ByLines>(alloc: Global, bytes: &[u8]) -> Result<D::Whole, Stop<D::Cause>>
    ensures { Reads result (read_text D.language bytes.now) }
{
    let mut draft = D::new(alloc)?;
    let mut rest = bytes;
    let mut line = 1;
    'lines: while !rest.is_empty() {
        let (text, after) = split_first(rest, b'\n');
        let Some(after) = after else {
            return draft.end(line, rest);
        };
        draft.take(alloc, line, text)?;
        rest = after;
        line += 1;
    }
    draft.end(line, rest)
}
