//! The words of a line, taken one by one.
ghost use Rattle.std.specs.Prelude.{◌≡◌, ◌∷◌, [], MatchOption};
ghost use Rattle.line_words.specs.Taking.{counted, either, fixed, long, maybe_long, maybe_short, read, short, whole, word};
ghost use Rattle.line_words.specs.Words.{words};

use crate::words::{number, split_first};
use std::marker::Model;

/// The words of a line that are still to be read.
#[derive(Drop)]
pub struct Words<'a> {
    rest: Option<&'a [u8]>,
}

impl<'a> Model for Words<'a> {
    ghost use Rattle.std.specs.Prelude.{List, ℕ};
    ghost use Rattle.std.specs.Option.{option_copied};
    ghost use Rattle.line_words.specs.Rests.{parts_left};

    ghost Value = { List (List ℕ) };

    ghost view = { λ s. parts_left 32 (option_copied s.rest) };
}

impl<'a> Words<'a> {
    /// All words of a line: what stands between its single spaces.
    pub fn new(line: &'a [u8]) -> Self
        ensures { result ≡ words line.now }
    {
        Words { rest: Some(line) }
    }

    /// Takes the next word. None where no word is left.
    pub fn next(&mut self) -> Option<&'a [u8]>
        ensures { MatchOption result
            ((self.old ≡ []) × (self.new ≡ []))
            (λ word. self.old ≡ word.now ∷ self.new) }
    {
        let rest = self.rest?;
        let (word, after) = split_first(rest, b' ');
        self.rest = after;
        Some(word)
    }

    /// What a line says, where no word is left.
    pub fn whole<L: Copy>(&mut self, said: L) -> Option<L>
        ensures { result ≡ whole said self.old }
    {
        match self.next() {
            None => Some(said),
            Some(_) => None,
        }
    }

    /// Takes a word that is written so, and else answers None.
    #[tactic(auto, unfolding(crate::specs::Taking::fixed))]
    pub fn fixed(&mut self, spelling: &[u8]) -> Option<()>
        ensures { read result self.new ≡ fixed spelling.now self.old }
    {
        let word = self.next()?;
        if word == spelling { Some(()) } else { None }
    }

    /// Takes one of two words: true is the first.
    #[tactic(auto, unfolding(crate::specs::Taking::either))]
    pub fn either(&mut self, first: &[u8], second: &[u8]) -> Option<bool>
        ensures { read result self.new ≡ either first.now second.now self.old }
    {
        let word = self.next()?;
        if word == first {
            return Some(true);
        }
        if word == second { Some(false) } else { None }
    }

    /// A number of 64 bits.
    #[tactic(auto, unfolding(crate::specs::Taking::long))]
    pub fn long(&mut self) -> Option<u64>
        ensures { read result self.new ≡ long self.old }
    {
        let word = self.next()?;
        number(word)
    }

    /// A number of 32 bits.
    #[tactic(auto, unfolding(crate::specs::Taking::short))]
    pub fn short(&mut self) -> Option<u32>
        ensures { read result self.new ≡ short self.old }
    {
        let number = self.long()?;
        u32::try_from(number).ok()
    }

    /// A number of 64 bits behind its name.
    #[tactic(auto, unfolding(crate::specs::Taking::counted))]
    pub fn counted(&mut self, name: &[u8]) -> Option<u64>
        ensures { read result self.new ≡ counted name.now self.old }
    {
        self.fixed(name)?;
        self.long()
    }

    /// A number of 64 bits, or the mark of what is absent.
    #[tactic(auto, unfolding(crate::specs::Taking::maybe_long))]
    pub fn maybe_long(&mut self) -> Option<Option<u64>>
        ensures { read result self.new ≡ maybe_long self.old }
    {
        let word = self.next()?;
        if word == b"-".as_slice() {
            return Some(None);
        }
        Some(Some(number(word)?))
    }

    /// A number of 32 bits, or the mark of what is absent.
    #[tactic(auto, unfolding(crate::specs::Taking::maybe_short))]
    pub fn maybe_short(&mut self) -> Option<Option<u32>>
        ensures { read result self.new ≡ maybe_short self.old }
    {
        match self.maybe_long()? {
            Some(number) => Some(Some(u32::try_from(number).ok()?)),
            None => Some(None),
        }
    }
}
