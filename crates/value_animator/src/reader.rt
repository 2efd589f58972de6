//! The values of a text.
ghost use Rattle.line_words.specs.Answers.{Finds, FindsAll, NamesSo, Refuses, RefusesAll};
ghost use Rattle.line_words.specs.LeastBad.{IsLeastBad};
ghost use Rattle.value_animator.specs.Plans.{IsWritten};
ghost use Rattle.value_animator.specs.Reading.{IsPlanRefusal, IsPlanText};
ghost use Rattle.value_animator.specs.declared.refusal.ParsedValues.TheVariants as parsed;

use crate::draft::Draft;
use crate::refusal::ParsedValues;
use line_words::{Stop, read_lines};
use std::alloc::Global;

/// The values that a text spells, or its least bad line and why it is bad.
///
/// A text is `animate 1`, `period NS`, at most 16 things and `end`, each on a line that ends with a line feed, with single spaces
/// between words and numbers as decimals without a leading zero. A thing is `countdown TOTAL INTERVAL`, or `animator DELAY DURATION
/// REPEATS restart` or the same with `reverse`, and behind it 2 to 16 lines `key AT VALUE`, the first at 0 and the last at 1000.
/// The language is this project's own.
///
/// The line is counted from 1: the least that has no line feed, or with which the lines up to it begin the text of no values; where
/// there is none, the one behind the last. Where several causes hold of it, the first one in this order is answered: the text has no such line
/// and no `end` (`Missing`), its form (`Form`), a number or the end of all ways is outside its limits (`Range`), a key's place does
/// not rise from 0 (`Order`), and one thing or key too many (`TooMany`). `NoMemory` where there was none.
pub fn parse_values(alloc: Global, bytes: &[u8]) -> ParsedValues
    ensures found { Finds parsed.Ok IsPlanText result bytes.now }
    ensures written { Finds parsed.Ok IsWritten result bytes.now }
    ensures only { FindsAll parsed.Ok parsed.NoMemory IsPlanText result bytes.now }
    ensures refused { Refuses parsed.Bad IsPlanRefusal IsPlanText result bytes.now }
    ensures refused_so { RefusesAll parsed.Bad parsed.NoMemory IsPlanRefusal result bytes.now }
    ensures least { NamesSo parsed.Bad (IsLeastBad IsPlanText) result bytes.now }
{
    match read_lines::<Draft>(alloc, bytes) {
        Ok(values) => ParsedValues::Ok(values),
        Err(Stop::Bad(line, cause)) => ParsedValues::Bad { line, cause },
        Err(Stop::Memory) => ParsedValues::NoMemory,
    }
}
