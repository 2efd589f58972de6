//! The trace of a text.
ghost use Rattle.line_words.specs.Answers.{Finds, FindsAll, Names};
ghost use Rattle.trace_check.specs.Text.{IsLeastBadOfTrace, IsTraceText};
ghost use Rattle.trace_check.specs.declared.trace.ParsedTrace.TheVariants as parsed;

use crate::draft::Draft;
use crate::trace::ParsedTrace;
use line_words::{Stop, read_lines};
use std::alloc::Global;

/// The trace that a text spells, or its least bad line, counted from 1: the first that has no line feed, or with which the
/// lines up to it begin the text of no trace. Where the text stops early it is the line behind its last one. `NoMemory`
/// where there was none. Reading is one pass.
pub fn parse_trace(alloc: Global, bytes: &[u8]) -> ParsedTrace
    ensures found { Finds parsed.Ok IsTraceText result bytes.now }
    ensures only { FindsAll parsed.Ok parsed.NoMemory IsTraceText result bytes.now }
    ensures refused { Names parsed.Bad IsLeastBadOfTrace result bytes.now }
{
    match read_lines::<Draft>(alloc, bytes) {
        Ok(trace) => ParsedTrace::Ok(trace),
        Err(Stop::Bad(line, ())) => ParsedTrace::Bad { line },
        Err(Stop::Memory) => ParsedTrace::NoMemory,
    }
}
