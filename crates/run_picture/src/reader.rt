//! The report of a text.
ghost use Rattle.line_words.specs.Answers.{Finds, FindsAll, Names};
ghost use Rattle.run_picture.specs.Text.{IsLeastBadOfReport, IsReportText};
ghost use Rattle.run_picture.specs.declared.report.ParsedReport.TheVariants as parsed;

use crate::draft::Draft;
use crate::report::ParsedReport;
use line_words::{Stop, read_lines};
use std::alloc::Global;

/// The report that a text spells, or its least bad line, counted from 1: the first that has no line feed, or with which the
/// lines up to it begin the text of no report. Where the text stops early it is the line behind its last one. `NoMemory`
/// where there was none. Reading is one pass.
pub fn parse_report(alloc: Global, bytes: &[u8]) -> ParsedReport
    ensures found { Finds parsed.Ok IsReportText result bytes.now }
    ensures only { FindsAll parsed.Ok parsed.NoMemory IsReportText result bytes.now }
    ensures refused { Names parsed.Bad IsLeastBadOfReport result bytes.now }
{
    match read_lines::<Draft>(alloc, bytes) {
        Ok(report) => ParsedReport::Ok(report),
        Err(Stop::Bad(line, ())) => ParsedReport::Bad { line },
        Err(Stop::Memory) => ParsedReport::NoMemory,
    }
}
