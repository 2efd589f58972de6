//! The page of a report.
ghost use Rattle.std.specs.Prelude.{◌≡◌, IfOk};
ghost use Rattle.run_page.specs.Page.{IsPage, ShowsPage};

use crate::script::{FRAME, HEAD, LOOKS, OPENING, SCRIPT};
use loop_model::NoMemory;
use run_picture::{ParsedReport, Picture, Report, parse_report, perfetto_text, push_escaped};
use std::alloc::Global;

/// What stands before the trace: the title, the looks, and the number of phases.
fn opening(alloc: Global, title: &[u8], edition: u32) -> Result<Vec<u8>, NoMemory> {
    let mut out = Vec::new(alloc);
    out.extend_from_slice(HEAD)?;
    push_escaped(&mut out, title)?;
    out.extend_from_slice(LOOKS)?;
    push_escaped(&mut out, title)?;
    out.extend_from_slice(FRAME)?;
    out.push(if edition == 1 { b'4' } else { b'5' })?;
    out.extend_from_slice(OPENING)?;
    Ok(out)
}

/// The page of a report, with this title: the trace of its marks, and a script that draws it. `NoMemory` where there was none.
pub fn page_text(alloc: Global, report: &Report, title: &[u8]) -> Result<Vec<u8>, NoMemory>
    ensures { IfOk result (λ text. IsPage report.now text.items) }
{
    let trace = perfetto_text(alloc, report)?;
    let mut out = opening(alloc, title, report.edition)?;
    out.extend_from_slice(&trace)?;
    out.extend_from_slice(SCRIPT)?;
    Ok(out)
}

/// The page of the report that a text spells, or the text's least bad line. `NoMemory` where there was none.
pub fn page_of(alloc: Global, title: &[u8], bytes: &[u8]) -> Picture
    ensures { ShowsPage result bytes.now }
{
    match parse_report(alloc, bytes) {
        ParsedReport::Ok(report) => match page_text(alloc, &report, title) {
            Ok(text) => Picture::Text(text),
            Err(NoMemory) => Picture::NoMemory,
        },
        ParsedReport::Bad { line } => Picture::Bad { line },
        ParsedReport::NoMemory => Picture::NoMemory,
    }
}
