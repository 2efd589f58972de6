//! The picture of a text.
ghost use Rattle.std.specs.Prelude.{IfOk};
ghost use Rattle.run_picture.specs.Picture.{IsPictureOf, DrawsReport};

use crate::perfetto::perfetto_text;
use crate::reader::parse_report;
use crate::report::{ParsedReport, Report};
use crate::svg::svg_text;
use crate::view::View;
use loop_model::NoMemory;
use std::alloc::Global;

/// In which form a picture is written.
#[derive(Clone, Copy, Debug, PartialEq, Eq)]
pub enum Form {
    /// One SVG that stands alone, with the window and width of this view.
    Svg(View),
    /// Trace events in JSON.
    Perfetto,
}

/// What becomes of a text.
#[derive(Debug, Drop)]
pub enum Picture {
    /// The picture of the report.
    Text(Vec<u8>),
    /// The text is no report: its least bad line, counted from 1.
    Bad { line: u64 },
    /// No memory was found.
    NoMemory,
}

/// The picture of a report in a form.
fn drawn(alloc: Global, form: Form, title: &[u8], report: &Report) -> Result<Vec<u8>, NoMemory>
    ensures { IfOk result (λ text. IsPictureOf form report.now text.items) }
{
    match form {
        Form::Svg(view) => svg_text(alloc, report, view, title),
        Form::Perfetto => perfetto_text(alloc, report),
    }
}

/// The picture of the report that a text spells, or the text's least bad line. An SVG has this title, and a trace has none.
/// `NoMemory` where there was none.
pub fn picture_of(alloc: Global, form: Form, title: &[u8], bytes: &[u8]) -> Picture
    ensures { DrawsReport result form bytes.now }
{
    match parse_report(alloc, bytes) {
        ParsedReport::Ok(report) => match drawn(alloc, form, title, &report) {
            Ok(text) => Picture::Text(text),
            Err(NoMemory) => Picture::NoMemory,
        },
        ParsedReport::Bad { line } => Picture::Bad { line },
        ParsedReport::NoMemory => Picture::NoMemory,
    }
}
