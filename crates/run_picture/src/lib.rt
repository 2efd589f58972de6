//! A report of the dashboard read, the marks of its picture, and the picture drawn.
#![tactic(auto)]

mod canvas;
mod draft;
mod glyph;
mod group;
mod label;
mod lanes;
mod legend;
mod levels;
mod line;
mod lines;
mod mark;
mod perfetto;
mod picture;
mod reader;
mod report;
mod scale;
mod shape;
mod shelf;
mod svg;
mod view;

pub use group::{Group, Place, Row, Scale, groups};
pub use label::push_escaped;
pub use mark::{Mark, MarkKind, Moment, TRAVERSAL, marks};
pub use perfetto::{naming, perfetto_text, put_counted, put_number, put_slice, put_text};
pub use picture::{Form, Picture, picture_of};
pub use reader::parse_report;
pub use report::{Act, Fates, Frame, Looper, ParsedReport, Past, Report, Run, Subject};
pub use svg::svg_text;
pub use view::{USUAL_WIDTH, View, Window};
