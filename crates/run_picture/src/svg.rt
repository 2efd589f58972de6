//! The picture as an SVG.
ghost use Rattle.std.specs.Prelude.{◌≡◌, ◌++◌, IfOk, OnOk, None};
ghost use Rattle.run_picture.specs.Drawn.{AreElements, Draws, IsElement, opening};

use crate::canvas::Canvas;
use crate::glyph::{Spot, push_glyph};
use crate::group::{Group, Scale, groups};
use crate::label::{push_escaped, push_group};
use crate::lanes::{Lanes, push_lanes};
use crate::legend::push_legend;
use crate::levels::{Gauges, most_of, push_levels};
use crate::mark::{Mark, marks};
use crate::report::Report;
use crate::scale::{period_of, scale_of};
use crate::shape::{LEFT, numbered, push_attribute, push_line, push_text};
use crate::shelf::{level_of, shelf_of};
use crate::view::{View, seen};
use line_words::push_number;
use loop_model::NoMemory;
use std::alloc::Global;

const STYLE: &[u8] =
    b"<style>text{font:11px 'DejaVu Sans',Helvetica,sans-serif;fill:#1b1f24}.h{font-size:16px;font-weight:bold}.n{font-size:15px;font-weight:bold}.f{fill:#6a737d}.l{fill:#6a737d;text-anchor:end}.t{fill:#6a737d;text-anchor:middle}.r{fill:#cf222e}.q{stroke:#d9dde2}.g{stroke:#d9dde2;stroke-dasharray:2 3}.d{fill:#1b1f24}.m{fill:#fff;stroke:#6a737d}.w{font-size:10px}.b{fill:#eaeef2;stroke:#8c959f}.e{fill:#fff;stroke:#8c959f;stroke-dasharray:3 2}.a{fill:#6a737d;font-size:9px;text-anchor:end}.z{text-anchor:end}.pI{fill:#8250df}.pA{fill:#0969da}.pS{fill:#57606a}.pT{fill:#1a7f37}.pC{fill:#bc4c00}.c{fill:#fff;font-size:10px;text-anchor:middle}.v{fill:none;stroke:#1a7f37;stroke-width:1.6}.o{fill:#1a7f37}</style>";

/// The beginning of an element that stands at this point of the lanes.
fn push_start(out: &mut Vec<u8>, x: u64, y: u64) -> Result<(), NoMemory>
    ensures { OnOk result (out.new.items ≡ out.old.items ++ opening x y) }
{
    out.extend_from_slice(b"<g class=\"mark\" transform=\"translate(")?;
    push_number(out, x)?;
    out.extend_from_slice(b" ")?;
    push_number(out, y)?;
    out.extend_from_slice(b")\"><title>")?;
    Ok(())
}

/// The element of a group: it stands at its column, has its text for a pointer or a screen reader, and a shape.
#[tactic(auto, using(std::proofs::lemmas::List::append_assoc))]
fn push_element(
    alloc: Global,
    out: &mut Vec<u8>,
    y: u64,
    group: &Group,
    shape: &[u8],
) -> Result<(), NoMemory>
    ensures { OnOk result (IsElement group.now y shape.now out.old.items out.new.items) }
{
    let mut label = Vec::new(alloc);
    push_group(&mut label, group)?;
    push_start(out, group.place.column, y)?;
    push_escaped(out, &label)?;
    out.extend_from_slice(b"</title>")?;
    out.extend_from_slice(shape)?;
    out.extend_from_slice(b"</g>\n")?;
    Ok(())
}

/// Draws one element for each group, in order.
fn push_elements(
    alloc: Global,
    out: &mut Vec<u8>,
    groups: &[Group],
    lanes: &Lanes,
    most: u32,
    spot: Spot,
) -> Result<(), NoMemory>
    ensures { OnOk result (AreElements most None groups.now out.old.items out.new.items) }
{
    let mut spot = spot;
    let mut last = None;
    for (index, group) in groups.iter().enumerate() {
        let shelf = shelf_of(last, group, lanes.top_of(index));
        let mut shape = Canvas::new(alloc);
        spot.see(groups, index, group);
        push_glyph(alloc, &mut shape, &mut spot, group)?;
        let level = level_of(most, shelf, group);
        push_element(alloc, out, level, group, &shape.into_bytes())?;
        last = Some(shelf);
    }
    Ok(())
}

/// The distance of two ticks in milliseconds: 1, 2 or 5 and zeros, so that there are at most about so many.
fn tick_step(span: u128, most: u128) -> u128 {
    let millis = span / 1_000_000;
    let mut unit = 1u128;
    for _ in 0..20u64 {
        for factor in [1u128, 2, 5] {
            let step = unit.saturating_mul(factor);
            if millis / step.max(1) <= most {
                return step;
            }
        }
        unit = unit.saturating_mul(10);
    }
    unit
}

/// The lines of the time between these heights, each with its milliseconds.
fn push_ticks(
    alloc: Global,
    out: &mut Canvas,
    scale: Scale,
    top: u64,
    bottom: u64,
) -> Result<(), NoMemory> {
    let most = u64::from(scale.width / 73).max(1);
    let step = tick_step(scale.span, u128::from(most)).max(1);
    let first = scale.first / 1_000_000 / step;
    for number in 0..most.saturating_add(2) {
        let millis = first
            .saturating_add(u128::from(number))
            .saturating_mul(step);
        let time = millis.saturating_mul(1_000_000);
        if time >= scale.first && time <= scale.first.saturating_add(scale.span) {
            let x = LEFT.saturating_add(scale.pixels(time));
            push_line(out, (x, top.saturating_add(6)), (x, bottom), b"g")?;
            let mut text = numbered(alloc, b"", u64::try_from(millis).unwrap_or(u64::MAX))?;
            text.extend_from_slice(b" ms")?;
            push_text(out, x, top, b"t", &text)?;
            out.push(b'\n')?;
        }
    }
    Ok(())
}

/// How many of the marks are of each kind, in words.
fn push_summary(
    out: &mut Canvas,
    report: &Report,
    marks: u64,
    groups: u64,
) -> Result<(), NoMemory> {
    out.extend_from_slice(b"Loopers: ")?;
    out.push_number(report.loopers.len() as u64)?;
    out.extend_from_slice(b". Marks: ")?;
    out.push_number(marks)?;
    out.extend_from_slice(b", at places: ")?;
    out.push_number(groups)?;
    out.extend_from_slice(
        b". Marks are dispatches, frames, the callbacks that ran in them, and paints. Times are milliseconds of uptime. Each mark has its text as its title.",
    )?;
    Ok(())
}

/// The size of the picture.
fn push_size(out: &mut Canvas, width: u64, height: u64) -> Result<(), NoMemory> {
    out.extend_from_slice(b"<svg xmlns=\"http://www.w3.org/2000/svg\"")?;
    push_attribute(out, b"width", width)?;
    push_attribute(out, b"height", height)?;
    out.extend_from_slice(b" viewBox=\"0 0 ")?;
    out.push_number(width)?;
    out.push(b' ')?;
    out.push_number(height)
}

/// What the head of a picture says.
#[derive(Clone, Copy)]
struct Heading<'a> {
    title: &'a [u8],
    marks: u64,
    groups: u64,
    height: u64,
}

/// The head of the file: its size, title and description, and the looks.
fn push_opening(
    out: &mut Canvas,
    report: &Report,
    width: u32,
    heading: &Heading,
) -> Result<(), NoMemory> {
    push_size(out, u64::from(width), heading.height)?;
    out.extend_from_slice(
        b"\" role=\"graphics-document document\" aria-labelledby=\"title desc\"><title id=\"title\">",
    )?;
    out.push_escaped(heading.title)?;
    out.extend_from_slice(b"</title><desc id=\"desc\">")?;
    push_summary(out, report, heading.marks, heading.groups)?;
    out.extend_from_slice(b"</desc>\n")?;
    out.extend_from_slice(STYLE)?;
    out.extend_from_slice(b"\n<rect width=\"100%\" height=\"100%\" fill=\"#fff\"/>\n")?;
    push_text(out, 16, 25, b"h", heading.title)?;
    out.push(b'\n')
}

/// How many phases a frame has.
fn phases_of(report: &Report) -> u64 {
    if report.edition == 1 { 4 } else { 5 }
}

/// What is said where no mark is shown.
fn push_nothing(out: &mut Canvas, view: View, y: u64) -> Result<(), NoMemory> {
    let text: &[u8] = match view.window {
        Some(_) => b"Nothing was dispatched, and no frame began, in this window of time.",
        None => b"Nothing was dispatched, and no frame began.",
    };
    push_text(out, 16, y, b"f", text)?;
    out.push(b'\n')
}

/// What a picture is drawn by.
#[derive(Clone, Copy)]
struct Look<'a> {
    view: View,
    title: &'a [u8],
    scale: Scale,
    /// How many marks are shown.
    marks: u64,
}

/// All but the elements of the groups, and where their rows are.
fn background(
    alloc: Global,
    report: &Report,
    look: &Look,
    gauges: &Gauges,
    groups: &[Group],
) -> Result<(Canvas, Lanes), NoMemory> {
    let width = look.view.width;
    let mut upper = Canvas::new(alloc);
    let mut top = push_legend(alloc, &mut upper, phases_of(report), 38, width)?.saturating_add(14);
    if groups.is_empty() {
        push_nothing(&mut upper, look.view, top)?;
        top = top.saturating_add(22);
    }
    let mut lower = Canvas::new(alloc);
    let first = top.saturating_add(18);
    let lanes = push_lanes(alloc, &mut lower, report, groups, first, look.scale.width)?;
    push_levels(alloc, &mut lower, groups, &lanes, gauges)?;
    if look.view.window.is_some() || !groups.is_empty() {
        push_ticks(
            alloc,
            &mut upper,
            look.scale,
            top,
            lanes.next.saturating_sub(6),
        )?;
    }
    let heading = Heading {
        title: look.title,
        marks: look.marks,
        groups: groups.len() as u64,
        height: lanes.next.saturating_add(10),
    };
    let mut out = Canvas::new(alloc);
    push_opening(&mut out, report, width, &heading)?;
    out.extend_from_slice(&upper.into_bytes())?;
    out.extend_from_slice(&lower.into_bytes())?;
    Ok((out, lanes))
}

/// The picture of a report as one SVG that stands alone, with this text above it. `NoMemory` where there was none.
pub fn svg_text(
    alloc: Global,
    report: &Report,
    view: View,
    title: &[u8],
) -> Result<Vec<u8>, NoMemory>
    ensures { IfOk result (λ text. Draws view report.now text.items) }
{
    let all = marks(alloc, report)?;
    let shown = seen(alloc, view.window, &all)?;
    let count = shown.len() as u64;
    let period = u128::from(period_of(report));
    let scale = scale_of(&shown, view, period, phases_of(report));
    let groups = groups(alloc, scale, shown)?;
    let most = most_of(&groups);
    let look = Look {
        view,
        title,
        scale,
        marks: count,
    };
    let gauges = Gauges {
        marks: &all,
        window: view.window,
        most,
    };
    let (below, lanes) = background(alloc, report, &look, &gauges, &groups)?;
    let mut out = below.into_bytes();
    out.extend_from_slice(b"<g transform=\"translate(150)\">\n")?;
    let frame = scale.pixels(scale.first.saturating_add(period));
    let spot = Spot::new(scale, frame, phases_of(report));
    push_elements(alloc, &mut out, &groups, &lanes, most, spot)?;
    out.extend_from_slice(b"</g>\n</svg>\n")?;
    Ok(out)
}
