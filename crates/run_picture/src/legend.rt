//! The legend of a picture: what its marks mean.
use crate::canvas::Canvas;
use crate::glyph::letter;
use crate::shape::{Extent, RIGHT, push_class, push_rect, push_text};
use loop_model::NoMemory;
use std::alloc::Global;

/// What the legend explains.
#[derive(Clone, Copy)]
enum Sign {
    Phase(u64),
    Dispatch,
    FrameMessage,
    Several,
    Frame,
    EmptyFrame,
    Value,
    Refusal,
}

/// The signs behind the phases.
const SIGNS: [Sign; 7] = [
    Sign::Frame,
    Sign::EmptyFrame,
    Sign::Dispatch,
    Sign::FrameMessage,
    Sign::Several,
    Sign::Value,
    Sign::Refusal,
];

/// The height of a line of the legend, in pixels.
const LINE: u64 = 20;

/// Where the next sign stands, and up to where one may reach.
#[derive(Clone, Copy)]
struct Pen {
    x: u64,
    y: u64,
    right: u64,
}

/// The names of the phases, by their number.
fn phase_name(phases: u64, phase: u64) -> &'static [u8] {
    if phase == 0 {
        return b"input";
    }
    if phase == 1 {
        return b"animation";
    }
    if phases == 5 && phase == 2 {
        return b"insets";
    }
    if phase.saturating_add(1) == phases {
        return b"commit";
    }
    b"traversal"
}

fn name_of(sign: Sign, phases: u64) -> &'static [u8] {
    match sign {
        Sign::Phase(phase) => phase_name(phases, phase),
        Sign::Dispatch => b"dispatch, with its what or callback",
        Sign::FrameMessage => b"dispatch of a frame message",
        Sign::Several => b"three at one place",
        Sign::Frame => b"frame",
        Sign::EmptyFrame => b"frame in which nothing ran",
        Sign::Value => b"value of a gauge",
        Sign::Refusal => b"red: refused",
    }
}

/// A rhombus around a point below this one.
fn push_rhombus(out: &mut Canvas, class: &[u8], x: u64, y: u64) -> Result<(), NoMemory> {
    out.extend_from_slice(b"<path")?;
    push_class(out, class)?;
    out.extend_from_slice(b" d=\"M")?;
    out.push_number(x.saturating_add(7))?;
    out.push(b' ')?;
    out.push_number(y.saturating_add(1))?;
    out.extend_from_slice(b"l4 6-4 6-4-6z\"/>")
}

/// The step of a gauge.
fn push_value(out: &mut Canvas, x: u64, y: u64) -> Result<(), NoMemory> {
    out.extend_from_slice(b"<path class=\"v\" d=\"M")?;
    out.push_number(x)?;
    out.push(b' ')?;
    out.push_number(y.saturating_add(12))?;
    out.extend_from_slice(b"h7v-9h7\"/>")
}

/// The part of a frame that is a phase's, with its letter.
fn push_phase(
    alloc: Global,
    out: &mut Canvas,
    phases: u64,
    phase: u64,
    extent: Extent,
) -> Result<(), NoMemory> {
    let letter = letter(phases, phase);
    let mut class = Vec::new(alloc);
    class.push(b'p')?;
    class.extend_from_slice(letter)?;
    push_rect(out, extent, &class)?;
    push_text(
        out,
        extent.x.saturating_add(7),
        extent.y.saturating_add(11),
        b"c",
        letter,
    )
}

/// What a sign looks like.
fn push_figure(
    alloc: Global,
    out: &mut Canvas,
    sign: Sign,
    phases: u64,
    x: u64,
    y: u64,
) -> Result<(), NoMemory> {
    let extent = Extent {
        x,
        y,
        width: 14,
        height: 14,
    };
    match sign {
        Sign::Phase(phase) => push_phase(alloc, out, phases, phase, extent),
        Sign::Dispatch => push_rhombus(out, b"d", x, y),
        Sign::FrameMessage => push_rhombus(out, b"m", x, y),
        Sign::Several => push_text(out, x, y.saturating_add(11), b"w", b"x3"),
        Sign::Frame => push_rect(out, extent, b"b"),
        Sign::EmptyFrame => push_rect(out, extent, b"e"),
        Sign::Value => push_value(out, x, y),
        Sign::Refusal => Ok(()),
    }
}

/// A sign and its name, in the next line where they don't fit into this one.
fn push_sign(
    alloc: Global,
    out: &mut Canvas,
    pen: &mut Pen,
    sign: Sign,
    phases: u64,
) -> Result<(), NoMemory> {
    let name = name_of(sign, phases);
    let width = 36u64.saturating_add((name.len() as u64).saturating_mul(13) / 2);
    if pen.x.saturating_add(width) > pen.right && pen.x > 16 {
        pen.x = 16;
        pen.y = pen.y.saturating_add(LINE);
    }
    push_figure(alloc, out, sign, phases, pen.x, pen.y)?;
    let class: &[u8] = match sign {
        Sign::Refusal => b"r",
        _ => b"k",
    };
    push_text(
        out,
        pen.x.saturating_add(18),
        pen.y.saturating_add(11),
        class,
        name,
    )?;
    pen.x = pen.x.saturating_add(width);
    out.push(b'\n')
}

/// Draws what the marks mean, from this height on. Answers where it ends.
pub(crate) fn push_legend(
    alloc: Global,
    out: &mut Canvas,
    phases: u64,
    y: u64,
    width: u32,
) -> Result<u64, NoMemory> {
    let mut pen = Pen {
        x: 16,
        y,
        right: u64::from(width).saturating_sub(RIGHT),
    };
    for phase in 0..phases.min(5) {
        push_sign(alloc, out, &mut pen, Sign::Phase(phase), phases)?;
    }
    for sign in SIGNS {
        push_sign(alloc, out, &mut pen, sign, phases)?;
    }
    Ok(pen.y.saturating_add(LINE))
}
