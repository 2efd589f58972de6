//! Shapes of an SVG.
use crate::canvas::Canvas;
use line_words::push_number;
use loop_model::NoMemory;
use std::alloc::Global;

/// Where the lanes begin.
pub(crate) const LEFT: u64 = 150;
/// How much is left at the right of the lanes.
pub(crate) const RIGHT: u64 = 24;

/// A name and a number as an attribute.
pub(crate) fn push_attribute(out: &mut Canvas, name: &[u8], number: u64) -> Result<(), NoMemory> {
    out.push(b' ')?;
    out.extend_from_slice(name)?;
    out.extend_from_slice(b"=\"")?;
    out.push_number(number)?;
    out.push(b'"')?;
    Ok(())
}

/// The class of an element.
pub(crate) fn push_class(out: &mut Canvas, class: &[u8]) -> Result<(), NoMemory> {
    out.extend_from_slice(b" class=\"")?;
    out.extend_from_slice(class)?;
    out.push(b'"')?;
    Ok(())
}

/// A box, by its left and upper edge, its width and height.
#[derive(Clone, Copy)]
pub(crate) struct Extent {
    pub(crate) x: u64,
    pub(crate) y: u64,
    pub(crate) width: u64,
    pub(crate) height: u64,
}

pub(crate) fn push_rect(out: &mut Canvas, extent: Extent, class: &[u8]) -> Result<(), NoMemory> {
    out.extend_from_slice(b"<rect")?;
    push_class(out, class)?;
    push_attribute(out, b"x", extent.x)?;
    push_attribute(out, b"y", extent.y)?;
    push_attribute(out, b"width", extent.width)?;
    push_attribute(out, b"height", extent.height)?;
    out.extend_from_slice(b"/>")?;
    Ok(())
}

/// Text at a point; what would be markup is written as an entity.
pub(crate) fn push_text(
    out: &mut Canvas,
    x: u64,
    y: u64,
    class: &[u8],
    text: &[u8],
) -> Result<(), NoMemory> {
    out.extend_from_slice(b"<text")?;
    push_class(out, class)?;
    push_attribute(out, b"x", x)?;
    push_attribute(out, b"y", y)?;
    out.push(b'>')?;
    out.push_escaped(text)?;
    out.extend_from_slice(b"</text>")?;
    Ok(())
}

/// A line from the left or from above.
pub(crate) fn push_line(
    out: &mut Canvas,
    from: (u64, u64),
    to: (u64, u64),
    class: &[u8],
) -> Result<(), NoMemory> {
    out.extend_from_slice(b"<line")?;
    push_class(out, class)?;
    push_attribute(out, b"x1", from.0)?;
    push_attribute(out, b"y1", from.1)?;
    push_attribute(out, b"x2", to.0)?;
    push_attribute(out, b"y2", to.1)?;
    out.extend_from_slice(b"/>\n")?;
    Ok(())
}

/// A word and a number, as text.
pub(crate) fn numbered(alloc: Global, word: &[u8], number: u64) -> Result<Vec<u8>, NoMemory> {
    let mut text = Vec::new(alloc);
    text.extend_from_slice(word)?;
    push_number(&mut text, number)?;
    Ok(text)
}
