//! Parts of pictures in SVG. A unit is a pixel.

use std::alloc::{AllocError, Global};
use std::fmt::Display;

/// The width of each picture.
pub(crate) const WIDTH: u64 = 960;

/// Units from the left edge to a heading and a legend.
const MARGIN: u64 = 16;

/// The height of the letters, of those of a heading, and of small ones.
pub(crate) const LETTERS: u64 = 12;

const HEADING_LETTERS: u64 = 14;

pub(crate) const SMALL_LETTERS: u64 = 9;

/// The base line of the heading.
const HEADING_LOW: u64 = 24;

/// The letters of a heading that fit into the width. A longer one is drawn narrower.
const HEADING_COLUMNS: usize = 110;

/// The side of the square of a colour in a legend, and the units from it to its meaning.
const SQUARE: u64 = 12;

const SQUARE_GAP: u64 = 6;

/// Colours that a colour-blind reader tells apart.
pub(crate) const BLUE: &str = "#4e79a7";

pub(crate) const GREEN: &str = "#59a14f";

pub(crate) const ORANGE: &str = "#f28e2b";

pub(crate) const GREY: &str = "#d9d9d9";

/// Where words begin or end at their place: to its right, around it, or to its left.
#[derive(Clone, Copy)]
pub(crate) enum Anchor {
    Start,
    Middle,
    End,
}

// The word of an anchor.
fn anchor_word(anchor: Anchor) -> &'static str {
    match anchor {
        Anchor::Start => "start",
        Anchor::Middle => "middle",
        Anchor::End => "end",
    }
}

/// The beginning of a picture of this height: its size, its title, its white ground and its heading. `Err` only if memory is
/// refused.
pub(crate) fn head_text(alloc: Global, height: u64, heading: &str) -> Result<String, AllocError> {
    let inner = WIDTH - 2 * MARGIN;
    let mut text = format!(in alloc;
        "<svg xmlns=\"http://www.w3.org/2000/svg\" width=\"{WIDTH}\" height=\"{height}\" viewBox=\"0 0 {WIDTH} {height}\" font-family=\"sans-serif\" font-size=\"{LETTERS}\">\n<title>{heading}</title>\n<rect width=\"{WIDTH}\" height=\"{height}\" fill=\"#ffffff\"/>\n<text x=\"{MARGIN}\" y=\"{HEADING_LOW}\" font-size=\"{HEADING_LETTERS}\" font-weight=\"bold\""
    )?;
    if heading.len() > HEADING_COLUMNS {
        write!(
            text,
            " textLength=\"{inner}\" lengthAdjust=\"spacingAndGlyphs\""
        )?;
    }
    writeln!(text, ">{heading}</text>")?;
    Ok(text)
}

/// Appends words at a place. `Err` only if memory is refused.
pub(crate) fn push_text<D: Display + Copy>(
    text: &mut String,
    (x, y): (u64, u64),
    anchor: Anchor,
    words: D,
) -> Result<(), AllocError> {
    let anchor = anchor_word(anchor);
    writeln!(
        text,
        "<text x=\"{x}\" y=\"{y}\" text-anchor=\"{anchor}\">{words}</text>"
    )
}

/// Appends small words to the right of a place. `Err` only if memory is refused.
pub(crate) fn push_small_text<D: Display + Copy>(
    text: &mut String,
    (x, y): (u64, u64),
    words: D,
) -> Result<(), AllocError> {
    writeln!(
        text,
        "<text x=\"{x}\" y=\"{y}\" font-size=\"{SMALL_LETTERS}\">{words}</text>"
    )
}

/// Appends a line of the scale. `Err` only if memory is refused.
pub(crate) fn push_line(
    text: &mut String,
    (left, top): (u64, u64),
    (right, low): (u64, u64),
) -> Result<(), AllocError> {
    writeln!(
        text,
        "<line x1=\"{left}\" y1=\"{top}\" x2=\"{right}\" y2=\"{low}\" stroke=\"#cccccc\"/>"
    )
}

/// Appends what colours mean: for each its place to the right, the colour and the meaning. `Err` only if memory is refused.
pub(crate) fn push_legend(
    text: &mut String,
    top: u64,
    legend: &[(u64, &str, &str)],
) -> Result<(), AllocError> {
    let low = top.saturating_add(SQUARE);
    for (x, colour, name) in legend {
        writeln!(
            text,
            "<rect x=\"{x}\" y=\"{top}\" width=\"{SQUARE}\" height=\"{SQUARE}\" fill=\"{colour}\"/>"
        )?;
        let place = (x.saturating_add(SQUARE + SQUARE_GAP), low.saturating_sub(2));
        push_text(text, place, Anchor::Start, name)?;
    }
    Ok(())
}
