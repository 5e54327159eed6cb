//! The time line of a map as SVG: a row for each burst, or rows of equal time if the bursts are many.

use crate::drawing::{Drawing, FRAME_WORDS, Grant, Micros, OnuName, class_name};
use crate::parts::{Burst, HEADER_WORDS};
use crate::rows::{Piece, Rows, TIME_ROW_WORDS, TIME_ROWS, time_piece};
use crate::svg_parts::{
    Anchor, BLUE, GREEN, GREY, LETTERS, ORANGE, head_text, push_legend, push_line, push_small_text,
    push_text,
};
use pon_admit::Row;
use pon_descr::Class;
use std::alloc::{AllocError, Global};
use std::fmt::{self, Display, Formatter, Write};

/// Units left of the rows, and of a row: those of a row of equal time are its words.
const LEFT: u64 = 100;

const ROW_WIDTH: u64 = TIME_ROW_WORDS;

/// Units between a row and the words left of it.
const LEFT_GAP: u64 = 8;

/// Units above the first row.
const TOP: u64 = 76;

/// The height of a bar, the height of a row of one burst, and that of a row of equal time, which has names above its bar.
const BAR: u64 = 16;

const BURST_ROW: u64 = 22;

const TIME_ROW: u64 = 36;

/// Units from the last row to the legend, and the height of the legend.
const LEGEND_GAP: u64 = 8;

const LEGEND: u64 = 32;

/// Words between two marks of the scale, in rows of bursts and in rows of equal time.
const BURST_MARK_WORDS: u64 = 1_620;

const TIME_MARK_WORDS: u64 = 135;

/// The width of a bar that has room for an Alloc-ID, and of the part of a burst that has room for its ONU.
const ALLOC_ROOM: u64 = 30;

const ONU_ROOM: u64 = 44;

/// Words of a unit in rows of bursts.
const UNIT_WORDS: u64 = FRAME_WORDS / ROW_WIDTH;

/// From words to units in rows of bursts: 810 units of 9,720 words.
const BURST_SCALE: &str = "0.08333333";

const TIME_SCALE: &str = "1";

const EDGE_COLOUR: &str = "#333333";

const NO_COLOUR: &str = "#999999";

/// The meaning of the colours, from left to right.
const MEANINGS: [(u64, &str, &str); 4] = [
    (100, BLUE, "guaranteed only"),
    (280, GREEN, "non-assured"),
    (430, ORANGE, "best effort"),
    (580, GREY, "gap"),
];

/// How rows are drawn: what they have, and the units from one to the next.
#[derive(Clone, Copy)]
struct Layout {
    rows: Rows,
    count: u64,
}

impl Layout {
    fn of(drawing: &Drawing<'_>) -> Layout {
        let bursts = drawing.bursts.len();
        let rows = Rows::of(bursts, drawing.structures.len());
        let count = match rows {
            Rows::Bursts => bursts as u64,
            Rows::Times => TIME_ROWS,
        };
        Layout { rows, count }
    }

    // The units from a row to the next one.
    fn pitch(self) -> u64 {
        match self.rows {
            Rows::Bursts => BURST_ROW,
            Rows::Times => TIME_ROW,
        }
    }

    // The upper edge of a row's bar.
    fn top_of(self, row: u64) -> u64 {
        let pitch = self.pitch();
        let top = row.saturating_mul(pitch).saturating_add(pitch);
        top.saturating_add(TOP - BAR)
    }

    // The lower edge of the last row.
    fn bottom(self) -> u64 {
        self.count.saturating_mul(self.pitch()).saturating_add(TOP)
    }

    // The factor from words to units.
    fn scale(self) -> &'static str {
        match self.rows {
            Rows::Bursts => BURST_SCALE,
            Rows::Times => TIME_SCALE,
        }
    }

    // The units of words.
    fn units(self, words: u64) -> u64 {
        match self.rows {
            Rows::Bursts => words / UNIT_WORDS,
            Rows::Times => words,
        }
    }

    // The piece at a word of a part of a burst, by the number of the burst. The part ends before `end`.
    fn piece_at(self, at: u64, end: u64, burst: u64) -> Piece {
        if self.rows == Rows::Times && at < end {
            return time_piece(at, end);
        }
        Piece {
            row: burst,
            first: at,
            words: end.saturating_sub(at),
        }
    }
}

/// A part of a burst that is drawn: its first word, its words, and the number of its burst.
#[derive(Clone, Copy)]
struct Part {
    first: u64,
    words: u64,
    burst: u64,
}

fn colour_of(row: Option<Row>) -> &'static str {
    match row {
        None => NO_COLOUR,
        Some(row) => match row.descriptor.class() {
            Class::Plain => BLUE,
            Class::NonAssured => GREEN,
            Class::BestEffort => ORANGE,
        },
    }
}

// The time at a mark of the scale.
#[derive(Clone, Copy)]
struct MarkTime(u64);

impl Display for MarkTime {
    fn fmt<W: Write>(&self, f: &mut Formatter<W>) -> fmt::Result {
        let nanoseconds = Micros(self.0).nanoseconds();
        let (micros, rest) = (nanoseconds / 1_000, nanoseconds % 1_000);
        write!(f, "{micros}.{rest:03} us")
    }
}

// A number of words.
#[derive(Clone, Copy)]
struct Words(u64);

impl Display for Words {
    fn fmt<W: Write>(&self, f: &mut Formatter<W>) -> fmt::Result {
        write!(f, "word {}", self.0)
    }
}

// The title of a grant.
#[derive(Clone, Copy)]
struct GrantTitle {
    id: u16,
    class: &'static str,
}

impl Display for GrantTitle {
    fn fmt<W: Write>(&self, f: &mut Formatter<W>) -> fmt::Result {
        write!(f, "Alloc-ID {}, {}", self.id, self.class)
    }
}

// The look of a part: its colour, and whether it is drawn lighter than its neighbours.
#[derive(Clone, Copy)]
struct Look {
    colour: &'static str,
    is_light: bool,
}

// Appends a piece of a part. A pointer on it shows the title and the numbers of the part.
fn push_piece<D: Display + Copy>(
    text: &mut String,
    layout: Layout,
    piece: Piece,
    part: Part,
    look: Look,
    title: D,
) -> Result<(), AllocError> {
    let (x, y, width) = (piece.first, layout.top_of(piece.row), piece.words);
    let (first, words) = (part.first, part.words);
    let (end, at, time) = (first.saturating_add(words), Micros(first), Micros(words));
    let colour = look.colour;
    let opacity = if look.is_light {
        " fill-opacity=\"0.7\""
    } else {
        ""
    };
    write!(
        text,
        "<rect x=\"{x}\" y=\"{y}\" width=\"{width}\" height=\"{BAR}\" fill=\"{colour}\"{opacity}>"
    )?;
    writeln!(
        text,
        "<title>{title}: {words} words from {first} to before {end}, {time} us from {at} us</title></rect>"
    )
}

// Appends a part, in pieces.
fn push_part<D: Display + Copy>(
    text: &mut String,
    layout: Layout,
    part: Part,
    look: Look,
    title: D,
) -> Result<(), AllocError> {
    let end = part.first.saturating_add(part.words);
    let mut at = part.first;
    for _piece in 0..=TIME_ROWS {
        if at >= end {
            return Ok(());
        }
        let piece = layout.piece_at(at, end, part.burst);
        push_piece(text, layout, piece, part, look, title)?;
        at = at.saturating_add(piece.words);
    }
    Ok(())
}

// Appends the grants of a burst; each second one is lighter.
fn push_grants(
    text: &mut String,
    drawing: &Drawing<'_>,
    layout: Layout,
    burst: &Burst,
    number: u64,
) -> Result<(), AllocError> {
    for place in burst.first..burst.end {
        let Some(Grant { id, first, words }) = drawing.grant(place) else {
            continue;
        };
        let look = Look {
            colour: colour_of(drawing.row_of(place)),
            is_light: (place - burst.first) % 2 == 1,
        };
        let class = class_name(drawing.row_of(place));
        let title = GrantTitle { id, class };
        let part = Part {
            first,
            words,
            burst: number,
        };
        push_part(text, layout, part, look, title)?;
    }
    Ok(())
}

// Appends a part of a burst that is no grant.
fn push_overhead(
    text: &mut String,
    layout: Layout,
    part: Part,
    colour: &'static str,
    title: &str,
) -> Result<(), AllocError> {
    let is_light = false;
    push_part(text, layout, part, Look { colour, is_light }, title)
}

// Returns the header or the trailer at a word of a burst.
fn edge_at(first: u64, burst: u64) -> Part {
    Part {
        first,
        words: HEADER_WORDS,
        burst,
    }
}

// Appends the bars of a burst: the gap before it, its header, its grants and its trailer.
fn push_burst(
    text: &mut String,
    drawing: &Drawing<'_>,
    layout: Layout,
    burst: &Burst,
    number: u64,
) -> Result<(), AllocError> {
    let words = drawing.gap.min(burst.header);
    let gap = Part {
        first: burst.header - words,
        words,
        burst: number,
    };
    push_overhead(text, layout, gap, GREY, "gap")?;
    let header = edge_at(burst.header, number);
    push_overhead(text, layout, header, EDGE_COLOUR, "header")?;
    push_grants(text, drawing, layout, burst, number)?;
    let trailer = edge_at(burst.trailer, number);
    push_overhead(text, layout, trailer, EDGE_COLOUR, "trailer")
}

// Appends the bars of all bursts, in words.
fn push_bars(text: &mut String, drawing: &Drawing<'_>, layout: Layout) -> Result<(), AllocError> {
    let scale = layout.scale();
    writeln!(
        text,
        "<g transform=\"translate({LEFT} 0) scale({scale} 1)\">"
    )?;
    for (number, burst) in drawing.bursts.iter().enumerate() {
        push_burst(text, drawing, layout, burst, number as u64)?;
    }
    text.push_str("</g>\n")
}

// Appends the Alloc-IDs of the grants of a burst that have room for them.
fn push_alloc_names(
    text: &mut String,
    drawing: &Drawing<'_>,
    layout: Layout,
    burst: &Burst,
    number: u64,
) -> Result<(), AllocError> {
    for place in burst.first..burst.end {
        let Some(Grant { id, first, words }) = drawing.grant(place) else {
            continue;
        };
        let piece = layout.piece_at(first, first.saturating_add(words), number);
        if layout.units(piece.words) >= ALLOC_ROOM {
            let x = layout.units(piece.first).saturating_add(LEFT + 2);
            let low = layout.top_of(piece.row).saturating_add(BAR);
            push_small_text(text, (x, low.saturating_sub(BAR - LETTERS)), id)?;
        }
    }
    Ok(())
}

// Appends the name of a burst's ONU: left of its row, or above the first piece of the burst that has room for it.
fn push_onu_name(
    text: &mut String,
    drawing: &Drawing<'_>,
    layout: Layout,
    burst: &Burst,
    number: u64,
) -> Result<(), AllocError> {
    let name = OnuName(drawing.row_of(burst.first));
    if layout.rows == Rows::Bursts {
        let low = layout.top_of(number).saturating_add(LETTERS);
        return push_text(text, (LEFT - LEFT_GAP, low), Anchor::End, name);
    }
    let end = burst.trailer.saturating_add(HEADER_WORDS);
    let mut at = burst.header;
    for _piece in 0..=TIME_ROWS {
        let piece = layout.piece_at(at, end, number);
        if piece.words >= ONU_ROOM {
            let low = layout.top_of(piece.row).saturating_sub(BAR - LETTERS);
            return push_small_text(text, (piece.first.saturating_add(LEFT), low), name);
        }
        at = at.saturating_add(piece.words);
    }
    Ok(())
}

// Appends the names in the picture.
fn push_names(text: &mut String, drawing: &Drawing<'_>, layout: Layout) -> Result<(), AllocError> {
    for (number, burst) in drawing.bursts.iter().enumerate() {
        push_onu_name(text, drawing, layout, burst, number as u64)?;
        push_alloc_names(text, drawing, layout, burst, number as u64)?;
    }
    Ok(())
}

// Appends the scale of rows of bursts, in words and microseconds.
fn push_burst_scale(text: &mut String, bottom: u64) -> Result<(), AllocError> {
    for mark in 0..=FRAME_WORDS / BURST_MARK_WORDS {
        let word = mark * BURST_MARK_WORDS;
        let x = LEFT + word / UNIT_WORDS;
        push_text(text, (x, TOP - 2 * LETTERS), Anchor::Middle, Words(word))?;
        push_text(text, (x, TOP - LETTERS / 2), Anchor::Middle, MarkTime(word))?;
        push_line(text, (x, TOP), (x, bottom))?;
    }
    Ok(())
}

// Appends the scale of rows of equal time: the words in a row above, the first word and the time of each row left of it.
fn push_time_scale(text: &mut String, layout: Layout) -> Result<(), AllocError> {
    let (top, bottom) = (TOP - LETTERS, layout.bottom());
    for mark in 0..=TIME_ROW_WORDS / TIME_MARK_WORDS {
        let word = mark * TIME_MARK_WORDS;
        let x = LEFT + word;
        push_text(text, (x, top - LETTERS / 2), Anchor::Middle, word)?;
        push_line(text, (x, top), (x, bottom))?;
    }
    for row in 0..TIME_ROWS {
        let (word, top) = (row * TIME_ROW_WORDS, layout.top_of(row));
        let (x, low) = (LEFT - LEFT_GAP, top.saturating_add(LETTERS));
        push_text(text, (x, top), Anchor::End, Words(word))?;
        push_text(text, (x, low), Anchor::End, MarkTime(word))?;
    }
    Ok(())
}

/// The picture of a map as SVG: its colours by class, and the numbers of a part as its title. A row has a burst, or a
/// twelfth of the frame if the bursts are many.
pub(crate) fn svg_text(
    alloc: Global,
    heading: &str,
    drawing: &Drawing<'_>,
) -> Result<String, AllocError> {
    let layout = Layout::of(drawing);
    let bottom = layout.bottom();
    let height = bottom.saturating_add(LEGEND_GAP + LEGEND);
    let mut text = head_text(alloc, height, heading)?;
    match layout.rows {
        Rows::Bursts => push_burst_scale(&mut text, bottom)?,
        Rows::Times => push_time_scale(&mut text, layout)?,
    }
    push_bars(&mut text, drawing, layout)?;
    push_names(&mut text, drawing, layout)?;
    push_legend(&mut text, bottom.saturating_add(LEGEND_GAP), &MEANINGS)?;
    text.push_str("</svg>\n")?;
    Ok(text)
}
