//! The time line of a map as text.

use crate::drawing::{Drawing, FRAME_WORDS, Grant, Micros, OnuName, class_name};
use crate::parts::{Burst, HEADER_WORDS};
use std::alloc::{AllocError, Global};

/// Columns of the time line, and words of a column: together a frame.
const COLUMNS: u64 = 60;

const COLUMN_WORDS: u64 = FRAME_WORDS / COLUMNS;

/// Tenths of a microsecond of a frame.
const FRAME_TENTHS: u64 = 1_250;

/// Columns and words between two marks of the scale, and its marks but for the last.
const MARK_COLUMNS: u64 = 10;

const MARK_WORDS: u64 = MARK_COLUMNS * COLUMN_WORDS;

const MARKS: u64 = COLUMNS / MARK_COLUMNS;

// The signs of a gap, of words of no burst, and of a burst that is narrower than a column.
const GAP_SIGN: char = '.';

const NO_SIGN: char = ' ';

const NARROW_SIGN: char = '|';

/// The letters of the grants of a burst, in order.
const LETTERS: &[u8] = b"abcdefghijklmnop";

// Returns the letter of a grant, by its number in its burst.
fn letter_of(number: usize) -> char {
    match LETTERS.get(number) {
        Some(letter) => char::from(*letter),
        None => '?',
    }
}

// Returns the letter of the grant that has a word.
fn letter_at(drawing: &Drawing<'_>, burst: &Burst, word: u64) -> Option<char> {
    for (number, place) in (burst.first..burst.end).enumerate() {
        let Grant { first, words, .. } = drawing.grant(place)?;
        if first <= word && word - first < words {
            return Some(letter_of(number));
        }
    }
    None
}

// Returns the sign of a column: the part of the burst that has its middle word.
fn sign_of(drawing: &Drawing<'_>, burst: &Burst, column: u64) -> char {
    let middle = column
        .saturating_mul(COLUMN_WORDS)
        .saturating_add(COLUMN_WORDS / 2);
    if let Some(letter) = letter_at(drawing, burst, middle) {
        return letter;
    }
    if burst.header / COLUMN_WORDS == column {
        return NARROW_SIGN;
    }
    if middle < burst.header && burst.header - middle <= drawing.gap {
        return GAP_SIGN;
    }
    NO_SIGN
}

// Appends the row of a burst.
fn push_row(
    alloc: Global,
    text: &mut String,
    drawing: &Drawing<'_>,
    burst: &Burst,
) -> Result<(), AllocError> {
    let name = OnuName(drawing.row_of(burst.first)).to_string(alloc)?;
    let mut row = format!(in alloc; "{name:<10}")?;
    let end = (burst.trailer / COLUMN_WORDS).min(COLUMNS - 1);
    for column in 0..=end {
        row.push(sign_of(drawing, burst, column))?;
    }
    text.push_str(row.as_str().trim_end())?;
    text.push('\n')
}

// Appends the words at the marks of the scale.
fn push_words(text: &mut String) -> Result<(), AllocError> {
    text.push_str("words     ")?;
    for mark in 0..MARKS {
        let word = mark * MARK_WORDS;
        write!(text, "{word:<10}")?;
    }
    writeln!(text, "{FRAME_WORDS}")
}

// Makes the time at a mark of the scale, in microseconds with one decimal place, rounded half up.
fn time_text(alloc: Global, mark: u64) -> Result<String, AllocError> {
    let time = mark.saturating_mul(MARK_COLUMNS * FRAME_TENTHS);
    let tenths = time.saturating_add(COLUMNS / 2) / COLUMNS;
    let (micros, tenth) = (tenths / 10, tenths % 10);
    format!(in alloc; "{micros}.{tenth}")
}

// Appends the times at the marks of the scale.
fn push_times(alloc: Global, text: &mut String) -> Result<(), AllocError> {
    text.push_str("us        ")?;
    for mark in 0..MARKS {
        let time = time_text(alloc, mark)?;
        write!(text, "{time:<10}")?;
    }
    let end = time_text(alloc, MARKS)?;
    writeln!(text, "{end}")
}

// Appends the scale: words, microseconds, and a mark for each.
fn push_scale(alloc: Global, text: &mut String) -> Result<(), AllocError> {
    push_words(text)?;
    push_times(alloc, text)?;
    text.push_str("          ")?;
    for _ in 0..MARKS {
        text.push_str("|---------")?;
    }
    text.push_str("|\n")
}

/// The time line of a map: a row for each burst under a scale in words and microseconds.
pub(crate) fn rows_text(alloc: Global, drawing: &Drawing<'_>) -> Result<String, AllocError> {
    let mut text = String::new(alloc);
    push_scale(alloc, &mut text)?;
    for burst in drawing.bursts {
        push_row(alloc, &mut text, drawing, burst)?;
    }
    Ok(text)
}

// Appends the beginning of the line of a part: its first word and its words, both also as times.
fn push_place(text: &mut String, first: u64, words: u64) -> Result<(), AllocError> {
    let (at, time) = (Micros(first), Micros(words));
    write!(text, "{first:>6}  {at}  {words:>6}  {time}  ")
}

// Appends the lines of the grants of a burst.
fn push_grants(text: &mut String, drawing: &Drawing<'_>, burst: &Burst) -> Result<(), AllocError> {
    for (number, place) in (burst.first..burst.end).enumerate() {
        let Some(Grant { id, first, words }) = drawing.grant(place) else {
            continue;
        };
        let class = class_name(drawing.row_of(place));
        let letter = letter_of(number);
        push_place(text, first, words)?;
        writeln!(text, "{letter}  grant of Alloc-ID {id}, {class}")?;
    }
    Ok(())
}

// Appends the lines of the parts of a burst.
fn push_parts(text: &mut String, drawing: &Drawing<'_>, burst: &Burst) -> Result<(), AllocError> {
    let gap = drawing.gap.min(burst.header);
    push_place(text, burst.header - gap, gap)?;
    text.push_str("gap\n")?;
    push_place(text, burst.header, HEADER_WORDS)?;
    writeln!(text, "header of {}", OnuName(drawing.row_of(burst.first)))?;
    push_grants(text, drawing, burst)?;
    push_place(text, burst.trailer, HEADER_WORDS)?;
    text.push_str("trailer\n")
}

/// The parts of a map, a line each: first word, words, and the times of both.
pub(crate) fn parts_text(alloc: Global, drawing: &Drawing<'_>) -> Result<String, AllocError> {
    let mut text = String::new(alloc);
    text.push_str("  word       us   words       us  part\n")?;
    for burst in drawing.bursts {
        push_parts(&mut text, drawing, burst)?;
    }
    Ok(text)
}
