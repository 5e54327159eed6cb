//! The loads of an Alloc-ID along the frames as SVG: the rates, and below them the backlog.

ghost use Rattle.std.specs.Prelude.{◌≡◌, ◌<◌};
ghost use Rattle.pon_draw.specs.Heights.{bar_height};

use crate::mean::Mean;
use crate::steps::{Means, Scales, Steps};
use crate::svg_parts::{
    Anchor, BLUE, GREY, LETTERS, ORANGE, head_text, push_legend, push_line, push_text,
};
use pon_why::Sums;
use std::alloc::{AllocError, Global};
use std::fmt::{self, Display, Formatter, Write};

/// Units left of the steps, of all steps together, and between the steps and the words left of them.
const LEFT: u64 = 120;

const STEPS_WIDTH: u64 = 780;

const LEFT_GAP: u64 = 8;

/// The heights of the rates and of the backlog, and their lower edges.
const RATE_HEIGHT: u16 = 220;

const BACKLOG_HEIGHT: u16 = 110;

const RATE_LOW: u64 = 48 + RATE_HEIGHT as u64;

const BACKLOG_LOW: u64 = RATE_LOW + 32 + BACKLOG_HEIGHT as u64;

/// Units from the backlog to the frames, to the legend, and to the lower edge.
const FRAMES_LOW: u64 = BACKLOG_LOW + LETTERS + 4;

const LEGEND_TOP: u64 = BACKLOG_LOW + 32;

const BOTTOM_EDGE: u64 = BACKLOG_LOW + 60;

/// Parts of a scale between two lines.
const RATE_LINES: u64 = 4;

const BACKLOG_LINES: u64 = 2;

/// Tenths of a kilobyte.
const TENTHS: u64 = 10;

/// The meaning of the colours, from left to right.
const LEGEND: [(u64, &str, &str); 3] = [
    (120, BLUE, "guaranteed and granted"),
    (320, ORANGE, "granted beyond it"),
    (480, GREY, "words that wait, in kB"),
];

/// The frames and the sums of a step, which are its title.
#[derive(Clone, Copy)]
struct Title<'a> {
    first: u64,
    last: u64,
    means: Means,
    sums: &'a Sums,
}

impl Display for Title<'_> {
    fn fmt<W: Write>(&self, f: &mut Formatter<W>) -> fmt::Result {
        let (first, last, sums) = (self.first, self.last, self.sums);
        let (guaranteed, granted) = (self.means.guaranteed, self.means.granted);
        let waiting = Mean::of_waiting(sums.load, sums.maps);
        let delay = Mean::of_delay(sums.load, sums.granted);
        write!(
            f,
            "frames {first} to {last}: guaranteed {guaranteed}, granted {granted} kbit/s, backlog {waiting} kB, {delay} ms at the granted rate"
        )
    }
}

/// A scale of bars: its lower edge, its height, and the value at its end.
#[derive(Clone, Copy)]
struct Scale {
    low: u64,
    height: u16,
    end: u64,
}

/// The left edge and the width of the bars of a step.
#[derive(Clone, Copy)]
struct Column {
    left: u64,
    width: u64,
}

// Returns the column of a step of `count` steps.
fn column_of(step: u64, count: u64) -> Column {
    let count = count.max(1);
    let left = step.saturating_mul(STEPS_WIDTH) / count;
    let right = step.saturating_add(1).saturating_mul(STEPS_WIDTH) / count;
    Column {
        left: left.saturating_add(LEFT),
        width: right.saturating_sub(left),
    }
}

// Returns the height of a bar: the part that a value is of a scale, rounded up.
fn bar_height(value: u64, end: u64, height: u16) -> u64
    requires { 0 < end }
    ensures { result ≡ bar_height value end height }
{
    let part = u128::from(value.min(end)) * u128::from(height);
    let units = (part + u128::from(end - 1)) / u128::from(end);
    units as u64
}

// Returns the upper edge of a bar up to a value, and its height.
fn edge_of(scale: Scale, value: u64) -> (u64, u64) {
    let height = bar_height(value, scale.end.max(1), scale.height);
    (scale.low.saturating_sub(height), height)
}

// Appends a bar up to a value; a pointer on it shows its title.
fn push_bar(
    text: &mut String,
    column: Column,
    scale: Scale,
    value: u64,
    colour: &str,
    title: Title<'_>,
) -> Result<(), AllocError> {
    let Column { left, width } = column;
    let (y, height) = edge_of(scale, value);
    writeln!(
        text,
        "<rect x=\"{left}\" y=\"{y}\" width=\"{width}\" height=\"{height}\" fill=\"{colour}\"><title>{title}</title></rect>"
    )
}

// The scale of the rates, and that of the backlog in tenths of a kilobyte.
fn rate_scale(scales: Scales) -> Scale {
    Scale {
        low: RATE_LOW,
        height: RATE_HEIGHT,
        end: scales.rate,
    }
}

fn backlog_scale(scales: Scales) -> Scale {
    Scale {
        low: BACKLOG_LOW,
        height: BACKLOG_HEIGHT,
        end: scales.backlog,
    }
}

// Appends the bars of a step.
fn push_step(
    text: &mut String,
    steps: &Steps<'_>,
    step: usize,
    sums: &Sums,
    scales: Scales,
) -> Result<(), AllocError> {
    let Some(means) = steps.means(step) else {
        return Ok(());
    };
    let column = column_of(step as u64, steps.series.steps().len() as u64);
    let first = steps.series.first_of(step);
    let last = first.saturating_add(steps.series.frames().saturating_sub(1));
    let title = Title {
        first,
        last,
        means,
        sums,
    };
    let (rates, within) = (rate_scale(scales), means.granted.min(means.guaranteed));
    push_bar(text, column, rates, means.granted, ORANGE, title)?;
    push_bar(text, column, rates, within, BLUE, title)?;
    push_bar(
        text,
        column,
        backlog_scale(scales),
        means.backlog,
        GREY,
        title,
    )
}

// Appends the curve of the backlog, through the middle of the end of each bar.
fn push_curve(text: &mut String, steps: &Steps<'_>, scales: Scales) -> Result<(), AllocError> {
    let count = steps.series.steps().len();
    text.push_str("<polyline fill=\"none\" stroke=\"#333333\" points=\"")?;
    for step in 0..count {
        if let Some(means) = steps.means(step) {
            let Column { left, width } = column_of(step as u64, count as u64);
            let (y, _height) = edge_of(backlog_scale(scales), means.backlog);
            let x = left.saturating_add(width / 2);
            write!(text, "{x},{y} ")?;
        }
    }
    text.push_str("\"/>\n")
}

// A value of a scale with its unit.
#[derive(Clone, Copy)]
struct Label {
    value: u64,
    unit: &'static str,
}

impl Display for Label {
    fn fmt<W: Write>(&self, f: &mut Formatter<W>) -> fmt::Result {
        write!(f, "{} {}", self.value, self.unit)
    }
}

// Appends the lines of a scale, each with its value in `unit`, of which the scale has `units` in one.
fn push_scale(
    text: &mut String,
    scale: Scale,
    lines: u64,
    units: u64,
    unit: &'static str,
) -> Result<(), AllocError> {
    for line in 0..=lines {
        let value = scale.end.saturating_mul(line) / lines.max(1);
        let (y, _height) = edge_of(scale, value);
        let label = Label {
            value: value / units.max(1),
            unit,
        };
        let low = y.saturating_add(LETTERS / 2);
        push_text(text, (LEFT - LEFT_GAP, low), Anchor::End, label)?;
        push_line(text, (LEFT, y), (LEFT + STEPS_WIDTH, y))?;
    }
    Ok(())
}

// The name of a frame.
#[derive(Clone, Copy)]
struct FrameName(u64);

impl Display for FrameName {
    fn fmt<W: Write>(&self, f: &mut Formatter<W>) -> fmt::Result {
        write!(f, "frame {}", self.0)
    }
}

// Appends the first and the last frame.
fn push_frames(text: &mut String, steps: &Steps<'_>) -> Result<(), AllocError> {
    let Some((first, last)) = steps.series.range() else {
        return Ok(());
    };
    push_text(text, (LEFT, FRAMES_LOW), Anchor::Start, FrameName(first))?;
    let right = LEFT + STEPS_WIDTH;
    push_text(text, (right, FRAMES_LOW), Anchor::End, FrameName(last))
}

/// The picture of a series as SVG: bars of the rates and of the backlog of each step, with its frames and numbers as their
/// title.
///
/// # Errors
///
/// If memory is refused.
pub fn steps_svg(alloc: Global, heading: &str, steps: &Steps<'_>) -> Result<String, AllocError> {
    let mut text = head_text(alloc, BOTTOM_EDGE, heading)?;
    let scales = steps.scales();
    push_scale(&mut text, rate_scale(scales), RATE_LINES, 1, "kbit/s")?;
    push_scale(
        &mut text,
        backlog_scale(scales),
        BACKLOG_LINES,
        TENTHS,
        "kB",
    )?;
    for (step, sums) in steps.series.steps().iter().enumerate() {
        push_step(&mut text, steps, step, sums, scales)?;
    }
    push_curve(&mut text, steps, scales)?;
    push_frames(&mut text, steps)?;
    push_legend(&mut text, LEGEND_TOP, &LEGEND)?;
    text.push_str("</svg>\n")?;
    Ok(text)
}
