//! The loads of an Alloc-ID along the frames as text.

use crate::mean::Mean;
use crate::steps::{Scales, Steps};
use pon_why::Sums;
use std::alloc::{AllocError, Global};

/// Columns of a bar of rates, and of one of the backlog.
const RATE_COLUMNS: u16 = 20;

const BACKLOG_COLUMNS: u16 = 8;

// The signs of a bar: what is guaranteed and granted, what is granted beyond it, and what waits.
const GUARANTEED_SIGN: char = '#';

const SURPLUS_SIGN: char = '=';

const BACKLOG_SIGN: char = 'o';

const NO_SIGN: char = ' ';

/// Tenths of a kilobyte.
const TENTHS: u64 = 10;

// Returns the value in the middle of a column of a bar.
fn middle_of(column: u16, columns: u16, scale: u64) -> u64 {
    let (halves, column) = (2 * u64::from(columns), u64::from(column));
    (2 * column + 1).saturating_mul(scale) / halves.max(1)
}

// Appends the bar of the rates of a step: each column has the sign of its middle rate.
fn push_rates(
    text: &mut String,
    guaranteed: u64,
    granted: u64,
    scale: u64,
) -> Result<(), AllocError> {
    for column in 0..RATE_COLUMNS {
        let rate = middle_of(column, RATE_COLUMNS, scale);
        let sign = if rate < granted.min(guaranteed) {
            GUARANTEED_SIGN
        } else if rate < granted {
            SURPLUS_SIGN
        } else {
            NO_SIGN
        };
        text.push(sign)?;
    }
    Ok(())
}

// Appends the bar of the backlog of a step.
fn push_backlog(text: &mut String, backlog: u64, scale: u64) -> Result<(), AllocError> {
    for column in 0..BACKLOG_COLUMNS {
        if middle_of(column, BACKLOG_COLUMNS, scale) < backlog {
            text.push(BACKLOG_SIGN)?;
        }
    }
    Ok(())
}

// Makes the row of a step, without spaces at its end: its first frame, its mean rates with their bar, and its backlog with
// its bar.
fn row_text(
    alloc: Global,
    first: u64,
    sums: &Sums,
    steps: &Steps<'_>,
    step: usize,
    scales: Scales,
) -> Result<String, AllocError> {
    let mut row = format!(in alloc; "{first:>9}")?;
    let Some(means) = steps.means(step) else {
        row.push_str("  no map")?;
        return Ok(row);
    };
    let guaranteed = Mean::of_rates(sums.guaranteed, sums.maps).to_string(alloc)?;
    let granted = Mean::of_words(sums.granted, sums.maps).to_string(alloc)?;
    write!(row, " {guaranteed:>10} {granted:>10}  ")?;
    push_rates(&mut row, means.guaranteed, means.granted, scales.rate)?;
    let waiting = Mean::of_waiting(sums.load, sums.maps).to_string(alloc)?;
    let delay = Mean::of_delay(sums.load, sums.granted).to_string(alloc)?;
    write!(row, " {waiting:>9} {delay:>7} ")?;
    push_backlog(&mut row, means.backlog, scales.backlog)?;
    Ok(row)
}

// Appends the row of a step.
fn push_row(
    alloc: Global,
    text: &mut String,
    sums: &Sums,
    steps: &Steps<'_>,
    step: usize,
    scales: Scales,
) -> Result<(), AllocError> {
    let row = row_text(
        alloc,
        steps.series.first_of(step),
        sums,
        steps,
        step,
        scales,
    )?;
    text.push_str(row.as_str().trim_end())?;
    text.push('\n')
}

/// A row for each step under two scales: its first frame; the mean rates that were guaranteed and granted, in kbit/s, and a
/// bar of them; the mean of the words that wait, in kilobytes and in milliseconds at the granted rate, and a bar of them.
///
/// # Errors
///
/// If memory is refused.
pub fn steps_text(alloc: Global, steps: &Steps<'_>) -> Result<String, AllocError> {
    let scales = steps.scales();
    let (rate, backlog) = (scales.rate, scales.backlog / TENTHS);
    let mut text = format!(in alloc;
        "    frame guaranteed    granted  0{rate:>19}        kB      ms 0{backlog:>7}\n"
    )?;
    for (step, sums) in steps.series.steps().iter().enumerate() {
        push_row(alloc, &mut text, sums, steps, step, scales)?;
    }
    Ok(text)
}
