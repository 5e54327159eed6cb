//! The fields of the answers of `olt info`.

ghost use Rattle.std.specs.Prelude.{◌≡◌, map};
ghost use Rattle.pon_look.specs.Answers.{chapter_fields, missing_fields, total_fields};
ghost use Rattle.pon_look.specs.Fields.{said};

use crate::counts::cause_count;
use crate::field::{Field, FieldValue};
use crate::gaps::Gap;
use crate::onus::{OnuCounts, onu_counts};
use crate::printer::Printer;
use crate::summary::{Summary, Totals};
use pon_record::RawChapter;
use pon_state::Entry;
use std::alloc::{AllocError, Global};

// Makes the field of the number of failures of a cause, which is its key.
fn cause_field<'a>(words: &'a str, key: &'a str, cause: u8, entries: &[Entry]) -> Field<'a> {
    Field::named(words, key, FieldValue::Count(cause_count(cause, entries)))
}

// Makes the fields of the numbers of failures, by the cause.
fn cause_fields<'a>(entries: &[Entry]) -> [Field<'a>; 9] {
    [
        cause_field("cause 1", "1", 1, entries),
        cause_field("cause 2", "2", 2, entries),
        cause_field("cause 3", "3", 3, entries),
        cause_field("cause 4", "4", 4, entries),
        cause_field("cause 5", "5", 5, entries),
        cause_field("cause 6", "6", 6, entries),
        cause_field("cause 7", "7", 7, entries),
        cause_field("cause 8", "8", 8, entries),
        cause_field("cause 9", "9", 9, entries),
    ]
}

// Prints the numbers of failures, by the cause: none without a failure.
fn print_causes(printer: &mut Printer, failures: u64, entries: &[Entry]) -> Result<(), AllocError> {
    if failures == 0 {
        return printer.add_member("causes", &[]);
    }
    printer.add_member("causes", &cause_fields(entries))
}

// Makes the fields of a chapter of `bytes` bytes, without its causes of failures.
fn chapter_fields<'a>(summary: &Summary, onus: OnuCounts, bytes: u64) -> [Field<'a>; 13]
    ensures { map said result ≡ chapter_fields summary.now onus bytes }
{
    let first = summary.first.map(|frame| frame.get());
    let last = summary.last.map(|frame| frame.get());
    [
        Field::number("port", u64::from(summary.port.get())),
        Field::number("chapter", summary.number),
        Field::number("bytes", bytes),
        Field::named("frames", "first", FieldValue::Maybe(first)),
        Field::named("to", "last", FieldValue::End(last)),
        Field::new("seconds", FieldValue::Seconds(summary.maps)),
        Field::number("maps", summary.maps),
        Field::number("reports", summary.reports),
        Field::number("allocs", summary.allocs),
        Field::named("to", "allocs_end", FieldValue::Number(summary.allocs_end)),
        Field::number("onus", onus.opening),
        Field::named("to", "onus_end", FieldValue::Number(onus.end)),
        Field::number("failures", summary.failures),
    ]
}

/// Prints a chapter of `bytes` bytes. `Err` only if memory is refused.
pub(crate) fn chapter_line(
    alloc: Global,
    printer: &mut Printer,
    summary: &Summary,
    chapter: &RawChapter,
    bytes: u64,
) -> Result<String, AllocError> {
    let onus = onu_counts(alloc, chapter)?;
    printer.add(&chapter_fields(summary, onus, bytes))?;
    print_causes(printer, summary.failures, &chapter.entries)?;
    printer.end()
}

// Makes the fields of chapters that are missing.
fn missing_fields<'a>(gap: &Gap) -> [Field<'a>; 2]
    ensures { map said result ≡ missing_fields gap.now }
{
    let missing = FieldValue::Chapters(gap.first, gap.last);
    [
        Field::number("port", u64::from(gap.port.get())),
        Field::named("chapters", "missing", missing),
    ]
}

/// Prints chapters that are missing. `Err` only if memory is refused.
pub(crate) fn missing_line(printer: &mut Printer, gap: &Gap) -> Result<String, AllocError> {
    printer.line(&missing_fields(gap))
}

// Makes the fields of the totals of `bytes` bytes.
fn total_fields<'a>(totals: &Totals, bytes: u64) -> [Field<'a>; 7]
    ensures { map said result ≡ total_fields totals.now bytes }
{
    [
        Field::words("total"),
        Field::number("chapters", totals.chapters),
        Field::number("bytes", bytes),
        Field::new("seconds", FieldValue::Seconds(totals.maps)),
        Field::number("maps", totals.maps),
        Field::number("reports", totals.reports),
        Field::number("failures", totals.failures),
    ]
}

/// Prints the totals of `bytes` bytes. `Err` only if memory is refused.
pub(crate) fn total_line(
    printer: &mut Printer,
    totals: &Totals,
    bytes: u64,
) -> Result<String, AllocError> {
    printer.line(&total_fields(totals, bytes))
}
