//! The text that lists the admitted Alloc-IDs of a port.

ghost use Rattle.std.specs.Prelude.{◌≡◌, ◌++◌, IfOk, OnOk, OnErr, string_bytes};
ghost use Rattle.pon_guar.specs.Book.{load_of_counted};
ghost use Rattle.pon_manage.specs.Rows.{class_word, descriptor_text, number_or_dash, report_text, row_line, views_text};

use pon_admit::Row;
use pon_descr::Class;
use pon_guar::Counted;
use pon_units::{WORD_RATE, Words};
use pon_why::RowView;
use std::alloc::{AllocError, Global};

// Returns the word of a class.
fn class_word(class: Class) -> &'static str
    ensures { result.now ≡ class_word class }
{
    match class {
        Class::Plain => "none",
        Class::NonAssured => "na",
        Class::BestEffort => "be",
    }
}

// Formats Alloc-ID, ONU and descriptor.
pub(crate) fn descriptor_text(alloc: Global, row: &Row) -> Result<String, AllocError>
    ensures { IfOk result (λ text. string_bytes text ≡ descriptor_text row.now) }
{
    let (alloc_id, onu) = (row.alloc_id.get(), row.onu.get());
    let descriptor = &row.descriptor;
    let (fixed, assured) = (descriptor.fixed().get(), descriptor.assured().get());
    let (max, class) = (descriptor.max().get(), class_word(descriptor.class()));
    format!(in alloc;
        "alloc {alloc_id} onu {onu} fixed {fixed} assured {assured} max {max} class {class}"
    )
}

// Formats frame and words of the counted report, `-` for each if no report counts.
pub(crate) fn report_text(alloc: Global, counted: &Option<Counted>) -> Result<String, AllocError>
    ensures { IfOk result (λ text. string_bytes text ≡ report_text counted.now) }
{
    match counted {
        None => format!(in alloc; "- left -"),
        Some(report) => {
            let (frame, words) = (report.frame.get(), report.words.get());
            format!(in alloc; "{frame} left {words}")
        }
    }
}

// Computes the load of a counted report, in kbit/s.
fn load_of(counted: &Option<Counted>) -> u64
    ensures { result ≡ load_of_counted counted.now }
{
    match counted {
        None => 0,
        Some(report) => WORD_RATE * u64::from(report.words.get()),
    }
}

// Formats a number of words, `-` if there is none.
fn words_text(alloc: Global, words: Option<Words>) -> Result<String, AllocError>
    ensures { IfOk result (λ text. string_bytes text ≡ number_or_dash words) }
{
    match words {
        None => format!(in alloc; "-"),
        Some(words) => {
            let words = words.get();
            format!(in alloc; "{words}")
        }
    }
}

// Formats the line of an Alloc-ID.
fn row_line(alloc: Global, view: &RowView) -> Result<String, AllocError>
    ensures { IfOk result (λ line. string_bytes line ≡ row_line view.now) }
{
    let descriptor = descriptor_text(alloc, &view.row)?;
    let report = report_text(alloc, &view.counted)?;
    let load = load_of(&view.counted);
    let words = words_text(alloc, view.granted)?;
    format!(in alloc; "{descriptor} report {report} load {load} words {words}\n")
}

// Formats the number of Alloc-IDs, and the line of each.
fn views_text(alloc: Global, views: &[RowView]) -> Result<String, AllocError>
    ensures { IfOk result (λ text. string_bytes text ≡ views_text views.now) }
{
    let count = views.len();
    let mut text = format!(in alloc; "list {count}\n")?;
    for view in views {
        let line = row_line(alloc, view)?;
        text.push_str(&line)?;
    }
    Ok(text)
}

/// Appends the lines that list Alloc-IDs: their number, and a line for each with its descriptor, its counted report, its
/// load in kbit/s and its payload words in the last map. `Err` only if memory is refused, and then the replies are
/// unchanged.
pub(crate) fn append_rows(replies: &mut Vec<u8>, views: &[RowView]) -> Result<(), AllocError>
    ensures ok { OnOk result (replies.new.items ≡ replies.old.items ++ views_text views.now) }
    ensures err { OnErr result (replies.new.items ≡ replies.old.items) }
{
    let text = views_text(*replies.allocator(), views)?;
    replies.extend_from_slice(text.as_bytes())
}
