//! The text that explains the last map of a port for an Alloc-ID.

ghost use Rattle.std.specs.Prelude.{◌≡◌, ◌++◌, ◌∷◌, IfOk, OnOk, OnErr, decimal, string_bytes};
ghost use Rattle.pon_manage.specs.Rows.{number_or_dash};
ghost use Rattle.pon_manage.specs.Whys.{explanation_line, level_or_dash, owed_text, rates_text, structure_text, why_end, why_head, why_line};

use crate::list::{descriptor_text, report_text};
use crate::texts::append_refusal;
use pon_bwmap::Alloc;
use pon_cert::Level;
use pon_descr::Refusal;
use pon_line::LineFault;
use pon_units::WORD_RATE;
use pon_why::{Explanation, LastExplanation, LastWhy};
use std::alloc::{AllocError, Global};

// Formats a fraction as it is kept.
fn fraction_text(alloc: Global, num: u64, den: u64) -> Result<String, AllocError>
    ensures { IfOk result (λ text. string_bytes text ≡ decimal num ++ 47 ∷ decimal den) }
{
    format!(in alloc; "{num}/{den}")
}

// Formats the level of a class, `-` for the class that shares no surplus.
fn level_or_dash(alloc: Global, level: &Option<Level>) -> Result<String, AllocError>
    ensures { IfOk result (λ text. string_bytes text ≡ level_or_dash level.now) }
{
    match level {
        None => format!(in alloc; "-"),
        Some(Level::All) => format!(in alloc; "all"),
        Some(Level::At(rate)) => fraction_text(alloc, rate.num(), rate.den()),
    }
}

// Formats the start of a structure, `-` if it continues a burst.
fn start_text(alloc: Global, start: Option<u16>) -> Result<String, AllocError>
    ensures { IfOk result (λ text. string_bytes text ≡ number_or_dash start) }
{
    match start {
        None => format!(in alloc; "-"),
        Some(start) => format!(in alloc; "{start}"),
    }
}

// Formats start and grant of a structure.
fn structure_text(alloc: Global, structure: &Option<Alloc>) -> Result<String, AllocError>
    ensures { IfOk result (λ text. string_bytes text ≡ structure_text structure.now) }
{
    match structure {
        None => format!(in alloc; "start - grant -"),
        Some(structure) => {
            let start = start_text(alloc, structure.start())?;
            let grant = structure.grant();
            format!(in alloc; "start {start} grant {grant}")
        }
    }
}

// Formats the counted report, the load, and the rates that follow from it.
fn rates_text(alloc: Global, row: &Explanation) -> Result<String, AllocError>
    ensures { IfOk result (λ text. string_bytes text ≡ rates_text row.now) }
{
    let report = report_text(alloc, &row.counted)?;
    let (load, guaranteed) = (row.load.get(), row.guaranteed.get());
    let (weight, cap) = (row.item.weight, row.item.cap);
    format!(in alloc;
        "report {report} load {load} guaranteed {guaranteed} weight {weight} cap {cap}"
    )
}

// Formats the surplus rate, the carry, what is owed, and its whole words.
fn owed_text(alloc: Global, row: &Explanation) -> Result<String, AllocError>
    ensures { IfOk result (λ text. string_bytes text ≡ owed_text row.now) }
{
    let (num, den) = (row.surplus.num(), row.surplus.den());
    let (carry, owed) = (row.carry, row.owed);
    let words = owed / WORD_RATE;
    format!(in alloc; "surplus {num}/{den} carry {carry} owed {owed} words {words}")
}

// Formats the frame of the map, the descriptor, and the rates that follow from the report.
fn why_head(alloc: Global, why: &LastExplanation) -> Result<String, AllocError>
    ensures { IfOk result (λ text. string_bytes text ≡ why_head why.now) }
{
    let frame = why.frame.get();
    let descriptor = descriptor_text(alloc, &why.row.row)?;
    let rates = rates_text(alloc, &why.row)?;
    format!(in alloc; "why {frame} {descriptor} {rates}")
}

// Formats the level, what is owed, and the structure.
fn why_end(alloc: Global, why: &LastExplanation) -> Result<String, AllocError>
    ensures { IfOk result (λ text. string_bytes text ≡ why_end why.now) }
{
    let level = level_or_dash(alloc, &why.level)?;
    let owed = owed_text(alloc, &why.row)?;
    let structure = structure_text(alloc, &why.structure)?;
    format!(in alloc; "level {level} {owed} {structure}")
}

// Formats the line of an explanation.
fn explanation_line(alloc: Global, why: &LastExplanation) -> Result<String, AllocError>
    ensures { IfOk result (λ line. string_bytes line ≡ explanation_line why.now) }
{
    let head = why_head(alloc, why)?;
    let end = why_end(alloc, why)?;
    format!(in alloc; "{head} {end}\n")
}

/// Appends the line that explains the last map for an Alloc-ID, or the refusal: `NoMap` if the kept chapter has no map,
/// `NoSuchAlloc` if the Alloc-ID was not admitted at its last one. `Err` only if memory is refused, and then the replies are
/// unchanged.
pub(crate) fn append_why(replies: &mut Vec<u8>, why: &LastWhy) -> Result<(), AllocError>
    ensures ok { OnOk result (replies.new.items ≡ replies.old.items ++ why_line why.now) }
    ensures err { OnErr result (replies.new.items ≡ replies.old.items) }
{
    match why {
        LastWhy::NoMap => append_refusal(replies, LineFault::NoMap),
        LastWhy::NoSuchAlloc => append_refusal(replies, LineFault::Port(Refusal::NoSuchAlloc)),
        LastWhy::Explained(why) => {
            let line = explanation_line(*replies.allocator(), why)?;
            replies.extend_from_slice(line.as_bytes())
        }
    }
}
