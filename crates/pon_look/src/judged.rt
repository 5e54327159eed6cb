//! The verdict on a recording, as JSON.

ghost use Rattle.std.specs.Prelude.{◌≡◌, map};
ghost use Rattle.pon_look.specs.Answers.{fault_fields, gap_fields, judged_fields};
ghost use Rattle.pon_look.specs.Fields.{said};
ghost use Rattle.pon_look.specs.Views.{OnlyWrites};

use crate::contents::Contents;
use crate::field::{Field, FieldValue};
use crate::gaps::Gap;
use crate::info::write_line;
use crate::json::{object_line, object_of, put_fields, text_value};
use crate::viewed::Viewed;
use pon_audit::{AuditReason, Verdict};
use pon_device::{DevWrite, DeviceFault};
use pon_units::{MAX_PORTS, PortNo};
use serde_json::{Map, Value, put};
use std::alloc::{AllocError, Global};

// Makes the list of the ports.
fn ports_json(alloc: Global, contents: &Contents) -> Result<Value, AllocError> {
    let mut ports = Vec::new(alloc);
    for port in 0..MAX_PORTS {
        if contents.has_port(port) {
            ports.push(Value::from(port as u64))?;
        }
    }
    Ok(Value::Array(ports))
}

// Makes the fields of chapters that are missing.
fn gap_fields<'a>(gap: &Gap) -> [Field<'a>; 3]
    ensures { map said result ≡ gap_fields gap.now }
{
    [
        Field::number("port", u64::from(gap.port.get())),
        Field::number("first", gap.first),
        Field::number("last", gap.last),
    ]
}

// Makes the list of the gaps.
fn gaps_json(alloc: Global, contents: &Contents) -> Result<Value, AllocError> {
    let mut gaps = Vec::new(alloc);
    for gap in contents.gaps() {
        gaps.push(object_of(alloc, &gap_fields(gap))?)?;
    }
    Ok(Value::Array(gaps))
}

// Makes the fields of the place of a fault.
fn fault_fields<'a>(port: PortNo, chapter: u64, index: usize, why: AuditReason) -> [Field<'a>; 4]
    ensures { map said result ≡ fault_fields port chapter index why }
{
    [
        Field::number("port", u64::from(port.get())),
        Field::number("chapter", chapter),
        Field::number("entry", index as u64),
        Field::new("why", FieldValue::Reason(why)),
    ]
}

// Makes the place of a fault, or null.
fn place_json(alloc: Global, verdict: &Verdict) -> Result<Value, AllocError> {
    match *verdict {
        Verdict::Good { .. } => Ok(Value::Null),
        Verdict::Bad {
            port,
            chapter,
            index,
            why,
        } => object_of(alloc, &fault_fields(port, chapter, index, why)),
        Verdict::BadFormat { at } | Verdict::Truncated { at } => {
            object_of(alloc, &[Field::number("at", at as u64)])
        }
    }
}

// The word of a verdict.
fn word_of(verdict: &Verdict) -> &'static str {
    match verdict {
        Verdict::Good { .. } => "good",
        Verdict::Bad { .. } => "bad",
        Verdict::BadFormat { .. } => "badformat",
        Verdict::Truncated { .. } => "truncated",
    }
}

// Makes the fields of the numbers of a recording that was judged.
fn judged_fields<'a>(maps: u64, bytes: u64, is_complete: bool) -> [Field<'a>; 4]
    ensures { map said result ≡ judged_fields maps bytes is_complete }
{
    [
        Field::number("maps", maps),
        Field::number("bytes", bytes),
        Field::new("complete", FieldValue::Mark(is_complete)),
        Field::new("seconds", FieldValue::Seconds(maps)),
    ]
}

// Makes the object of a recording that was judged.
fn judged_json(
    alloc: Global,
    file: &str,
    verdict: &Verdict,
    contents: &Contents,
    bytes: u64,
) -> Result<String, AllocError> {
    let fields = judged_fields(contents.maps(), bytes, contents.is_complete());
    let mut object = Map::new(alloc);
    put_fields(&mut object, alloc, &fields)?;
    put(&mut object, alloc, "file", text_value(alloc, file)?)?;
    put(
        &mut object,
        alloc,
        "verdict",
        text_value(alloc, word_of(verdict))?,
    )?;
    put(&mut object, alloc, "place", place_json(alloc, verdict)?)?;
    put(&mut object, alloc, "ports", ports_json(alloc, contents)?)?;
    put(&mut object, alloc, "gaps", gaps_json(alloc, contents)?)?;
    object_line(alloc, object)
}

/// Writes the object of a recording of `bytes` bytes that was judged: its file, its verdict and the place of its fault. The
/// object also has what the recording holds up to the first fault of its format: maps, ports, missing chapters, and seconds
/// of line time.
///
/// # Errors
///
/// `Write` exactly when the writer fails, `Memory` if memory is refused.
pub fn write_judged<W: DevWrite>(
    alloc: Global,
    file: &str,
    judged: &Viewed<Contents>,
    bytes: u64,
    writer: &mut W,
) -> Result<(), DeviceFault>
    ensures write { OnlyWrites (W.failures writer.old) (W.failures writer.new) result }
{
    let line = judged_json(alloc, file, &judged.verdict, &judged.shown, bytes);
    write_line(line, writer)
}
