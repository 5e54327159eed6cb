//! The line about the settlement of each port at the end of a run.

ghost use Rattle.std.specs.Prelude.{◌≡◌, IfOk, OnOk, string_bytes};
ghost use Rattle.pon_device.specs.Device.{Appends};
ghost use Rattle.pon_run.specs.Settlements.{settlement_line, settlement_lines};

use crate::settling::Settlement;
use pon_desk::Unsettled;
use pon_device::{DevWrite, DeviceFault, write_text};
use std::alloc::{AllocError, Global};

fn line_of(alloc: Global, settlement: &Settlement) -> Result<String, AllocError>
    ensures { IfOk result (λ text. string_bytes text ≡ settlement_line settlement.now) }
{
    let port = settlement.port.get();
    match settlement.result {
        Ok(receipts) => format!(in alloc; "settled port {port} receipts {receipts}\n"),
        Err(Unsettled::Chapter { k }) => format!(in alloc; "unsettled port {port} chapter {k}\n"),
        Err(Unsettled::Receipt { k }) => format!(in alloc; "unsettled port {port} receipt {k}\n"),
        Err(Unsettled::Count) => format!(in alloc; "unsettled port {port} count\n"),
    }
}

fn lines_of(alloc: Global, all: &[Settlement]) -> Result<String, AllocError>
    ensures { IfOk result (λ text. string_bytes text ≡ settlement_lines all.now) }
{
    let mut text = String::new(alloc);
    for settlement in all {
        let line = line_of(alloc, settlement)?;
        text.push_str(line.as_str())?;
    }
    Ok(text)
}

/// Writes a line for each settlement, in order, and flushes the writer.
///
/// Returns `Memory` if memory is refused, and then writes nothing; `Write` if the writer fails.
pub(crate) fn write_settlements<W: DevWrite>(
    alloc: Global,
    all: &[Settlement],
    writer: &mut W,
) -> Result<(), DeviceFault>
    ensures { OnOk result (Appends (W.contents writer.old) (W.contents writer.new)
        (settlement_lines all.now)) }
{
    let text = lines_of(alloc, all)?;
    write_text(writer, text.as_bytes())
}
