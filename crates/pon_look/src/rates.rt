//! What `olt rates` prints: the rates of each Alloc-ID over the maps of a recording.

ghost use Rattle.std.specs.Prelude.{IfOk};
ghost use Rattle.pon_device.specs.Streams.{TellsWrite};
ghost use Rattle.pon_audit.specs.Streams.{IsVerdictOf};
ghost use Rattle.pon_look.specs.Views.{CountsReads, OnlyWrites};

use crate::extent::Extent;
use crate::info::write_line;
use crate::port_tallies::{PortTallies, PortTally, Refused};
use crate::printer::Printer;
use crate::query::{Answer, Format, Missing, RatesQuery};
use crate::rates_fields::{Figures, change_line, figures_lines, refused_line};
use crate::seen::Ports;
use crate::summing::sum_up;
use crate::viewed::Viewed;
use crate::wanted::Wanted;
use pon_audit::{KeptEnds, Verdict};
use pon_device::{DevRead, DevWrite, DeviceFault};
use pon_units::AllocId;
use pon_why::Change;
use std::alloc::{AllocError, Global};
use std::thread::Threads;

// Writes a line for each chapter that is refused at an entry.
fn write_refused<W: DevWrite>(
    refused: &[Refused],
    printer: &mut Printer,
    writer: &mut W,
) -> Result<(), DeviceFault>
    ensures write { OnlyWrites (W.failures writer.old) (W.failures writer.new) result }
{
    for chapter in refused {
        write_line(refused_line(printer, chapter), writer)?;
    }
    Ok(())
}

// Returns whether a port has a map with the Alloc-ID, or any map.
fn has_alloc(rates: &PortTally, alloc_id: Option<AllocId>) -> bool {
    let changes = rates.tally.changes();
    match alloc_id {
        Some(alloc_id) => changes.iter().any(|change| change.row.alloc_id == alloc_id),
        None => !changes.is_empty(),
    }
}

// Returns what the recording does not have, if nothing in it matches.
fn missing(tallies: &PortTallies, query: &RatesQuery) -> Option<Missing> {
    let rates = tallies.as_slice();
    let Some(Ports { first, last }) = tallies.ports else {
        return Some(Missing::Chapters);
    };
    if let Some(port) = query.port {
        if rates.is_empty() {
            return Some(Missing::Port { port, first, last });
        }
    }
    if !rates.iter().any(|rates| has_alloc(rates, None)) {
        return Some(Missing::Maps { port: query.port });
    }
    match query.alloc {
        Some(alloc_id) if !rates.iter().any(|rates| has_alloc(rates, query.alloc)) => {
            Some(Missing::Alloc { alloc_id })
        }
        _ => None,
    }
}

// Returns the changes of the Alloc-IDs that were asked for, by ascending Alloc-ID, and those of one in the order of the
// maps.
fn sorted_changes(
    alloc: Global,
    changes: &[Change],
    query: &RatesQuery,
) -> Result<Vec<Change>, AllocError> {
    let mut sorted = Vec::new(alloc);
    for change in changes {
        if query.alloc.is_none() || query.alloc == Some(change.row.alloc_id) {
            sorted.push(*change)?;
        }
    }
    sorted.sort_by_key(|change| change.row.alloc_id.get())?;
    Ok(sorted)
}

// Writes the line of a descriptor of an Alloc-ID, and after the last one the lines of its figures.
fn write_change<W: DevWrite>(
    rates: &PortTally,
    change: &Change,
    is_last: bool,
    extent: Extent,
    printer: &mut Printer,
    writer: &mut W,
) -> Result<(), DeviceFault>
    ensures write { OnlyWrites (W.failures writer.old) (W.failures writer.new) result }
{
    write_line(change_line(printer, rates.port, change), writer)?;
    if !is_last {
        return Ok(());
    }
    let alloc_id = change.row.alloc_id;
    let (sums, idle) = rates.tally.of(alloc_id);
    let figures = Figures {
        sums,
        idle,
        sold: rates.tally.sold_to(alloc_id),
        sure: rates.tally.sure_for(alloc_id),
    };
    write_line(
        figures_lines(printer, extent, rates.port, &change.row, &figures),
        writer,
    )
}

// Writes the lines of a port.
fn write_port<W: DevWrite>(
    alloc: Global,
    rates: &PortTally,
    query: &RatesQuery,
    extent: Extent,
    printer: &mut Printer,
    writer: &mut W,
) -> Result<(), DeviceFault>
    ensures write { OnlyWrites (W.failures writer.old) (W.failures writer.new) result }
{
    let changes = sorted_changes(alloc, rates.tally.changes(), query)?;
    for (place, change) in changes.iter().enumerate() {
        let is_last = match changes.get(place + 1) {
            Some(next) => next.row.alloc_id != change.row.alloc_id,
            None => true,
        };
        write_change(rates, change, is_last, extent, printer, writer)?;
    }
    Ok(())
}

// Writes the lines of ports.
fn write_ports<W: DevWrite>(
    alloc: Global,
    rates: &[PortTally],
    query: &RatesQuery,
    extent: Extent,
    printer: &mut Printer,
    writer: &mut W,
) -> Result<(), DeviceFault>
    ensures write { OnlyWrites (W.failures writer.old) (W.failures writer.new) result }
{
    for port in rates {
        write_port(alloc, port, query, extent, printer, writer)?;
    }
    Ok(())
}

/// Writes the tallies of a recording with this verdict. Returns what is missing.
pub(crate) fn write_sums<W: DevWrite>(
    alloc: Global,
    verdict: &Verdict,
    tallies: &PortTallies,
    query: &RatesQuery,
    format: Format,
    writer: &mut W,
) -> Result<Answer, DeviceFault>
    ensures write { OnlyWrites (W.failures writer.old) (W.failures writer.new) result }
{
    let extent = Extent::of(verdict);
    let mut printer = Printer::new(alloc, format);
    write_refused(tallies.refused.as_slice(), &mut printer, writer)?;
    match missing(tallies, query) {
        Some(missing) => Ok(Answer::NotFound(missing)),
        None => {
            let ports = tallies.as_slice();
            write_ports(alloc, ports, query, extent, &mut printer, writer)?;
            Ok(Answer::Shown)
        }
    }
}

/// Writes what the maps of a recording add up to for each Alloc-ID, by ascending port and Alloc-ID. There is a line for
/// each of its descriptors, with the frame of the first map that has it, a line of mean rates, one of what was sold and
/// got, and one of what is sure. A chapter that is refused at an entry has a line, and only its maps up to that entry are
/// summed up.
///
/// The recording is read up to its end or to the first fault of its format. It is judged while it is summed up, in as
/// many threads as there are processors. Returns the verdict of the audit, and what is missing.
///
/// # Errors
///
/// `Read` exactly when the reader fails, `Write` exactly when the writer fails, `Memory` if memory is refused, a sum is
/// 2^64 or more, or the ends that the audit keeps do not suffice.
pub fn write_rates<R: DevRead, W: DevWrite>(
    rt: &(impl Threads + Sync),
    alloc: Global,
    kept: KeptEnds,
    reader: &mut R,
    query: RatesQuery,
    format: Format,
    writer: &mut W,
) -> Result<Viewed<Answer>, DeviceFault>
    ensures verdict { IfOk result (λ viewed. IsVerdictOf (R.remaining reader.old) viewed.verdict) }
    ensures read { CountsReads (R.failures reader.old) (R.failures reader.new) result }
    ensures write { TellsWrite (W.failures writer.old) (W.failures writer.new) result }
{
    let wanted = Wanted::from(&query);
    let Viewed { verdict, shown } = sum_up(rt, alloc, kept, reader, &wanted)?;
    let shown = write_sums(alloc, &verdict, &shown, &query, format, writer)?;
    Ok(Viewed { verdict, shown })
}
