//! The loads of an Alloc-ID along the frames of a recording.

ghost use Rattle.std.specs.Prelude.{IfOk};
ghost use Rattle.pon_audit.specs.Streams.{IsVerdictOf, TellsFailure};

use crate::port_tallies::{PortTallies, PortTally};
use crate::printer::Printer;
use crate::query::{Format, LoadsQuery, Missing};
use crate::rates_fields::change_line;
use crate::seen::missing_port;
use crate::summing::sum_up;
use crate::viewed::Viewed;
use crate::wanted::Wanted;
use pon_audit::KeptEnds;
use pon_device::{DevRead, DeviceFault};
use pon_draw::{Picture, Steps, steps_svg, steps_text};
use std::alloc::{AllocError, Global};
use std::thread::Threads;

/// What the signs of a bar mean.
const SIGNS: &str =
    "# guaranteed, = granted beyond, in kbit/s; o waiting, in kB, and ms to grant it";

// Returns what the recording does not have, if nothing in it matches.
fn missing(tallies: &PortTallies, query: &LoadsQuery) -> Missing {
    let port = match tallies.as_slice() {
        [] => return missing_port(tallies.ports, query.port),
        [only] => Some(only.port),
        _ => query.port,
    };
    let ports = tallies.as_slice();
    if ports.iter().all(|port| port.tally.changes().is_empty()) {
        return Missing::Maps { port };
    }
    Missing::Alloc {
        alloc_id: query.alloc_id,
    }
}

// Makes the lines of the descriptors that the Alloc-ID had.
fn changes_text(alloc: Global, port: &PortTally, query: &LoadsQuery) -> Result<String, AllocError> {
    let mut text = String::new(alloc);
    let mut printer = Printer::new(alloc, Format::Text);
    for change in port.tally.changes() {
        if change.row.alloc_id == query.alloc_id {
            text.push_str(&change_line(&mut printer, port.port, change)?)?;
        }
    }
    Ok(text)
}

// Returns the greatest maximum rate that the Alloc-ID had, in kbit/s.
fn max_rate(port: &PortTally, query: &LoadsQuery) -> u64 {
    let mut max = 0;
    for change in port.tally.changes() {
        if change.row.alloc_id == query.alloc_id {
            max = u64::from(change.row.descriptor.max().get()).max(max);
        }
    }
    max
}

// Makes the line about the series of a port, of which the first and the last frame are given.
fn heading_of(
    alloc: Global,
    port: &PortTally,
    query: &LoadsQuery,
    (first, last): (u64, u64),
) -> Result<String, AllocError> {
    let (sums, _idle) = port.tally.of(query.alloc_id);
    let (number, alloc_id) = (port.port.get(), query.alloc_id.get());
    let (maps, frames) = (sums.maps, port.series.frames());
    format!(in alloc;
        "port {number} alloc {alloc_id} frames {first} to {last} maps {maps}, means of {frames} frames a row"
    )
}

// Draws the series of a port, if it has a map.
fn draw(
    alloc: Global,
    port: &PortTally,
    query: &LoadsQuery,
) -> Result<Option<Picture>, AllocError> {
    let Some(range) = port.series.range() else {
        return Ok(None);
    };
    let heading = heading_of(alloc, port, query, range)?;
    let steps = Steps {
        series: &port.series,
        max: max_rate(port, query),
    };
    let svg = steps_svg(alloc, heading.as_str(), &steps)?;
    let (changes, rows) = (
        changes_text(alloc, port, query)?,
        steps_text(alloc, &steps)?,
    );
    let text = format!(in alloc; "{heading}\n{changes}{SIGNS}\n\n{rows}")?;
    Ok(Some(Picture { text, svg }))
}

/// Draws what was followed of an Alloc-ID at the lowest port that has it, or returns what is missing.
pub(crate) fn draw_loads(
    alloc: Global,
    query: &LoadsQuery,
    tallies: &PortTallies,
) -> Result<Result<Picture, Missing>, AllocError> {
    for port in tallies.as_slice() {
        if let Some(picture) = draw(alloc, port, query)? {
            return Ok(Ok(picture));
        }
    }
    Ok(Err(missing(tallies, query)))
}

/// Draws what an Alloc-ID was guaranteed and granted, and the words that waited, along the frames of a port in a
/// recording. Without a port in the query it is the lowest port that has the Alloc-ID in these frames. The picture has at
/// most 60 steps of equally many frames. Each number is a mean of the sums that `write_rates` writes for the frames of the
/// step.
///
/// A chapter that is refused at an entry is followed up to that entry, and the recording up to the first fault of its
/// format. The recording is judged at the same time, in as many threads as there are processors. Returns the verdict of
/// the audit, and the picture or what is missing.
///
/// # Errors
///
/// `Read` exactly when the reader fails, `Memory` if memory is refused, a sum is 2^64 or more, or
/// the ends that the audit keeps do not suffice.
pub fn loads_of<R: DevRead>(
    rt: &(impl Threads + Sync),
    alloc: Global,
    kept: KeptEnds,
    reader: &mut R,
    query: LoadsQuery,
) -> Result<Viewed<Result<Picture, Missing>>, DeviceFault>
    ensures verdict { IfOk result (λ viewed. IsVerdictOf (R.remaining reader.old) viewed.verdict) }
    ensures read { TellsFailure (R.failures reader.old) (R.failures reader.new) result }
{
    let Viewed { verdict, shown } = sum_up(rt, alloc, kept, reader, &Wanted::from(&query))?;
    match draw_loads(alloc, &query, &shown) {
        Ok(shown) => Ok(Viewed { verdict, shown }),
        Err(_) => Err(DeviceFault::Memory),
    }
}
