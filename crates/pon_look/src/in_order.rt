//! The views in the thread of the caller alone, of a recording in memory.

ghost use Rattle.std.specs.Prelude.{IfOk};
ghost use Rattle.pon_audit.specs.Verdicts.{IsVerdict};
ghost use Rattle.pon_look.specs.Finding.{IsFound};

use crate::counted::CountedBytes;
use crate::finding::{FoundMap, Search, found_after};
use crate::info::{SoFar, end_of, write_line};
use crate::info_fields::total_line;
use crate::loads::draw_loads;
use crate::port_tallies::PortTallies;
use crate::printer::Printer;
use crate::query::{Answer, Format, LoadsQuery, Missing, RatesQuery, WhyQuery};
use crate::rates::write_sums;
use crate::summing::add_batch_in_order;
use crate::viewed::Viewed;
use crate::wanted::Wanted;
use crate::why::write_found;
use pon_audit::{Auditing, KeptEnds, Step, Verdict};
use pon_device::{DevWrite, DeviceFault, StdRead};
use pon_draw::Picture;
use std::alloc::Global;

// Writes the lines of the chapters of a recording, and the totals. Returns the verdict of its audit.
fn write_chapters<W: DevWrite>(
    alloc: Global,
    kept: KeptEnds,
    recording: &[u8],
    printer: &mut Printer,
    writer: &mut W,
) -> Result<Verdict, DeviceFault>
    ensures { IfOk result (λ verdict. IsVerdict recording.now verdict) }
{
    let mut reader = CountedBytes::new(StdRead::new(recording));
    let mut auditing = match Auditing::open(alloc, kept, &mut reader)? {
        Ok(auditing) => auditing,
        Err(verdict) => return Ok(verdict),
    };
    let mut seen = SoFar::NOTHING;
    for _batch in 0..u64::MAX {
        let Step { batch, verdict } = auditing.next_in_order(alloc, &mut reader)?;
        let end = end_of(batch.end, reader.bytes());
        seen.write_batch(alloc, printer, &batch.chapters, end, writer)?;
        if let Some(verdict) = verdict {
            write_line(total_line(printer, &seen.totals, reader.bytes()), writer)?;
            return Ok(verdict);
        }
    }
    Err(DeviceFault::Memory)
}

/// Writes the chapters of a recording, as [`write_info`](crate::write_info) does.
///
/// # Errors
///
/// `Write` if the writer fails, `Memory` if memory is refused, or the ends that the audit keeps do not suffice.
pub fn info_in_order<W: DevWrite>(
    alloc: Global,
    kept: KeptEnds,
    recording: &[u8],
    format: Format,
    writer: &mut W,
) -> Result<Viewed<Answer>, DeviceFault>
    ensures { IfOk result (λ viewed. IsVerdict recording.now viewed.verdict) }
{
    let mut printer = Printer::new(alloc, format);
    let verdict = write_chapters(alloc, kept, recording, &mut printer, writer)?;
    let shown = Answer::Shown;
    Ok(Viewed { verdict, shown })
}

// Sums up the wanted maps of a recording, up to its end or the first fault of its format.
fn sum_up(
    alloc: Global,
    kept: KeptEnds,
    recording: &[u8],
    wanted: &Wanted,
) -> Result<Viewed<PortTallies>, DeviceFault>
    ensures { IfOk result (λ viewed. IsVerdict recording.now viewed.verdict) }
{
    let mut shown = PortTallies::new(alloc, wanted.followed);
    let mut reader = StdRead::new(recording);
    let mut auditing = match Auditing::open(alloc, kept, &mut reader)? {
        Ok(auditing) => auditing,
        Err(verdict) => return Ok(Viewed { verdict, shown }),
    };
    for _batch in 0..u64::MAX {
        let batch = auditing.read(alloc, &mut reader)?;
        let answers = match add_batch_in_order(alloc, &mut shown, &batch.chapters, wanted) {
            Ok(answers) => answers,
            Err(_) => return Err(DeviceFault::Memory),
        };
        match auditing.place(&batch, answers)? {
            Some(verdict) => return Ok(Viewed { verdict, shown }),
            None => {}
        }
    }
    Err(DeviceFault::Memory)
}

/// Writes what the maps of a recording add up to for each Alloc-ID, as [`write_rates`](crate::write_rates) does.
///
/// # Errors
///
/// `Write` if the writer fails, `Memory` if memory is refused, a sum is 2^64 or more, or the ends that the audit keeps do
/// not suffice.
pub fn rates_in_order<W: DevWrite>(
    alloc: Global,
    kept: KeptEnds,
    recording: &[u8],
    query: RatesQuery,
    format: Format,
    writer: &mut W,
) -> Result<Viewed<Answer>, DeviceFault>
    ensures { IfOk result (λ viewed. IsVerdict recording.now viewed.verdict) }
{
    let Viewed { verdict, shown } = sum_up(alloc, kept, recording, &Wanted::from(&query))?;
    let shown = write_sums(alloc, &verdict, &shown, &query, format, writer)?;
    Ok(Viewed { verdict, shown })
}

/// Draws what an Alloc-ID was guaranteed and granted, as [`loads_of`](crate::loads_of) does.
///
/// # Errors
///
/// `Memory` if memory is refused, a sum is 2^64 or more, or the ends that the audit keeps do not suffice.
pub fn loads_in_order(
    alloc: Global,
    kept: KeptEnds,
    recording: &[u8],
    query: LoadsQuery,
) -> Result<Viewed<Result<Picture, Missing>>, DeviceFault>
    ensures { IfOk result (λ viewed. IsVerdict recording.now viewed.verdict) }
{
    let Viewed { verdict, shown } = sum_up(alloc, kept, recording, &Wanted::from(&query))?;
    match draw_loads(alloc, &query, &shown) {
        Ok(shown) => Ok(Viewed { verdict, shown }),
        Err(_) => Err(DeviceFault::Memory),
    }
}

// Finds the map that a query asks for in a recording. Returns the verdict of its audit too.
fn find_map(
    alloc: Global,
    kept: KeptEnds,
    recording: &[u8],
    query: WhyQuery,
) -> Result<Viewed<Result<FoundMap, Missing>>, DeviceFault>
    ensures found { IfOk result (λ viewed. IfOk viewed.shown IsFound) }
    ensures verdict { IfOk result (λ viewed. IsVerdict recording.now viewed.verdict) }
{
    let mut reader = StdRead::new(recording);
    let mut auditing = match Auditing::open(alloc, kept, &mut reader)? {
        Ok(auditing) => auditing,
        Err(verdict) => {
            let shown = Err(Missing::Chapters);
            return Ok(Viewed { verdict, shown });
        }
    };
    let mut search = Search::new(query);
    let mut found = None;
    for _batch in 0..u64::MAX {
        let Step { batch, verdict } = auditing.next_in_order(alloc, &mut reader)?;
        found = found_after(&mut search, found, batch.chapters);
        if let Some(verdict) = verdict {
            let shown = found.ok_or(search.missing());
            return Ok(Viewed { verdict, shown });
        }
    }
    Err(DeviceFault::Memory)
}

/// Writes the explanation of a map, as [`write_why`](crate::write_why) does.
///
/// # Errors
///
/// `Write` if the writer fails, `Memory` if memory is refused, or the ends that the audit keeps do not suffice.
pub fn why_in_order<W: DevWrite>(
    alloc: Global,
    kept: KeptEnds,
    recording: &[u8],
    query: WhyQuery,
    format: Format,
    writer: &mut W,
) -> Result<Viewed<Answer>, DeviceFault>
    ensures { IfOk result (λ viewed. IsVerdict recording.now viewed.verdict) }
{
    let Viewed { verdict, shown } = find_map(alloc, kept, recording, query)?;
    let shown = write_found(alloc, &shown, &query, format, writer)?;
    Ok(Viewed { verdict, shown })
}
