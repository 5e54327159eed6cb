//! The line about each port at the end of a run.

ghost use Rattle.std.specs.Prelude.{◌≡◌, IfOk, string_bytes};
ghost use Rattle.pon_device.specs.Streams.{TellsWrite};
ghost use Rattle.pon_run.specs.Ends.{TellsEnds, line_of, lines_from};

use pon_device::{DevWrite, DeviceFault, write_text};
use pon_worker::PortCounts;
use std::alloc::{AllocError, Global};

/// What one port did in a run.
#[derive(Clone, Copy)]
pub(crate) struct PortEnd {
    /// What it counted for its worker.
    pub(crate) counts: PortCounts,
    /// The number of entries that it took.
    pub(crate) entries: u64,
    /// The number of its dropped chapters.
    pub(crate) dropped: u64,
}

fn line_of(alloc: Global, port: usize, end: PortEnd) -> Result<String, AllocError>
    ensures { IfOk result (λ text. string_bytes text ≡ line_of port end) }
{
    let PortEnd {
        counts,
        entries,
        dropped,
    } = end;
    let PortCounts { maps, reports, .. } = counts;
    format!(in alloc;
        "port {port} maps {maps} entries {entries} reports {reports} dropped {dropped}\n"
    )
}

fn lines_of(alloc: Global, ends: &[PortEnd]) -> Result<String, AllocError>
    ensures { IfOk result (λ text. string_bytes text ≡ lines_from 0 ends.now) }
{
    let mut text = String::new(alloc);
    for (port, end) in ends.iter().enumerate() {
        let line = line_of(alloc, port, *end)?;
        text.push_str(line.as_str())?;
    }
    Ok(text)
}

/// Writes the line of each port, in order, and flushes the writer.
///
/// Returns `Memory` if memory is refused, and then writes nothing; `Write` if the writer fails.
pub(crate) fn write_ends<W: DevWrite>(
    alloc: Global,
    ends: &[PortEnd],
    writer: &mut W,
) -> Result<(), DeviceFault>
    ensures text { TellsEnds ends.now (W.contents writer.old) (W.contents writer.new) result }
    ensures write { TellsWrite (W.failures writer.old) (W.failures writer.new) result }
{
    let text = lines_of(alloc, ends)?;
    write_text(writer, text.as_bytes())
}
