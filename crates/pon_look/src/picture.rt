//! The time line of a map of a recording.

ghost use Rattle.std.specs.Prelude.{IfOk};
ghost use Rattle.pon_audit.specs.Streams.{IsVerdictOf, TellsFailure};

use crate::finding::find_map;
use crate::query::{Missing, WhyQuery};
use crate::viewed::Viewed;
use pon_audit::KeptEnds;
use pon_device::{DevRead, DeviceFault};
use pon_draw::{Picture, picture_at};
use pon_units::{FrameNo, PortNo};
use std::alloc::Global;
use std::thread::Threads;

/// Draws the map of a frame of a port in a recording. Without a port it is the lowest port that has such a map; without
/// a frame, the map is the last one of the port. A recording that is not good is drawn as it stands, up to the
/// first fault of its format. Returns the verdict of its audit, and the picture or what is missing.
///
/// # Errors
///
/// `Read` exactly when the reader fails, `Memory` if memory is refused, or the ends that the audit keeps do not suffice.
pub fn picture_of<R: DevRead>(
    rt: &(impl Threads + Sync),
    alloc: Global,
    kept: KeptEnds,
    reader: &mut R,
    port: Option<PortNo>,
    frame: Option<FrameNo>,
) -> Result<Viewed<Result<Picture, Missing>>, DeviceFault>
    ensures verdict { IfOk result (λ viewed. IsVerdictOf (R.remaining reader.old) viewed.verdict) }
    ensures failures { TellsFailure (R.failures reader.old) (R.failures reader.new) result }
{
    let query = WhyQuery {
        port,
        frame,
        alloc: None,
    };
    let Viewed { verdict, shown } = find_map(rt, alloc, kept, reader, query)?;
    let found = match shown {
        Ok(found) => found,
        Err(missing) => {
            let shown = Err(missing);
            return Ok(Viewed { verdict, shown });
        }
    };
    let shown = match picture_at(alloc, &found.chapter, found.entry) {
        Ok(Some(picture)) => Ok(picture),
        Ok(None) => Err(Missing::Chapters),
        Err(_) => return Err(DeviceFault::Memory),
    };
    Ok(Viewed { verdict, shown })
}
