ghost use Rattle.pon_record.specs.Reading.{Reads};
ghost use Rattle.pon_record.specs.Openings.{row_in};

use crate::cursor::Cursor;
use crate::fault::Malformed;
use crate::layout::Layout;
use pon_descr::Descriptor;
use pon_guar::Counted;
use pon_units::{AllocId, FrameNo, OnuId};

/// A row of a recorded opening: an admitted Alloc-ID.
#[derive(Clone, Copy, Debug, PartialEq, Eq)]
pub struct RawRow {
    /// The ONU that owns the Alloc-ID, 0 to 1022.
    pub onu: OnuId,
    /// The Alloc-ID, 1024 to 16383.
    pub alloc_id: AllocId,
    /// Its descriptor.
    pub descriptor: Descriptor,
    /// The frame from which its reports count, of 125 µs.
    pub since: FrameNo,
    /// Its counted report, if any.
    pub counted: Option<Counted>,
    /// What the last map left to it, in kbit/s: 0 under rule one, 0 to 255 under rule two.
    pub carry: u8,
}

pub(crate) fn read_row(cursor: &mut Cursor<'_>, layout: Layout) -> Result<RawRow, Malformed>
    ensures { Reads (λ x. (x, cursor.new)) result
        ((row_in layout.version layout.rule).read cursor.old) }
{
    Ok(RawRow {
        onu: cursor.onu()?,
        alloc_id: cursor.alloc_id()?,
        descriptor: cursor.descriptor()?,
        since: cursor.frame()?,
        counted: cursor.report()?,
        carry: cursor.carry(layout)?,
    })
}
