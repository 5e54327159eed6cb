//! Reads openings.

ghost use Rattle.pon_record.specs.Reading.{ReadsValue, Reads};
ghost use Rattle.pon_record.specs.Openings.{grant, opening_in, row_in, window_map_under};
ghost use Rattle.pon_record.specs.Fields.{onu_id};

use crate::cursor::Cursor;
use crate::fault::{Malformed, Stop};
use crate::layout::Layout;
use crate::limits::MAX_REPORTED;
use crate::lists::{Recorded, read_few, read_some};
use crate::opening::{Opening, RawMap};
use crate::row::{RawRow, read_row};
use pon_guar::MAX_MAPS;
use pon_units::{Granted, OnuId};
use std::alloc::Global;

impl Recorded for RawRow {
    ghost form = { λ l. row_in l.version l.rule };

    fn read(_alloc: Global, cursor: &mut Cursor<'_>, layout: Layout) -> Result<Self, Stop> {
        Ok(read_row(cursor, layout)?)
    }
}

impl Recorded for OnuId {
    ghost form = { λ l. onu_id };

    fn read(_alloc: Global, cursor: &mut Cursor<'_>, _layout: Layout) -> Result<Self, Stop> {
        Ok(cursor.onu()?)
    }
}

fn read_grant(cursor: &mut Cursor<'_>) -> Result<Granted, Malformed>
    ensures { Reads (λ x. (x, cursor.new)) result (grant.read cursor.old) }
{
    Ok(Granted {
        onu: cursor.onu()?,
        alloc_id: cursor.alloc_id()?,
        words: cursor.words()?,
    })
}

impl Recorded for Granted {
    ghost form = { λ l. grant };

    fn read(_alloc: Global, cursor: &mut Cursor<'_>, _layout: Layout) -> Result<Self, Stop> {
        Ok(read_grant(cursor)?)
    }
}

impl Recorded for RawMap {
    ghost form = { λ l. window_map_under l.rule };

    fn read(alloc: Global, cursor: &mut Cursor<'_>, layout: Layout) -> Result<Self, Stop> {
        Ok(RawMap {
            frame: cursor.frame()?,
            grants: read_some(alloc, cursor, layout, layout.max_allocs())?,
            reported: read_few(alloc, cursor, layout, MAX_REPORTED)?,
        })
    }
}

/// Reads the opening of a chapter, after its rule.
pub(crate) fn read_opening(
    alloc: Global,
    cursor: &mut Cursor<'_>,
    layout: Layout,
) -> Result<Opening, Stop>
    ensures { ReadsValue (λ x. (x, cursor.new)) result
        ((opening_in layout.version layout.rule).read cursor.old) }
{
    Ok(Opening {
        rule: layout.rule,
        gap: cursor.gap()?,
        profile: cursor.profile()?,
        cause: cursor.failure()?,
        next: cursor.frame()?,
        taken_before: cursor.u64()?,
        rows: read_some(alloc, cursor, layout, layout.max_allocs())?,
        window: read_few(alloc, cursor, layout, MAX_MAPS as u8)?,
    })
}
