//! The events of a chapter.

ghost use Rattle.std.specs.Prelude.{◌≤◌};
ghost use Rattle.pon_record.specs.Format.{read_times};
ghost use Rattle.pon_record.specs.Reading.{Reads};
ghost use Rattle.pon_record.specs.Events.{event, occupancies, occupancy};

use crate::codes;
use crate::cursor::Cursor;
use crate::fault::Malformed;
use pon_admit::{Event, Row};
use pon_dbru::Occupancies;
use pon_units::MAX_SERIES;

pub(crate) fn read_event(cursor: &mut Cursor<'_>) -> Result<Event, Malformed>
    ensures { Reads (λ x. (x, cursor.new)) result (event.read cursor.old) }
{
    match cursor.u8()? {
        codes::ADMIT => Ok(Event::Admit(Row::new(
            cursor.onu()?,
            cursor.alloc_id()?,
            cursor.descriptor()?,
        ))),
        codes::CHANGE => Ok(Event::Change {
            alloc_id: cursor.alloc_id()?,
            descriptor: cursor.descriptor()?,
        }),
        codes::REMOVE => Ok(Event::Remove {
            alloc_id: cursor.alloc_id()?,
        }),
        codes::REPORT => Ok(Event::Report {
            frame: cursor.frame()?,
            onu: cursor.onu()?,
            occ: read_occupancies(cursor)?,
        }),
        codes::MAKE_MAP => Ok(Event::MakeMap),
        codes::FAIL => Ok(Event::Fail {
            cause: cursor.cause()?,
        }),
        codes::RESTORE => Ok(Event::Restore),
        _ => Err(Malformed),
    }
}

// Reads a count of 1 to 16, and this number of occupancies.
fn read_occupancies(cursor: &mut Cursor<'_>) -> Result<Occupancies, Malformed>
    ensures { Reads (λ x. (x, cursor.new)) result (occupancies.read cursor.old) }
{
    let count = cursor.u8()?;
    if count < 1 || usize::from(count) > MAX_SERIES {
        return Err(Malformed);
    }
    occupancies_in(cursor, count)
}

// Reads `count` occupancies.
fn occupancies_in(cursor: &mut Cursor<'_>, count: u8) -> Result<Occupancies, Malformed>
    requires { count ≤ MAX_SERIES }
    ensures { Reads (λ x. (x, cursor.new)) result (read_times occupancy count cursor.old) }
{
    let mut occupancies = Occupancies::new();
    for _ in 0..count {
        let occupancy = cursor.occupancy()?;
        occupancies.push(occupancy);
    }
    Ok(occupancies)
}
