//! The answer to one series.

ghost use Rattle.std.specs.Prelude.{◌≤◌, ◌<◌, length};
ghost use Rattle.pon_link.specs.Answers.{AnswersSeries};

use crate::foreign::foreign;
use crate::owner::owner;
use crate::record::UpRecord;
use crate::unit::Unit;
use pon_bwmap::Alloc;
use pon_units::{FrameNo, MAX_SERIES};

// Answers a series by the unit that owns it, or as foreign. `next` is the index after that of the last owner; this unit
// is tried first, since maps name the units in order.
pub(crate) fn answer_series(
    units: &mut [Unit],
    next: &mut usize,
    frame: FrameNo,
    series: &[Alloc],
) -> UpRecord
    requires some { 0 < length series.now }
    requires limit { length series.now ≤ MAX_SERIES }
    ensures { AnswersSeries frame series.now units.old units.new result }
{
    let Some(place) = owner(units, *next, series[0].id()) else {
        return foreign(frame, series);
    };
    *next = place + 1;
    match units[place].answer_rows(frame, series) {
        Some(answer) => answer,
        None => foreign(frame, series),
    }
}
