//! The series at the front of the structures of a map.

ghost use Rattle.std.specs.Prelude.{◌≤◌, ◌<◌, length, take, drop};
ghost use Rattle.pon_link.specs.Series.{IsSeries, KeepsSeries};

use pon_bwmap::Alloc;
use pon_units::MAX_SERIES;

// Returns the number of structures of the first series, 1 to 16.
pub(crate) fn series_len(rows: &[Alloc]) -> usize
    requires some { 0 < length rows.now }
    requires series { KeepsSeries rows.now }
    ensures within { result ≤ length rows.now }
    ensures limit { result ≤ MAX_SERIES }
    ensures series { IsSeries (take result rows.now) }
    ensures later { KeepsSeries (drop result rows.now) }
{
    let mut len = 1;
    while len < rows.len() && rows[len].start().is_none() {
        len += 1;
    }
    len
}
