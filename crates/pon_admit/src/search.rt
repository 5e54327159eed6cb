// Searches in the rows of a roster.
ghost use Rattle.std.specs.Prelude.{◌≡◌, ◌==◌, count_by, position};
ghost use Rattle.pon_admit.specs.Roster.{comes_before, has_alloc, owned};

use crate::row::Row;
use pon_units::{AllocId, OnuId};

/// The result of one pass over the rows for a row to be admitted.
#[derive(Drop)]
pub(crate) struct Survey {
    /// Number of rows that come before it in map order.
    pub place: usize,
    /// Whether its Alloc-ID is admitted already.
    pub taken: bool,
    /// Number of Alloc-IDs that its ONU owns.
    pub owned: usize,
}

// Returns whether a row comes before another in map order.
fn comes_first(row: &Row, other: &Row) -> bool
    ensures { result ≡ comes_before row.now other.now }
{
    row.onu < other.onu || (row.onu == other.onu && row.alloc_id < other.alloc_id)
}

/// Surveys the rows for a row to be admitted, in one pass.
pub(crate) fn look_through(rows: &[Row], row: &Row) -> Survey
    ensures place { result.place ≡ count_by (λ s. comes_before s row.now) rows.now }
    ensures taken { result.taken ≡ has_alloc row.now.alloc_id rows.now }
    ensures owned { result.owned ≡ owned row.now.onu rows.now }
{
    let mut place = 0;
    let mut taken = false;
    let mut owned = 0;
    for other in rows {
        place += usize::from(comes_first(other, row));
        taken |= other.alloc_id == row.alloc_id;
        owned += usize::from(other.onu == row.onu);
    }
    Survey {
        place,
        taken,
        owned,
    }
}

/// Finds the index of the row of an Alloc-ID.
pub(crate) fn place_of(rows: &[Row], alloc_id: AllocId) -> Option<usize>
    ensures { result ≡ position (λ r. r.alloc_id == alloc_id) rows.now }
{
    rows.iter().position(|row| row.alloc_id == alloc_id)
}

/// Counts the Alloc-IDs that an ONU owns.
pub(crate) fn count_owned(rows: &[Row], onu: OnuId) -> usize
    ensures { result ≡ owned onu rows.now }
{
    rows.iter().filter(|row| row.onu == onu).count()
}
