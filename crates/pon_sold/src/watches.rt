//! What was sold to each Alloc-ID over the maps of chapters, and what it got of it.

ghost use Rattle.std.specs.Prelude.{◌≡◌, length};
ghost use Rattle.pon_sold.specs.declared.watches.TheConstants.{PLACES};

mod adding;

use crate::watch::Watch;
use pon_units::MAX_ALLOC_ID;

/// The number of places of a table by Alloc-ID: one for each, at its number.
pub(crate) const PLACES: usize = MAX_ALLOC_ID as usize + 1;

/// What was sold to each Alloc-ID over maps of a port, and what it got of it.
#[derive(Drop)]
pub struct Watches {
    // Of each Alloc-ID, at its number.
    watches: Vec<Watch>,
    ghost each_place: { length watches.items ≡ PLACES },
}
