//! The unit that a series is granted to.

ghost use Rattle.std.specs.Prelude.{◌≡◌, ◌<◌, true, false, All, IfSome, IfNone, length, position, slice_get};
ghost use Rattle.pon_link.specs.Units.{owns};

use crate::unit::Unit;

// Returns the index of the first unit that owns the Alloc-ID.
fn first_owner(units: &[Unit], alloc_id: u16) -> Option<usize>
    ensures { result ≡ position (λ unit. owns unit.queues alloc_id) units.now }
{
    units.iter().position(|unit| unit.owns(alloc_id))
}

// Returns the index of a unit that owns the Alloc-ID: `next`, or otherwise the first one.
pub(crate) fn owner(units: &[Unit], next: usize, alloc_id: u16) -> Option<usize>
    ensures within { IfSome result (λ place. place < length units.now) }
    ensures owns { IfSome result (λ place.
        IfSome (slice_get units.now place) (λ unit. owns unit.queues alloc_id ≡ true)) }
    ensures none { IfNone result (All (λ unit. owns unit.queues alloc_id ≡ false) units.now) }
{
    if next < units.len() && units[next].owns(alloc_id) {
        return Some(next);
    }
    first_owner(units, alloc_id)
}
