ghost use Rattle.std.specs.Prelude.{◌≡◌, ◌+◌, ◌≤◌, ◌++◌, length, vec_len, vec_capacity};
ghost use Rattle.pon_units.specs.Granted.{AreInMapOrder};
ghost use Rattle.pon_burst.specs.Maps.{frame_words, map_granting};

use crate::layout::Layout;
use pon_bwmap::Alloc;
use pon_units::{FRAME_WORDS, Gap, Granted, Profile};

/// Appends to `out` the structures of the map of these grants, one for each grant in order. It allocates no memory.
///
/// Requires grants in map order; gaps, headers, trailers and grants of all ONUs of at most 9,720 words together; and room
/// in `out` for a structure for each grant. No grants have no structures.
pub fn lay_bursts(gap: Gap, profile: Profile, grants: &[Granted], out: &mut Vec<Alloc>)
    requires order { AreInMapOrder grants.now }
    requires fit { frame_words gap grants.now ≤ FRAME_WORDS }
    requires room { vec_len out.old + length grants.now ≤ vec_capacity out.old }
    ensures structures { out.new.items
        ≡ out.old.items ++ map_granting gap profile grants.now }
    ensures capacity { vec_capacity out.old ≤ vec_capacity out.new }
{
    let mut layout = Layout::new(gap);
    for granted in grants {
        out.push_reserved(layout.structure(gap, profile, granted));
    }
}
