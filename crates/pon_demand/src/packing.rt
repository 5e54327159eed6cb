//! The structures of a map.

ghost use Rattle.std.specs.Prelude.{◌≡◌, IfOk};
ghost use Rattle.pon_bwmap.specs.MapRules.{IsMap};
ghost use Rattle.pon_burst.specs.Maps.{map_granting};
ghost use Rattle.pon_demand.specs.Packing.{AreOneMap};

use pon_burst::lay_bursts;
use pon_bwmap::{Alloc, Map};
use pon_units::{Gap, Granted, Profile};
use std::alloc::{AllocError, Global};

// Makes the structures of these grants.
fn structures(
    alloc: Global,
    gap: Gap,
    profile: Profile,
    grants: &[Granted],
) -> Result<Vec<Alloc>, AllocError>
    requires { AreOneMap gap grants.now }
    ensures structures { IfOk result (λ structures. structures.items
        ≡ map_granting gap profile grants.now) }
    ensures map { IfOk result (λ structures. IsMap structures.items) }
{
    let mut structures = Vec::with_capacity(alloc, grants.len())?;
    lay_bursts(gap, profile, grants, &mut structures);
    Ok(structures)
}

/// Makes the map of these grants: a structure for each, in their order, with the DBRu flag on; each ONU's burst begins
/// a gap after the previous burst. The grants must be in map order, at most 16 to an ONU and 512 in all, and their
/// bursts must fit a frame.
///
/// # Errors
///
/// `AllocError` only if memory is refused.
pub fn pack_grants(
    alloc: Global,
    gap: Gap,
    profile: Profile,
    grants: &[Granted],
) -> Result<Map, AllocError>
    requires { AreOneMap gap grants.now }
    ensures { IfOk result (λ map. map ≡ map_granting gap profile grants.now) }
{
    Ok(Map::of_rows(structures(alloc, gap, profile, grants)?))
}
