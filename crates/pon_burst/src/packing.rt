ghost use Rattle.std.specs.Prelude.{◌≡◌, ◌<◌, ◌≤◌, length, take, drop, AllPairs};
ghost use Rattle.pon_units.specs.Granted.{AreInMapOrder};
ghost use Rattle.pon_bwmap.specs.MapRules.{IsMap};
ghost use Rattle.pon_burst.specs.Bursts.{AreSound};
ghost use Rattle.pon_burst.specs.Maps.{frame_words, map_granting};
ghost use Rattle.pon_burst.specs.Series.{grants_of_series};

use crate::layout::Layout;
use arrayvec::ArrayVec;
use pon_bwmap::Alloc;
use pon_units::{
    AllocId, FRAME_WORDS, Gap, Granted, MAX_SERIES, MAX_STRUCTURES, OnuId, Profile, Words,
};

/// Writes to the front of `out` the structures of the map that grants each Alloc-ID its payload words, 0 to 9,720 of 4
/// bytes, and one word for its report; returns the number of structures. The bursts are in ascending order of ONU-ID,
/// each after its gap of 1 to 256 words. It always succeeds and allocates no memory.
///
/// Requires ascending ONU-IDs, and ascending Alloc-IDs of each ONU; gaps, headers, trailers and grants of all ONUs with
/// Alloc-IDs of at most 9,720 words together; and room in `out` for a structure for each Alloc-ID. An ONU without
/// Alloc-IDs has no structure.
pub fn pack(
    gap: Gap,
    profile: Profile,
    onus: &[(OnuId, ArrayVec<(AllocId, Words), MAX_SERIES>)],
    out: &mut [Alloc],
) -> usize
    requires onus { AllPairs (λ s t. s.0 < t.0) onus.now }
    requires order { AreInMapOrder (grants_of_series onus.now) }
    requires fit { frame_words gap (grants_of_series onus.now) ≤ FRAME_WORDS }
    requires room { length (grants_of_series onus.now) ≤ length out.old }
    ensures count { result ≡ length (grants_of_series onus.now) }
    ensures structures { take result out.new
        ≡ map_granting gap profile (grants_of_series onus.now) }
    ensures rest { drop result out.new ≡ drop result out.old }
    ensures sound { AreSound gap (take result out.new) }
    ensures map { result ≤ MAX_STRUCTURES → IsMap (take result out.new) }
{
    let mut layout = Layout::new(gap);
    let mut filled = 0;
    for (onu, allocs) in onus {
        for (alloc_id, words) in allocs.as_slice() {
            let granted = Granted {
                onu: *onu,
                alloc_id: *alloc_id,
                words: *words,
            };
            out[filled] = layout.structure(gap, profile, &granted);
            filled += 1;
        }
    }
    filled
}
