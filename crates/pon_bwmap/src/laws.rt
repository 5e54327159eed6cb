//! Laws of bandwidth maps, over the definitions alone.

ghost use Rattle.std.specs.Prelude.{◌≡◌, ◌↔◌, ◌+◌, ◌*◌, ◌<◌, ℕ, List, ◌++◌, length, All};
ghost use Rattle.pon_bwmap.specs.Alloc.{Alloc};
ghost use Rattle.pon_bwmap.specs.MapBytes.{map_bytes};
ghost use Rattle.pon_bwmap.specs.MapReading.{FitsStructure, ReadsMap};
ghost use Rattle.pon_bwmap.specs.MapFaults.{IsFirstMapFault};
ghost use Rattle.pon_bwmap.specs.MapRules.{IsMap, KeepsSeriesRules};
ghost use Rattle.pon_bwmap.specs.declared.fault.MapFault.{MapFault};

/// Structures make a map exactly when they keep the rules of series.
pub fn map_rules()
    ensures { (rows : List Alloc) → IsMap rows ↔ KeepsSeriesRules rows }
{}

/// The bytes of a map, followed by any others, read as that map: nothing is corrected, and the other bytes are not
/// used.
pub fn reads_back()
    ensures { (rows : List Alloc) (rest : List ℕ) → IsMap rows → All FitsStructure rows →
        ReadsMap (map_bytes rows ++ rest) rows 0 (4 + 8 * length rows) }
{}

/// Bytes read as at most one map, with one number of corrected bits and one number of bytes used.
pub fn one_map()
    ensures { (bytes : List ℕ) (rows rows2 : List Alloc) (corrected corrected2 used used2 : ℕ) →
        All (λ b. b < 256) bytes → ReadsMap bytes rows corrected used
        → ReadsMap bytes rows2 corrected2 used2 →
        (rows ≡ rows2) × (corrected ≡ corrected2) × (used ≡ used2) }
{}

/// Bytes have at most one first fault.
pub fn one_fault()
    ensures { (bytes : List ℕ) (fault fault2 : MapFault) → All (λ b. b < 256) bytes →
        IsFirstMapFault bytes fault → IsFirstMapFault bytes fault2 → fault ≡ fault2 }
{}

/// If bytes read as a map, their only fault is `Memory`.
pub fn only_memory_is_wanting()
    ensures { (bytes : List ℕ) (rows : List Alloc) (corrected used : ℕ) (fault : MapFault) →
        All (λ b. b < 256) bytes → ReadsMap bytes rows corrected used
        → IsFirstMapFault bytes fault →
        fault ≡ MapFault.Memory }
{}
