//! Laws of maps that grant given payload words.

ghost use Rattle.std.specs.Prelude.{ℕ, ◌≤◌, ◌==◌, List, length, count_by};
ghost use Rattle.pon_units.specs.declared.Granted.{Granted};
ghost use Rattle.pon_units.specs.Granted.{AreInMapOrder};
ghost use Rattle.pon_bwmap.specs.MapRules.{IsMap};
ghost use Rattle.pon_burst.specs.Bursts.{AreSound};
ghost use Rattle.pon_burst.specs.Maps.{frame_words, map_granting};

use pon_units::{FRAME_WORDS, MAX_SERIES, MAX_STRUCTURES};

/// Grants in map order that fit a frame with their gaps have sound bursts: within the frame, and no two overlap.
pub fn grants_in_map_order_have_sound_bursts()
    ensures { (gap profile : ℕ) (gs : List Granted) → AreInMapOrder gs
        → frame_words gap gs ≤ FRAME_WORDS → AreSound gap (map_granting gap profile gs) }
{}

/// Their structures are a map if there are at most 512 of them, and at most 16 of each ONU.
#[tactic(auto, using(crate::proofs::MapRules::is_map_of_rising))]
pub fn map_rules()
    ensures { (gap profile : ℕ) (gs : List Granted) → AreInMapOrder gs
        → ((u : ℕ) → count_by (λ g. g.onu == u) gs ≤ MAX_SERIES) → length gs ≤ MAX_STRUCTURES
        → frame_words gap gs ≤ FRAME_WORDS → IsMap (map_granting gap profile gs) }
{}
