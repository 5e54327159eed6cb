//! Laws of the header code, over the definitions alone.

ghost use Rattle.std.specs.Prelude.{◌≡◌, ◌^◌, ◌<◌, ◌≤◌, ◌/◌, ℕ};
ghost use Rattle.pon_hec.specs.HeaderCode.{IsCodeword, Reads, sealed};

/// A word has at most one reading: one payload, and one number of corrected bits.
pub fn one_reading()
    ensures { (limit word payload places payload2 places2 : ℕ) → limit ≤ 2 ^ 64 → word < limit →
        Reads limit word payload places → Reads limit word payload2 places2 →
        (payload ≡ payload2) × (places ≡ places2) }
{}

/// A payload has exactly one codeword, the sealed one.
pub fn one_codeword()
    ensures sealed { (payload : ℕ) → payload < 2 ^ 51 → IsCodeword (2 ^ 64) (sealed payload) }
    ensures only { (word : ℕ) → IsCodeword (2 ^ 64) word → word ≡ sealed (word / 2 ^ 13) }
{}
