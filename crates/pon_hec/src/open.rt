ghost use Rattle.std.specs.Prelude.{◌≡◌, ◌+◌, ◌^◌, ◌<◌, ◌≤◌, ◌/◌, ◌↔◌, ℕ, IfOk, IsErr, IfSome, IfNone, slice_index};
ghost use Rattle.pon_units.specs.Polynomial.{remainder};
ghost use Rattle.pon_hec.specs.HeaderCode.{generator, IsCodeword, Reads};
ghost use Rattle.pon_hec.specs.Syndrome.{Leaves};

use crate::fault::HecFault;
use crate::places::PLACES;
use crate::seal::check_bits;

/// Opens a header word of 4 bytes, and returns its payload, below 2^19, and the number of corrected bits, 0 to 2.
///
/// # Errors
///
/// `HecFault` exactly when the word is more than two bit errors away from every codeword.
pub fn open32(word: u32) -> Result<(u32, u8), HecFault>
    ensures ok { IfOk result (λ p. Reads (2 ^ 32) word p.0 p.1) }
    ensures only { IfOk result (λ p. (payload places : ℕ) → Reads (2 ^ 32) word payload places →
        (payload ≡ p.0) × (places ≡ p.1)) }
    ensures fault { IsErr result ↔ ((payload places : ℕ) → Reads (2 ^ 32) word payload places → ⊥) }
    ensures clean { IsCodeword (2 ^ 32) word → result ≡ Ok record { 0 = word / 2 ^ 13; 1 = 0 } }
{
    match open(u64::from(word), u64::from(u32::MAX)) {
        Some((payload, corrected)) => Ok((payload as u32, corrected)),
        None => Err(HecFault),
    }
}

/// Opens a header word of 8 bytes, and returns its payload, below 2^51, and the number of corrected bits, 0 to 2.
///
/// # Errors
///
/// `HecFault` exactly when the word is more than two bit errors away from every codeword.
pub fn open64(word: u64) -> Result<(u64, u8), HecFault>
    ensures ok { IfOk result (λ p. Reads (2 ^ 64) word p.0 p.1) }
    ensures only { IfOk result (λ p. (payload places : ℕ) → Reads (2 ^ 64) word payload places →
        (payload ≡ p.0) × (places ≡ p.1)) }
    ensures fault { IsErr result ↔ ((payload places : ℕ) → Reads (2 ^ 64) word payload places → ⊥) }
    ensures clean { IsCodeword (2 ^ 64) word → result ≡ Ok record { 0 = word / 2 ^ 13; 1 = 0 } }
{
    match open(word, u64::MAX) {
        Some(opened) => Ok(opened),
        None => Err(HecFault),
    }
}

// Returns the payload of the codeword up to `last` within two bit errors, and the number of corrected bits.
fn open(word: u64, last: u64) -> Option<(u64, u8)>
    requires { word ≤ last }
    ensures some { IfSome result (λ p. Reads (last + 1) word p.0 p.1) }
    ensures none { IfNone result ((payload places : ℕ) → Reads (last + 1) word payload places → ⊥) }
    ensures clean { IsCodeword (last + 1) word → result ≡ Some record { 0 = word / 2 ^ 13; 1 = 0 } }
{
    let wrong = wrong_places(rest_of(word), u64::from(word.count_ones() & 1))?;
    let near = word ^ wrong;
    if near <= last {
        Some((near >> 13, wrong.count_ones() as u8))
    } else {
        None
    }
}

// Computes the remainder of all bits but the last after division by the generator; it is 0 for a codeword.
fn rest_of(word: u64) -> u16
    ensures { result ≡ remainder generator 12 51 (word / 2) }
{
    check_bits(word >> 13, 7) ^ ((word >> 1) & 0xfff) as u16
}

// Finds the error pattern of at most two bits with this remainder, and with an odd number of bits if `odd` is 1.
fn wrong_places(rest: u16, odd: u64) -> Option<u64>
    requires rest { rest < 2 ^ 12 }
    requires odd { odd < 2 }
    ensures some { IfSome result (λ wrong. Leaves wrong rest odd) }
    ensures none { IfNone result ((wrong : ℕ) → Leaves wrong rest odd → ⊥) }
{
    if rest == 0 {
        return Some(odd);
    }
    let pair = pair_of(rest);
    if pair == 0 {
        return None;
    }
    let wrong = (1 << (pair / 64)) ^ (1 << (pair % 64)) ^ odd;
    if wrong.count_ones() <= 2 {
        Some(wrong)
    } else {
        None
    }
}

// Returns the entry of the table: the two bit positions that together have this remainder, or 0.
fn pair_of(rest: u16) -> u16
    requires { rest < 2 ^ 12 }
    ensures { result ≡ slice_index PLACES rest }
{
    PLACES[usize::from(rest)]
}
