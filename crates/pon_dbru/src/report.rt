ghost use Rattle.std.specs.Prelude.{◌≡◌, ◌^◌, ◌*◌, ◌<◌, ◌↔◌, ℕ, IfOk, IsErr};
ghost use Rattle.pon_units.specs.Polynomial.{remainder};
ghost use Rattle.pon_dbru.specs.Report.{check_generator, Reports};

use pon_units::BufOcc;
use thiserror::Error;

/// The fault of a report whose check byte is not that of its first three bytes.
#[derive(Clone, Copy, Debug, PartialEq, Eq, Error)]
#[error("the check byte of a buffer report is wrong")]
pub struct Garbled;

/// The generator of the check byte: x^8 + x^2 + x + 1.
const GENERATOR: u32 = 0b1_0000_0111;

// Computes the check byte of 24 bits: the remainder of the bits times x^8 by the generator.
fn check_byte(words: u32) -> u8
    requires { words < 2 ^ 24 }
    ensures { result ≡ remainder check_generator 8 24 (words * 2 ^ 8) }
{
    let mut rest = words << 8;
    for k in 0..24u32 {
        let n = 23 - k;
        if rest >= 1 << (8 + n) {
            rest ^= GENERATOR << n;
        }
    }
    rest as u8
}

// Returns the four bytes that report `words`.
fn report_bytes(words: u32) -> [u8; 4]
    requires { words < 2 ^ 24 }
    ensures { Reports result words }
{
    (words << 8 | u32::from(check_byte(words))).to_be_bytes()
}

// Returns the occupancy of `words`.
fn occupancy_of(words: u32) -> BufOcc
    requires { words < 2 ^ 24 }
    ensures { result ≡ words }
{
    BufOcc::new(words).unwrap()
}

/// Returns the four bytes that report this occupancy: the number of words of 4 bytes, most significant byte first, and
/// the check byte.
pub fn encode(occupancy: BufOcc) -> [u8; 4]
    ensures { Reports result occupancy }
{
    report_bytes(occupancy.get())
}

/// Returns the occupancy that four bytes report. 0xFFFFFF is a usual value.
///
/// # Errors
///
/// `Garbled` exactly when they report none.
pub fn decode(bytes: [u8; 4]) -> Result<BufOcc, Garbled>
    ensures ok { IfOk result (λ occupancy. Reports bytes occupancy) }
    ensures garbled { IsErr result ↔ ((words : ℕ) → Reports bytes words → ⊥) }
{
    let words = u32::from_be_bytes(bytes) >> 8;
    if report_bytes(words) == bytes {
        Ok(occupancy_of(words))
    } else {
        Err(Garbled)
    }
}
