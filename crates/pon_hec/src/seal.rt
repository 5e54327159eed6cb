ghost use Rattle.std.specs.Prelude.{◌≡◌, ◌^◌, ◌*◌, ◌<◌, ◌≤◌, ◌/◌};
ghost use Rattle.pon_units.specs.Polynomial.{remainder};
ghost use Rattle.pon_hec.specs.HeaderCode.{generator, IsCodeword, sealed};

use crate::table::{BYTE_VALUES, REMAINDERS};

/// Computes the codeword of 8 bytes of a payload of 51 bits, which must be below 2^51.
pub fn seal64(payload: u64) -> u64
    requires { payload < 2 ^ 51 }
    ensures codeword { IsCodeword (2 ^ 64) result }
    ensures payload { result / 2 ^ 13 ≡ payload }
    ensures value { result ≡ sealed payload }
{
    seal(payload, 7)
}

/// Computes the codeword of 4 bytes of a payload of 19 bits, which must be below 2^19.
pub fn seal32(payload: u32) -> u32
    requires { payload < 2 ^ 19 }
    ensures codeword { IsCodeword (2 ^ 32) result }
    ensures payload { result / 2 ^ 13 ≡ payload }
    ensures value { result ≡ sealed payload }
{
    seal(u64::from(payload), 3) as u32
}

// Computes the codeword of a payload of `bytes` bytes.
fn seal(payload: u64, bytes: u32) -> u64
    requires payload { payload < 2 ^ 51 }
    requires bytes { payload < 2 ^ (8 * bytes) }
    requires most { bytes ≤ 7 }
    ensures { result ≡ sealed payload }
{
    let body = (payload << 12) ^ u64::from(check_bits(payload, bytes));
    (body << 1) | u64::from(body.count_ones() & 1)
}

// Computes the 12 check bits of a payload of `bytes` bytes: the sum of the remainders of its bytes. The look-ups are
// independent.
pub(crate) fn check_bits(payload: u64, bytes: u32) -> u16
    requires payload { payload < 2 ^ 51 }
    requires bytes { payload < 2 ^ (8 * bytes) }
    requires most { bytes ≤ 7 }
    ensures { result ≡ remainder generator 12 51 (payload * 2 ^ 12) }
{
    let mut rest = 0;
    for place in 0..bytes {
        let byte = (payload >> (8 * place)) & 0xff;
        rest ^= remainder_of(place, byte as u8);
    }
    rest
}

// Returns the remainder of a byte at this position of a payload.
fn remainder_of(place: u32, byte: u8) -> u16
    requires { place < 7 }
    ensures { result ≡ remainder generator 12 56 (byte * 2 ^ (8 * place) * 2 ^ 12) }
{
    REMAINDERS[place as usize * BYTE_VALUES + usize::from(byte)]
}
