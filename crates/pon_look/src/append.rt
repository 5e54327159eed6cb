//! Text that is appended to a buffer, in bytes.

ghost use Rattle.std.specs.Prelude.{◌+◌, ◌*◌, ◌≤◌, length, vec_capacity, vec_len};

use itoa::Buffer;
use pon_bwmap::{Map, write_map};
use std::alloc::AllocError;

/// Appends a number in decimal. `Err` only if memory is refused.
pub(crate) fn append_number(text: &mut Vec<u8>, number: u64) -> Result<(), AllocError> {
    let mut digits = Buffer::new();
    text.extend_from_slice(digits.format(number).as_bytes())
}

// Appends bytes in lower-case hexadecimal. The capacity must suffice for them.
fn append_hex(text: &mut Vec<u8>, bytes: &[u8])
    requires { vec_len text.old + 2 * length bytes.now ≤ vec_capacity text.old }
{
    let from = text.len();
    text.resize(from + 2 * bytes.len(), 0).unwrap();
    hex::encode_to_slice(bytes, &mut text.as_mut_slice()[from..]).unwrap();
}

/// Appends the bytes of a map in lower-case hexadecimal. `room` is a buffer for them, with any content. `Err` only if memory
/// is refused.
pub(crate) fn append_map(
    text: &mut Vec<u8>,
    room: &mut Vec<u8>,
    map: &Map,
) -> Result<(), AllocError> {
    room.resize(4 + 8 * map.rows().len(), 0)?;
    write_map(map, room.as_mut_slice());
    text.reserve(2 * room.len())?;
    append_hex(text, room.as_slice());
    Ok(())
}
