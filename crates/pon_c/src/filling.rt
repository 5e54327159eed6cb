ghost use Rattle.std.specs.Prelude.{◌≢◌};
ghost use Rattle.pon_c.specs.Filling.{IsFilled};
ghost use Rattle.pon_c.specs.declared.numbers.TheConstants.{OUT_OF_MEMORY};

use crate::numbers::NO_ROOM;

/// Writes bytes to the front of `room`, and their number to `size`. Returns 0, or `NO_ROOM` if the room is too small: then
/// nothing is written to it.
pub(crate) fn fill(bytes: &[u8], room: &mut [u8], size: &mut usize) -> u32
    ensures filled { IsFilled bytes.now result size.new room.old room.new }
    ensures number { result ≢ OUT_OF_MEMORY }
{
    let count = bytes.len();
    *size = count;
    if count > room.len() {
        return NO_ROOM;
    }
    room[..count].copy_from_slice(bytes);
    0
}
