//! Answers in the room of the host.

ghost use Rattle.pon_web.specs.Handing.{HandsOut};

/// Copies an answer to the front of `room`, if it fits, and its length to `length`.
pub(crate) fn hand_out(answer: &[u8], room: &mut [u8], length: &mut usize)
    ensures { HandsOut answer.now room.old room.new length.new }
{
    let count = answer.len();
    *length = count;
    if count <= room.len() {
        room[..count].copy_from_slice(answer);
    }
}
