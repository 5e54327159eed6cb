//! Takes the bytes of one chapter from a device.

ghost use Rattle.std.specs.Prelude.{◌<◌, ◌≤◌, IfErr, OnOk, length};
ghost use Rattle.pon_lists.specs.Bytes.{AreBytes};
ghost use Rattle.pon_record.specs.declared.limits.TheConstants.{HEAD_BYTES};
ghost use Rattle.pon_record.specs.Streams.{CountsRead, Fills, HasFront, IsOfDevice, TellsSize};

use crate::limits::{CHAPTER_TAG, HEAD_BYTES};
use crate::stream_fault::StreamFault;
use pon_device::DevRead;

/// Reads bytes to the end of `buffer`, until it has `size` bytes or the device ends. `piece` is scratch. The buffer grows
/// only by bytes that the device gave, whatever the size.
pub(crate) fn read_up_to<R: DevRead>(
    reader: &mut R,
    piece: &mut [u8],
    buffer: &mut Vec<u8>,
    size: usize,
) -> Result<(), StreamFault>
    requires some { 0 < length piece.old }
    ensures ok { OnOk result (Fills buffer.old.items buffer.new.items size
        (R.remaining reader.old) (R.remaining reader.new)) }
    ensures err { IfErr result IsOfDevice }
    ensures failures { CountsRead (R.failures reader.old) (R.failures reader.new) result }
{
    while buffer.len() < size {
        let most = (size - buffer.len()).min(piece.len());
        let count = reader.read(&mut piece[..most])?;
        if count == 0 {
            return Ok(());
        }
        buffer.extend_from_slice(&piece[..count])?;
    }
    Ok(())
}

// Returns the number of bytes of the chapter that begins with these bytes; `None` if the tag is wrong or the head is not
// whole.
fn chapter_size(head: &[u8]) -> Option<usize>
    requires { length head.now ≤ HEAD_BYTES }
    ensures { TellsSize head.now result }
{
    if head.len() < HEAD_BYTES || head[0] != CHAPTER_TAG {
        return None;
    }
    let word = head[1..].first_chunk::<4>().unwrap();
    Some(HEAD_BYTES + u32::from_be_bytes(*word) as usize)
}

/// Takes the bytes of the next chapter into `buffer`, in place of what it had: all of them, or those up to the end of the
/// device, or at most those of a head if the tag is wrong. None only at the end. `piece` is scratch.
pub(crate) fn read_front<R: DevRead>(
    reader: &mut R,
    piece: &mut [u8],
    buffer: &mut Vec<u8>,
) -> Result<(), StreamFault>
    requires some { 0 < length piece.old }
    ensures ok { OnOk result (HasFront (R.remaining reader.old) (R.remaining reader.new)
        buffer.new.items) }
    ensures err { IfErr result IsOfDevice }
    ensures failures { CountsRead (R.failures reader.old) (R.failures reader.new) result }
{
    buffer.clear();
    read_up_to(reader, piece, buffer, HEAD_BYTES)?;
    if let Some(size) = chapter_size(buffer) {
        read_up_to(reader, piece, buffer, size)?;
    }
    Ok(())
}

/// Proves that each number of a slice of bytes is below 256. It computes nothing.
pub(crate) fn prove_bytes(bytes: &[u8])
    ensures { AreBytes bytes.now }
{
    let _size = bytes.len();
}
