//! Writes whole texts to a device.

ghost use Rattle.pon_device.specs.Streams.{TellsLine, TellsWrite};

use crate::fault::DeviceFault;
use crate::traits::{DevWrite, write_all};

/// Writes a text, and flushes the writer.
///
/// # Errors
///
/// `Write` if the writer fails: a prefix of the text is then written, or all of it if only the flush fails.
pub fn write_text<W: DevWrite>(writer: &mut W, text: &[u8]) -> Result<(), DeviceFault>
    ensures text { TellsLine text.now (W.contents writer.old) (W.contents writer.new) result }
    ensures write { TellsWrite (W.failures writer.old) (W.failures writer.new) result }
{
    match write_all(writer, text) {
        Ok(()) => match writer.flush() {
            Ok(()) => Ok(()),
            Err(_) => Err(DeviceFault::Write),
        },
        Err(_) => Err(DeviceFault::Write),
    }
}
