//! Reads bytes one by one.

ghost use Rattle.pon_device.specs.Device.{CountsFailure, CountsCall};
ghost use Rattle.pon_device.specs.Streams.{GivesByte};

use crate::traits::{DevRead, Failed};

/// Reads the next byte. `None` at the end of the input.
///
/// # Errors
///
/// `Failed` if the reader fails.
pub fn next_byte<R: DevRead>(reader: &mut R) -> Result<Option<u8>, Failed>
    ensures byte { GivesByte (R.remaining reader.old) (R.remaining reader.new) result }
    ensures calls { CountsCall (R.calls reader.old) (R.calls reader.new) }
    ensures failures { CountsFailure (R.failures reader.old) (R.failures reader.new) result }
{
    let mut byte = [0u8; 1];
    match reader.read(&mut byte) {
        Ok(n) => { if n == 0 { Ok(None) } else { Ok(Some(byte[0])) } }
        Err(failed) => Err(failed),
    }
}
