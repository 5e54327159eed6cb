// The contracts of devices, and the writing of a whole piece.
ghost use Rattle.std.specs.Prelude.{◌≡◌, ◌<◌, ◌≤◌, ◌++◌, ℕ, List, Option, length, IfOk, OnOk, OnErr};
ghost use Rattle.pon_device.specs.Device.{CountsCall, CountsFailure, ReadConsumes, WriteAppends, Appends, Keeps};

use thiserror::Error;

/// The device failed in this call.
#[derive(Clone, Copy, Debug, PartialEq, Eq, Error)]
#[error("the device failed")]
pub struct Failed;

/// Adds one to the number of failures, modulo 2^64.
pub(crate) fn fail(failures: &mut u64) -> Failed
    ensures { CountsCall failures.old failures.new }
{
    *failures = failures.wrapping_add(1);
    Failed
}

/// A device that bytes are read from.
pub trait DevRead {
    /// Number of reads, modulo 2^64.
    ghost calls: { Self → ℕ };

    /// Number of failed reads, modulo 2^64.
    ghost failures: { Self → ℕ };

    /// Remaining bytes, if the device specifies them.
    ghost remaining: { Self → Option (List ℕ) };

    /// Reads bytes to the front of `buf`, and returns their number: 0 only at the end of the bytes, or if `buf` is
    /// empty.
    ///
    /// # Errors
    ///
    /// `Failed` if the device failed in this call; then no byte is read.
    fn read(&mut self, buf: &mut [u8]) -> Result<usize, Failed>
        ensures count { IfOk result (λ n. n ≤ length buf.old) }
        ensures calls { CountsCall (calls self.old) (calls self.new) }
        ensures failures { CountsFailure (failures self.old) (failures self.new) result }
        ensures bytes { ReadConsumes (remaining self.old) (remaining self.new) result buf.new };
}

/// A device that bytes are written to.
pub trait DevWrite {
    /// Number of failed calls, modulo 2^64.
    ghost failures: { Self → ℕ };

    /// Bytes written so far, if the device specifies them.
    ghost contents: { Self → Option (List ℕ) };

    /// Writes bytes from the front of `buf`, and returns their number.
    ///
    /// # Errors
    ///
    /// `Failed` if the device failed in this call; then no byte is written. To write no byte of a piece that is not
    /// empty is a failure.
    fn write(&mut self, buf: &[u8]) -> Result<usize, Failed>
        ensures count { IfOk result (λ n. n ≤ length buf.now) }
        ensures some { IfOk result (λ n. 0 < length buf.now → 0 < n) }
        ensures failures { CountsFailure (failures self.old) (failures self.new) result }
        ensures bytes { WriteAppends (contents self.old) (contents self.new) result buf.now };

    /// Flushes the bytes written so far.
    ///
    /// # Errors
    ///
    /// `Failed` if the device failed in this call.
    fn flush(&mut self) -> Result<(), Failed>
        ensures failures { CountsFailure (failures self.old) (failures self.new) result }
        ensures bytes { Keeps (contents self.old) (contents self.new) };
}

/// Writes all of the bytes. It does not flush.
///
/// # Errors
///
/// `Failed` exactly when the writer failed; then a prefix of the bytes is written.
pub fn write_all<W: DevWrite>(writer: &mut W, bytes: &[u8]) -> Result<(), Failed>
    ensures ok { OnOk result (Appends (W.contents writer.old) (W.contents writer.new) bytes.now) }
    ensures err { OnErr result ((sent rest : List ℕ)
        × Appends (W.contents writer.old) (W.contents writer.new) sent
        × (sent ++ rest ≡ bytes.now)) }
    ensures failures { CountsFailure (W.failures writer.old) (W.failures writer.new) result }
{
    let mut at = 0;
    while at < bytes.len() {
        match writer.write(&bytes[at..]) {
            Ok(n) => at += n,
            Err(failed) => return Err(failed),
        }
    }
    Ok(())
}
