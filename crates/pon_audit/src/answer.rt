//! The answer to a recording: its verdict as a line.

ghost use Rattle.std.specs.Prelude.{◌≡◌, ◌≢◌, ℕ, Err, IfOk, List, Option, string_bytes};
ghost use Rattle.pon_device.specs.Streams.{TellsWrite};
ghost use Rattle.pon_audit.specs.Answers.{Audited, TellsAudit, verdict_line};
ghost use Rattle.pon_audit.specs.Streams.{IsVerdictOf};
ghost use Rattle.pon_device.specs.declared.fault.DeviceFault.TheVariants.{Read};

use crate::auditing::audit_from;
use crate::verdict::Verdict;
use pon_device::{DevRead, DevWrite, DeviceFault, write_text};
use std::alloc::{AllocError, Global};
use std::thread::Threads;

// Makes the line of a verdict.
fn line_of(alloc: Global, verdict: &Verdict) -> Result<String, AllocError>
    ensures { IfOk result (λ line. string_bytes line ≡ verdict_line verdict.now) }
{
    let verdict = *verdict;
    format!(in alloc; "{verdict}\n")
}

// Writes the line of a verdict.
fn write_line<W: DevWrite>(
    alloc: Global,
    verdict: &Verdict,
    writer: &mut W,
) -> Result<bool, DeviceFault>
    ensures text { (bytes : Option (List ℕ)) → IsVerdictOf bytes verdict.now
        → Audited bytes (W.contents writer.old) (W.contents writer.new) result }
    ensures write { TellsWrite (W.failures writer.old) (W.failures writer.new) result }
    ensures no_read { result ≢ Err Read }
{
    let line = line_of(alloc, verdict)?;
    match write_text(writer, line.as_bytes()) {
        Ok(()) => Ok(verdict.is_good()),
        Err(_) => Err(DeviceFault::Write),
    }
}

/// Audits the recording that `reader` gives, and writes the verdict as one line. Returns `true` exactly when the
/// recording is good. The writer is flushed once, after the line.
///
/// # Errors
///
/// `Read` exactly when the reader fails, and `Memory` if memory is refused: nothing is written. `Write` if the writer
/// fails: a prefix of the line is written.
pub fn write_verdict<R: DevRead, W: DevWrite>(
    rt: &(impl Threads + Sync),
    alloc: Global,
    reader: &mut R,
    writer: &mut W,
) -> Result<bool, DeviceFault>
    ensures text { Audited (R.remaining reader.old) (W.contents writer.old)
        (W.contents writer.new) result }
    ensures read { TellsAudit (R.failures reader.old) (R.failures reader.new) result }
    ensures write { TellsWrite (W.failures writer.old) (W.failures writer.new) result }
{
    match audit_from(rt, alloc, reader) {
        Ok(verdict) => write_line(alloc, &verdict, writer),
        Err(fault) => Err(fault),
    }
}
