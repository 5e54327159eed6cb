//! Where an audited recording ends.

ghost use Rattle.std.specs.Prelude.{◌≡◌, IfOk, IfSome, List, Some, ℕ};
ghost use Rattle.pon_audit.specs.Streams.{IsVerdictOf};
ghost use Rattle.pon_resume.specs.Ends.{EndsWell, TellsEither, TellsEnds, is_resumable};

use crate::last::LastChapters;
use crate::reading::read_last;
use pon_audit::{KeptEnds, Verdict, audit_keeping};
use pon_device::{DevRead, DeviceFault};
use std::alloc::Global;
use std::thread::Threads;

/// The verdict on a recording, and where it ends.
#[derive(Drop)]
pub struct ReadEnds {
    /// The verdict of the audit.
    pub verdict: Verdict,
    /// The last whole chapter of each port, exactly if the verdict is `Good` or `Truncated`.
    pub last: Option<LastChapters>,
}

// Returns whether ports may go on after a recording with this verdict.
fn is_resumable(verdict: &Verdict) -> bool
    ensures { result ≡ is_resumable verdict.now }
{
    matches!(*verdict, Verdict::Good { .. } | Verdict::Truncated { .. })
}

/// Audits a recording, as `audit_keeping` of `pon_audit` does. If it is good, or cut after good chapters, reads it `again` and
/// keeps the last whole chapter of each port. Its memory is as for the audit, and for a chapter of each port.
///
/// # Errors
///
/// `Read` exactly when one of the readers fails. `Memory` if memory is refused, if the recording has 2^64 bytes or more, or
/// if the ends that the audit keeps do not suffice.
pub fn read_ends<R: DevRead>(
    rt: &(impl Threads + Sync),
    alloc: Global,
    kept: KeptEnds,
    reader: &mut R,
    again: &mut R,
) -> Result<ReadEnds, DeviceFault>
    ensures verdict { IfOk result (λ ends. IsVerdictOf (R.remaining reader.old) ends.verdict) }
    ensures resumable { IfOk result (λ ends. TellsEnds ends.verdict ends.last) }
    // If both readers give the same bytes, these are the last of the good chapters.
    ensures last { (bytes : List ℕ) → R.remaining reader.old ≡ Some bytes
        → R.remaining again.old ≡ Some bytes
        → IfOk result (λ ends. IfSome ends.last (EndsWell bytes ends.verdict)) }
    ensures failures { TellsEither (R.failures reader.old) (R.failures reader.new)
        (R.failures again.old) (R.failures again.new) result }
{
    let verdict = audit_keeping(rt, alloc, kept, reader)?;
    if !is_resumable(&verdict) {
        return Ok(ReadEnds {
            verdict,
            last: None,
        });
    }
    let last = Some(read_last(alloc, again)?);
    Ok(ReadEnds { verdict, last })
}
