//! The audit in the thread of the caller alone.

ghost use Rattle.std.specs.Prelude.{All, IfOk, List, Option, ℕ};
ghost use Rattle.std.specs.List.{AllZip};
ghost use Rattle.pon_audit.specs.Auditing.{GoesOn, IsAuditing};
ghost use Rattle.pon_audit.specs.Judging.{IsJudgment};
ghost use Rattle.pon_audit.specs.Openings.{FitsRecording};
ghost use Rattle.pon_audit.specs.Streams.{TellsFailure};
ghost use Rattle.pon_audit.specs.Verdicts.{IsVerdict};

use crate::auditing::{Auditing, Step};
use crate::chapters::{Judged, judge};
use crate::ends::KeptEnds;
use crate::verdict::Verdict;
use pon_device::{DevRead, DeviceFault, StdRead};
use pon_record::RawChapter;
use std::alloc::{AllocError, Global};

/// Judges each chapter regardless of those before it, one after another.
///
/// # Errors
///
/// `AllocError` only if memory is refused.
pub fn judge_all(alloc: Global, chapters: &[RawChapter]) -> Result<Vec<Judged>, AllocError>
    requires { All (λ c. FitsRecording c.body) chapters.now }
    ensures { IfOk result (λ answers. AllZip IsJudgment chapters.now answers.items) }
{
    let mut answers = Vec::new(alloc);
    for chapter in chapters {
        answers.push(judge(alloc, chapter)?)?;
    }
    Ok(answers)
}

impl Auditing {
    /// Reads and judges the next chapters, as [`Auditing::next`] does, one after another.
    ///
    /// # Errors
    ///
    /// As for [`Auditing::next`].
    pub fn next_in_order<R: DevRead>(
        &mut self,
        alloc: Global,
        reader: &mut R,
    ) -> Result<Step, DeviceFault>
        requires { (start : Option (List ℕ)) × IsAuditing start self.old (R.remaining reader.old) }
        ensures fit { IfOk result (λ s. All (λ c. FitsRecording c.body) s.batch.chapters.items) }
        ensures judged { IfOk result (λ s. (start : Option (List ℕ))
            → IsAuditing start self.old (R.remaining reader.old)
            → GoesOn start self.new (R.remaining reader.new) s.verdict) }
        ensures failures { TellsFailure (R.failures reader.old) (R.failures reader.new) result }
    {
        let batch = self.read(alloc, reader)?;
        let answers = match judge_all(alloc, &batch.chapters) {
            Ok(answers) => answers,
            Err(_) => return Err(DeviceFault::Memory),
        };
        let verdict = self.place(&batch, answers)?;
        Ok(Step { batch, verdict })
    }
}

// Audits the bytes of a recording, and keeps these ends of its chapters. `Err` only if memory is refused, or if these ends do
// not suffice.
fn audit_keeping(alloc: Global, kept: KeptEnds, bytes: &[u8]) -> Result<Verdict, DeviceFault>
    ensures { IfOk result (λ verdict. IsVerdict bytes.now verdict) }
{
    let mut reader = StdRead::new(bytes);
    let mut auditing = match Auditing::open(alloc, kept, &mut reader)? {
        Ok(auditing) => auditing,
        Err(verdict) => return Ok(verdict),
    };
    for _batch in 0..u64::MAX {
        let Step { verdict, .. } = auditing.next_in_order(alloc, &mut reader)?;
        if let Some(verdict) = verdict {
            return Ok(verdict);
        }
    }
    Err(DeviceFault::Memory)
}

/// Audits the bytes of a recording in memory, as [`audit`](crate::audit) does, in the thread of the caller alone. The ends
/// of all chapters are kept only if the number of a chapter does not ascend.
///
/// # Errors
///
/// `AllocError` only if memory is refused.
pub fn audit_in_order(alloc: Global, bytes: &[u8]) -> Result<Verdict, AllocError>
    ensures { IfOk result (λ verdict. IsVerdict bytes.now verdict) }
{
    if let Ok(verdict) = audit_keeping(alloc, KeptEnds::OfPorts, bytes) {
        return Ok(verdict);
    }
    match audit_keeping(alloc, KeptEnds::OfChapters, bytes) {
        Ok(verdict) => Ok(verdict),
        Err(_) => Err(AllocError),
    }
}
