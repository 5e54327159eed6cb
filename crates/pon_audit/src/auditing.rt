//! The audit of the bytes of a recording, from a device or in memory.

ghost use Rattle.std.specs.Prelude.{◌≡◌, ℕ, All, IfErr, IfOk, List, Option};
ghost use Rattle.std.specs.List.{AllZip};
ghost use Rattle.pon_device.specs.declared.fault.DeviceFault.TheVariants.{Memory};
ghost use Rattle.pon_audit.specs.Openings.{FitsRecording};
ghost use Rattle.pon_audit.specs.Judging.{IsJudgment};
ghost use Rattle.pon_audit.specs.Auditing.{BeginsAudit, GoesOn, HasRead, IsAuditing, WasRead};
ghost use Rattle.pon_audit.specs.Streams.{IsVerdictOf, TellsFailure};
ghost use Rattle.pon_audit.specs.Verdicts.{IsVerdict};

use crate::chapters::Judged;
use crate::ends::KeptEnds;
use crate::progress::Audit;
use crate::reading::{Batch, read_batch};
use crate::verdict::Verdict;
use pon_device::{DevRead, DeviceFault, StdRead};
use pon_record::{ChapterReader, StreamFault};
use std::alloc::{AllocError, Global};
use std::thread::Threads;

/// An audit that goes on batch by batch: what is left to read of the recording, and what was judged.
#[derive(Drop)]
pub struct Auditing {
    source: ChapterReader,
    audit: Audit,
}

/// The next chapters of a recording, which are read and judged.
#[derive(Drop)]
pub struct Step {
    /// The chapters.
    pub batch: Batch,
    /// The verdict on the recording, if they are its last chapters.
    pub verdict: Option<Verdict>,
}

impl Auditing {
    /// Reads the magic bytes of a recording; returns the verdict if they are wrong or cut. The audit keeps these ends of
    /// the chapters that it judges.
    ///
    /// # Errors
    ///
    /// `Read` exactly when the device fails. `Memory` if memory is refused.
    pub fn open<R: DevRead>(
        alloc: Global,
        kept: KeptEnds,
        reader: &mut R,
    ) -> Result<Result<Auditing, Verdict>, DeviceFault>
        ensures begins { IfOk result (BeginsAudit (R.remaining reader.old) (R.remaining reader.new)) }
        ensures failures { TellsFailure (R.failures reader.old) (R.failures reader.new) result }
    {
        let audit = Audit::open(alloc, kept)?;
        match ChapterReader::open(alloc, reader) {
            Ok(source) => Ok(Ok(Auditing { source, audit })),
            Err(StreamFault::BadFormat { at }) => Ok(Err(Verdict::BadFormat { at })),
            Err(StreamFault::Truncated { at }) => Ok(Err(Verdict::Truncated { at })),
            Err(StreamFault::Read) => Err(DeviceFault::Read),
            Err(StreamFault::Memory) => Err(DeviceFault::Memory),
        }
    }

    /// Reads the next chapters: at most 64, and no further one after as many entries as four full chapters have.
    ///
    /// # Errors
    ///
    /// `Read` exactly when the device fails. `Memory` if memory is refused, or if the place of a chapter is 2^64 or
    /// more.
    pub fn read<R: DevRead>(&mut self, alloc: Global, reader: &mut R) -> Result<Batch, DeviceFault>
        ensures fit { IfOk result (λ b. All (λ c. FitsRecording c.body) b.chapters.items) }
        ensures batch { IfOk result (λ b. (start : Option (List ℕ))
            → IsAuditing start self.old (R.remaining reader.old)
            → HasRead start self.new b (R.remaining reader.new)) }
        ensures failures { TellsFailure (R.failures reader.old) (R.failures reader.new) result }
    {
        read_batch(alloc, &mut self.source, reader)
    }

    /// Judges the chapters that were read; returns the verdict on the recording if they are the last. After a chapter
    /// that fails none is judged. Two or more chapters with [`PARALLEL_MAPS`](crate::PARALLEL_MAPS) maps are judged in
    /// as many threads as there are processors.
    ///
    /// # Errors
    ///
    /// `Memory` only if memory is refused, or if the number of a chapter does not ascend and the ends of chapters are not
    /// kept ([`KeptEnds::OfPorts`]).
    pub fn judge(
        &mut self,
        rt: &(impl Threads + Sync),
        alloc: Global,
        batch: &Batch,
    ) -> Result<Option<Verdict>, DeviceFault>
        requires fit { All (λ c. FitsRecording c.body) batch.now.chapters.items }
        requires read { WasRead self.old batch.now }
        ensures judged { IfOk result (λ found. (start left : Option (List ℕ))
            → HasRead start self.old batch.now left → GoesOn start self.new left found) }
        ensures err { IfErr result (λ fault. fault ≡ Memory) }
    {
        Ok(self.audit.take_batch(rt, alloc, batch)?)
    }

    /// Judges the chapters as [`Auditing::judge`] does, with the answers on them, each regardless of those before it.
    ///
    /// # Errors
    ///
    /// As for [`Auditing::judge`].
    pub fn place(
        &mut self,
        batch: &Batch,
        answers: Vec<Judged>,
    ) -> Result<Option<Verdict>, DeviceFault>
        requires answers { AllZip IsJudgment batch.now.chapters.items answers.items }
        requires read { WasRead self.old batch.now }
        ensures judged { IfOk result (λ found. (start left : Option (List ℕ))
            → HasRead start self.old batch.now left → GoesOn start self.new left found) }
        ensures err { IfErr result (λ fault. fault ≡ Memory) }
    {
        Ok(self.audit.take_answered_batch(batch, answers)?)
    }

    /// Reads and judges the next chapters, as [`Auditing::read`] and [`Auditing::judge`] do.
    ///
    /// # Errors
    ///
    /// As for [`Auditing::read`] and [`Auditing::judge`].
    pub fn next<R: DevRead>(
        &mut self,
        rt: &(impl Threads + Sync),
        alloc: Global,
        reader: &mut R,
    ) -> Result<Step, DeviceFault>
        requires { (start : Option (List ℕ)) × IsAuditing start self.old (R.remaining reader.old) }
        ensures fit { IfOk result (λ s. All (λ c. FitsRecording c.body) s.batch.chapters.items) }
        ensures judged { IfOk result (λ s. (start : Option (List ℕ))
            → IsAuditing start self.old (R.remaining reader.old)
            → GoesOn start self.new (R.remaining reader.new) s.verdict) }
        ensures failures { TellsFailure (R.failures reader.old) (R.failures reader.new) result }
    {
        let batch = self.read(alloc, reader)?;
        let verdict = self.judge(rt, alloc, &batch)?;
        Ok(Step { batch, verdict })
    }
}

/// Audits the recording that a device gives, chapter by chapter, to the end of the device or to the first fault of the
/// format. Its memory is for a batch of at most 64 chapters with about as many entries as four full ones, and for the
/// states that it keeps.
///
/// `Good` only if the bytes are a recording, each opening is lawful, each entry may follow those before it, each map is
/// fair for the state before it, the numbers of a port's chapters ascend, and a chapter opens with the state at the end
/// of the chapter one number before in its port, if that is in the recording. `Bad` only if a chapter fails and those
/// before it in the recording are good, also if the recording is cut in its last chapter. `Truncated` only if the whole
/// chapters are good. `BadFormat` regardless of the chapters before the fault: after a chapter that fails only the
/// format is checked. Chapters of a batch with [`PARALLEL_MAPS`](crate::PARALLEL_MAPS) maps or more are audited in as
/// many threads as there are processors, with the same verdict.
///
/// # Errors
///
/// `Read` exactly when the device fails. `Memory` if memory is refused, or if the recording has 2^64 bytes or more. With
/// [`KeptEnds::OfPorts`] also if the number of a chapter does not ascend: then only an audit with [`KeptEnds::OfChapters`] has
/// the verdict.
pub fn audit_keeping<R: DevRead>(
    rt: &(impl Threads + Sync),
    alloc: Global,
    kept: KeptEnds,
    reader: &mut R,
) -> Result<Verdict, DeviceFault>
    ensures verdict { IfOk result (λ v. IsVerdictOf (R.remaining reader.old) v) }
    ensures failures { TellsFailure (R.failures reader.old) (R.failures reader.new) result }
{
    let mut auditing = match Auditing::open(alloc, kept, reader)? {
        Ok(auditing) => auditing,
        Err(verdict) => return Ok(verdict),
    };
    for _batch in 0..u64::MAX {
        let Step { verdict, .. } = auditing.next(rt, alloc, reader)?;
        if let Some(verdict) = verdict {
            return Ok(verdict);
        }
    }
    Err(DeviceFault::Memory)
}

/// Audits the recording that a device gives, as [`audit_keeping`] does, and keeps the ends of all chapters.
///
/// # Errors
///
/// `Read` exactly when the device fails. `Memory` if memory is refused, or if the recording has 2^64 bytes or more.
pub fn audit_from<R: DevRead>(
    rt: &(impl Threads + Sync),
    alloc: Global,
    reader: &mut R,
) -> Result<Verdict, DeviceFault>
    ensures verdict { IfOk result (λ v. IsVerdictOf (R.remaining reader.old) v) }
    ensures failures { TellsFailure (R.failures reader.old) (R.failures reader.new) result }
{
    audit_keeping(rt, alloc, KeptEnds::OfChapters, reader)
}

/// Audits the bytes of a recording in memory, as [`audit_from`] does.
///
/// # Errors
///
/// `AllocError` only if memory is refused.
pub fn audit(rt: &(impl Threads + Sync), alloc: Global, bytes: &[u8]) -> Result<Verdict, AllocError>
    ensures { IfOk result (λ verdict. IsVerdict bytes.now verdict) }
{
    let mut reader = StdRead::new(bytes);
    match audit_from(rt, alloc, &mut reader) {
        Ok(verdict) => Ok(verdict),
        Err(_) => Err(AllocError),
    }
}
