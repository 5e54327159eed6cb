//! What a recording holds, seen while it is audited.

ghost use Rattle.std.specs.Prelude.{◌≡◌, ◌↔◌, IfOk, IsTrue, List, Option, string_bytes, ℕ};
ghost use Rattle.pon_device.specs.Streams.{TellsWrite};
ghost use Rattle.pon_audit.specs.Answers.{Audited, verdict_line};
ghost use Rattle.pon_audit.specs.Auditing.{IsAuditing};
ghost use Rattle.pon_audit.specs.Streams.{IsVerdictOf, TellsFailure};
ghost use Rattle.pon_look.specs.Gaps.{IsComplete};
ghost use Rattle.pon_look.specs.Views.{OnlyWrites};

use crate::counts::map_count;
use crate::gaps::{Gap, Gaps};
use crate::info::write_line;
use crate::viewed::Viewed;
use pon_audit::{Auditing, KeptEnds, Step, Verdict};
use pon_device::{DevRead, DevWrite, DeviceFault, write_text};
use pon_record::RawChapter;
use std::alloc::{AllocError, Global};
use std::fmt::Write;
use std::thread::Threads;

/// What a recording holds up to its end or the first fault of its format: maps, the ports that have a chapter, and the
/// chapters that are missing.
#[derive(Drop)]
pub struct Contents {
    gaps: Gaps,
    maps: u64,
}

impl Contents {
    // What no chapter holds. `Err` only if memory is refused.
    fn new(alloc: Global) -> Result<Contents, AllocError> {
        let gaps = Gaps::new(alloc)?;
        Ok(Contents { gaps, maps: 0 })
    }

    // Notes the next chapters.
    fn note(&mut self, chapters: &[RawChapter]) -> Result<(), AllocError> {
        for chapter in chapters {
            self.gaps.note(chapter)?;
            self.maps = self.maps.saturating_add(map_count(&chapter.entries));
        }
        Ok(())
    }

    /// The number of maps, at most 2^64 - 1.
    pub fn maps(&self) -> u64
        ensures { result ≡ self.now.maps }
    {
        self.maps
    }

    /// The chapters that are missing, each gap before a chapter of its port that is there; the gap of a port that does
    /// not begin with chapter 0 begins with that.
    pub fn gaps(&self) -> &[Gap]
        ensures { result.now ≡ self.now.gaps.gaps.items }
    {
        self.gaps.as_slice()
    }

    /// Returns whether there is a map, and no chapter is missing.
    pub fn is_complete(&self) -> bool
        ensures { IsTrue result ↔ IsComplete self.now }
    {
        self.maps > 0 && self.gaps().is_empty()
    }

    /// Returns whether a port has a chapter.
    pub(crate) fn has_port(&self, port: usize) -> bool {
        self.gaps.has_port(port)
    }
}

// Audits the chapters that are left of a recording, and notes what they hold.
fn audit_rest<R: DevRead>(
    rt: &(impl Threads + Sync),
    alloc: Global,
    auditing: &mut Auditing,
    reader: &mut R,
    contents: Contents,
) -> Result<Viewed<Contents>, DeviceFault>
    requires { (start : Option (List ℕ)) × IsAuditing start auditing.old (R.remaining reader.old) }
    ensures verdict { IfOk result (λ viewed. (start : Option (List ℕ))
        → IsAuditing start auditing.old (R.remaining reader.old) → IsVerdictOf start viewed.verdict) }
    ensures failures { TellsFailure (R.failures reader.old) (R.failures reader.new) result }
{
    let mut shown = contents;
    for _batch in 0..u64::MAX {
        let Step { batch, verdict } = auditing.next(rt, alloc, reader)?;
        shown.note(&batch.chapters)?;
        if let Some(verdict) = verdict {
            return Ok(Viewed { verdict, shown });
        }
    }
    Err(DeviceFault::Memory)
}

/// Audits a recording, as `audit_from` of `pon_audit` does, and notes what it holds.
///
/// # Errors
///
/// `Read` exactly when the reader fails, `Memory` if memory is refused, or the ends that the audit keeps do not suffice.
pub fn audit_contents<R: DevRead>(
    rt: &(impl Threads + Sync),
    alloc: Global,
    kept: KeptEnds,
    reader: &mut R,
) -> Result<Viewed<Contents>, DeviceFault>
    ensures verdict { IfOk result (λ viewed. IsVerdictOf (R.remaining reader.old) viewed.verdict) }
    ensures failures { TellsFailure (R.failures reader.old) (R.failures reader.new) result }
{
    let shown = Contents::new(alloc)?;
    match Auditing::open(alloc, kept, reader)? {
        Ok(mut auditing) => audit_rest(rt, alloc, &mut auditing, reader, shown),
        Err(verdict) => Ok(Viewed { verdict, shown }),
    }
}

// Makes the line of a verdict.
fn line_of(alloc: Global, verdict: &Verdict) -> Result<String, AllocError>
    ensures { IfOk result (λ line. string_bytes line ≡ verdict_line verdict.now) }
{
    let verdict = *verdict;
    format!(in alloc; "{verdict}\n")
}

/// Writes the line of a verdict. Returns `true` exactly if the recording is good.
///
/// # Errors
///
/// `Write` exactly when the writer fails, `Memory` if memory is refused: nothing is written then.
pub fn write_verdict_line<W: DevWrite>(
    alloc: Global,
    verdict: &Verdict,
    writer: &mut W,
) -> Result<bool, DeviceFault>
    ensures text { (bytes : Option (List ℕ)) → IsVerdictOf bytes verdict.now
        → Audited bytes (W.contents writer.old) (W.contents writer.new) result }
    ensures write { TellsWrite (W.failures writer.old) (W.failures writer.new) result }
{
    let line = line_of(alloc, verdict)?;
    match write_text(writer, line.as_bytes()) {
        Ok(()) => Ok(verdict.is_good()),
        Err(_) => Err(DeviceFault::Write),
    }
}

// Makes the line of a gap, or that there is no map, after the name of a file if one is given.
fn lacking_line(
    alloc: Global,
    file: Option<&str>,
    gap: Option<&Gap>,
) -> Result<String, AllocError> {
    let mut line = String::new(alloc);
    if let Some(file) = file {
        write!(line, "{file}: ")?;
    }
    match gap {
        Some(Gap { port, first, last }) => {
            let port = port.get();
            writeln!(line, "port {port} chapters {first} to {last} missing")?;
        }
        None => line.push_str("no map\n")?,
    }
    Ok(line)
}

/// Writes what a recording does not have to be complete, after the name of a file if one is given: a line for each gap in
/// its chapters, and one if it has no map.
///
/// # Errors
///
/// `Write` exactly when the writer fails, `Memory` if memory is refused.
pub fn write_gaps<W: DevWrite>(
    alloc: Global,
    file: Option<&str>,
    contents: &Contents,
    writer: &mut W,
) -> Result<(), DeviceFault>
    ensures write { OnlyWrites (W.failures writer.old) (W.failures writer.new) result }
{
    for gap in contents.gaps() {
        write_line(lacking_line(alloc, file, Some(gap)), writer)?;
    }
    if contents.maps() > 0 {
        return Ok(());
    }
    write_line(lacking_line(alloc, file, None), writer)
}
