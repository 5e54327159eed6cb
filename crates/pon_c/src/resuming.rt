// Ports that go on where a recording ends.
ghost use Rattle.std.specs.Prelude.{◌≡◌, ◌≢◌, ◌<◌, ◌==◌, if◌then◌else◌, IfErr, IfOk, IsNone, IsSome, OnOk, Some};
ghost use Rattle.pon_units.specs.declared.limits.TheConstants.{MAX_PORTS};
ghost use Rattle.pon_history.specs.Chapters.{chapter_after};
ghost use Rattle.pon_record.specs.Chapters.{PlacedChapter};
ghost use Rattle.pon_audit.specs.Openings.{FitsRecording, chapter_of};
ghost use Rattle.pon_audit.specs.Verdicts.{IsGoodChapter};
ghost use Rattle.pon_c.specs.Audits.{TellsVerdict};
ghost use Rattle.pon_c.specs.Resuming.{IsGoodRecording, IsRefusedAfter, Resumes, ResumesAfter, StaysGood, TellsLast, TellsResume, TellsRefused};

use crate::auditing::{VerdictInfo, verdict_info};
use crate::handle::PortHandle;
use crate::numbers::{
    BAD_PORT, BAD_STATE, CHAPTER_FULL, IS_OPEN, NO_CHAPTER, NOT_GOOD, OUT_OF_MEMORY,
};
use pon_audit::audit_in_order;
use pon_device::StdRead;
use pon_port::Port;
use pon_record::{ChapterReader, RawChapter};
use pon_resume::{NotResumed, resume_after};
use pon_units::PortNo;
use std::alloc::{AllocError, Global};

// Returns the later of two chapters that is of the port.
fn later_of(port: PortNo, last: Option<RawChapter>, next: RawChapter) -> Option<RawChapter>
    ensures { result ≡ (if next.body.port == port then Some next else last) }
{
    if next.port == port { Some(next) } else { last }
}

// Reads a good recording again, and returns the last chapter of a port. `Err` only if memory is refused.
fn last_chapter(alloc: Global, bytes: &[u8], port: PortNo) -> Result<Option<RawChapter>, AllocError>
    requires { IsGoodRecording bytes.now }
    ensures { IfOk result (TellsLast bytes.now port) }
{
    let mut reader = StdRead::new(bytes);
    let Ok(mut source) = ChapterReader::open(alloc, &mut reader) else {
        return Err(AllocError);
    };
    let mut last = None;
    for _chapter in 0..u64::MAX {
        match source.next(alloc, &mut reader) {
            Ok(Some(next)) => last = later_of(port, last, next),
            Ok(None) => return Ok(last),
            Err(_) => return Err(AllocError),
        }
    }
    Err(AllocError)
}

// Opens a port with the chapter after a good one. `Err` with the number of the reason.
fn resume_good(alloc: Global, chapter: &RawChapter) -> Result<Port, u32>
    requires fits { FitsRecording chapter.now.body }
    requires good { IsGoodChapter chapter.now }
    ensures ok { IfOk result (λ port. port ≡ chapter_after (chapter_of chapter.now.body)) }
    ensures err { IfErr result (IsRefusedAfter chapter.now) }
    ensures reason { IfErr result (λ n. n ≢ 0) }
{
    match resume_after(alloc, chapter) {
        Ok(port) => Ok(port),
        Err(NotResumed::Chapter) => Err(NOT_GOOD),
        Err(NotResumed::Number) => Err(CHAPTER_FULL),
        Err(NotResumed::State) => Err(BAD_STATE),
        Err(NotResumed::Memory) => Err(OUT_OF_MEMORY),
    }
}

// Opens a port after the last chapter of a port in a good recording. `Err` with the number of the reason.
fn resume_last(alloc: Global, bytes: &[u8], port: PortNo) -> Result<Port, u32>
    requires { IsGoodRecording bytes.now }
    ensures ok { IfOk result (ResumesAfter bytes.now port) }
    ensures err { IfErr result (TellsRefused bytes.now port) }
    ensures reason { IfErr result (λ n. n ≢ 0) }
{
    match last_chapter(alloc, bytes, port) {
        Ok(Some(chapter)) => resume_good(alloc, &chapter),
        Ok(None) => Err(NO_CHAPTER),
        Err(_) => Err(OUT_OF_MEMORY),
    }
}

// Audits a recording, and opens a port after its last chapter of a port. `Err` with the number of the reason.
fn audit_and_resume(
    alloc: Global,
    bytes: &[u8],
    port: PortNo,
    verdict: &mut VerdictInfo,
) -> Result<Port, u32>
    ensures ok { IfOk result (ResumesAfter bytes.now port) }
    ensures verdict { OnOk result (TellsVerdict bytes.now verdict.new) }
    ensures err { IfErr result (TellsResume bytes.now port verdict.new) }
    ensures reason { IfErr result (λ n. n ≢ 0) }
{
    let Ok(found) = audit_in_order(alloc, bytes) else {
        return Err(OUT_OF_MEMORY);
    };
    *verdict = verdict_info(&found);
    if !found.is_good() {
        return Err(NOT_GOOD);
    }
    resume_last(alloc, bytes, port)
}

/// Audits a recording, as `sez_audit` does, and if it is good opens a port in a closed handle that goes on where the last
/// chapter of the port `number` ends: with the next number and no events. Returns 0, or the first of: `IS_OPEN` for an open
/// handle, `BAD_PORT` for a number above 63, `NOT_GOOD` unless the verdict is good, `NO_CHAPTER` if no chapter is of the
/// port, `CHAPTER_FULL` if the last one has the number 2^64 - 1, `BAD_STATE` if no port of this version goes on from its end,
/// and at any time `OUT_OF_MEMORY`. Then the handle is unchanged. The verdict is filled in unless the handle is open, the
/// number is above 63, or memory is refused.
#[unsafe(no_mangle)]
pub extern "C" fn sez_resume(
    alloc: Global,
    port: &mut PortHandle,
    bytes: &[u8],
    number: u8,
    verdict: &mut VerdictInfo,
) -> u32
    ensures ok { result ≡ 0 → Resumes bytes.now number port.new.owned.port }
    // The recording is good together with the chapter that this port will return.
    ensures good_together { result ≡ 0 → StaysGood bytes.now number port.new.owned.port }
    ensures verdict { result ≡ 0 → TellsVerdict bytes.now verdict.new }
    ensures err { result ≢ 0 → port.new.owned.port ≡ port.old.owned.port }
    ensures is_open { IsSome port.old.owned.port → result ≡ IS_OPEN }
    ensures number { IsNone port.old.owned.port → (number < MAX_PORTS → ⊥) → result ≡ BAD_PORT }
    ensures told { IsNone port.old.owned.port → number < MAX_PORTS → result ≢ 0
        → TellsResume bytes.now number verdict.new result }
{
    if port.is_open() {
        return IS_OPEN;
    }
    let Some(of_port) = PortNo::new(number) else {
        return BAD_PORT;
    };
    match audit_and_resume(alloc, bytes, of_port, verdict) {
        Ok(resumed) => match Box::new(alloc, resumed) {
            Ok(resumed) => {
                *port = PortHandle::of(resumed);
                0
            }
            Err(_) => OUT_OF_MEMORY,
        },
        Err(reason) => reason,
    }
}
