//! The port that goes on after a chapter.

ghost use Rattle.std.specs.Prelude.{◌≡◌, IfErr, IfOk, MatchOption, OnOk};
ghost use Rattle.pon_history.specs.Chapters.{chapter_after};
ghost use Rattle.pon_audit.specs.Judging.{EndsWith};
ghost use Rattle.pon_audit.specs.Openings.{FitsRecording, chapter_of};
ghost use Rattle.pon_audit.specs.Verdicts.{IsGoodChapter};
ghost use Rattle.pon_resume.specs.Resuming.{IsRefusedAfter};

use crate::not_resumed::NotResumed;
use pon_audit::{Judged, judge};
use pon_port::{Port, PortState, ResumeFault};
use pon_record::RawChapter;
use std::alloc::{AllocError, Global};

/// Returns the state at the end of a chapter; `None` exactly if the chapter is not good.
///
/// # Errors
///
/// `AllocError` only if memory is refused.
pub fn end_of(alloc: Global, chapter: &RawChapter) -> Result<Option<PortState>, AllocError>
    requires { FitsRecording chapter.now.body }
    ensures { IfOk result (λ found. MatchOption found
        (IsGoodChapter chapter.now → ⊥) (EndsWith chapter.now)) }
{
    match judge(alloc, chapter)? {
        Judged::Ends(end) => Ok(Some(end)),
        Judged::Unlawful => Ok(None),
        Judged::Fails(_) => Ok(None),
    }
}

/// Opens the port that goes on after a chapter: with the next number, the state at the end of the chapter, and no
/// entries.
///
/// # Errors
///
/// `Chapter` if the chapter is not good, `Number` if it has the number 2^64 - 1, and `State` if no port of this version
/// has the state at its end. `Memory` only if memory is refused.
pub fn resume_after(alloc: Global, chapter: &RawChapter) -> Result<Port, NotResumed>
    requires { FitsRecording chapter.now.body }
    ensures good { OnOk result (IsGoodChapter chapter.now) }
    ensures port { IfOk result (λ port. port ≡ chapter_after (chapter_of chapter.now.body)) }
    ensures err { IfErr result (IsRefusedAfter chapter.now) }
{
    let Some(end) = end_of(alloc, chapter)? else {
        return Err(NotResumed::Chapter);
    };
    let Some(number) = chapter.number.checked_add(1) else {
        return Err(NotResumed::Number);
    };
    match Port::resume(alloc, number, end) {
        Ok(port) => Ok(port),
        Err(ResumeFault::OutOfRange) => Err(NotResumed::State),
        Err(ResumeFault::Memory) => Err(NotResumed::Memory),
    }
}
