//! The first chapter that fails, from the answer on each chapter.

ghost use Rattle.std.specs.Prelude.{◌≡◌, ◌<◌, ◌≤◌, ◌++◌, ◌∷◌, [], IfOk, List, MatchOption, OnErr};
ghost use Rattle.pon_record.specs.Chapters.{PlacedChapter};
ghost use Rattle.pon_audit.specs.Openings.{OpensLawfully};
ghost use Rattle.pon_audit.specs.Judging.{AreJudged, IsJudgment, IsKeptEnd, IsLast, TellsBad};
ghost use Rattle.pon_audit.specs.Verdicts.{ChapterFails, MayStandAfter};
ghost use Rattle.pon_audit.specs.declared.ends.End.{End};
ghost use Rattle.pon_audit.specs.declared.ends.KeptEnds.TheVariants.{OfPorts};

use crate::chain::{is_chained, opens_with};
use crate::chapters::{Fault, Judged};
use crate::ends::{End, Ends, KeptEnds};
use crate::verdict::{AuditReason, Verdict};
use pon_record::RawChapter;
use std::alloc::AllocError;

// Returns why a chapter with a greater number than the last of its port may not stand after earlier good ones; `None` if it
// may.
fn fault_after(last: &End, chapter: &RawChapter) -> Option<AuditReason>
    requires kept_last { IsKeptEnd last.now }
    requires opens { OpensLawfully chapter.now.body }
    requires above { last.now.number < chapter.now.body.number }
    ensures { (earlier : List PlacedChapter) → IsLast earlier chapter.now.body.port last.now
        → MatchOption result (MayStandAfter earlier chapter.now)
        (λ why. ChapterFails earlier chapter.now 0 why) }
{
    if chapter.number - last.number > 1 {
        return None;
    }
    if !opens_with(chapter, &last.end) {
        return Some(AuditReason::Chain);
    }
    None
}

// Returns why a chapter whose number is at most that of the last of its port fails: all ends are searched for one that it
// does not open with. `Err` exactly if they are not kept.
fn fallen_fault(ends: &Ends, chapter: &RawChapter) -> Result<AuditReason, AllocError>
    requires judged { (earlier : List PlacedChapter) × AreJudged earlier ends.now }
    requires opens { OpensLawfully chapter.now.body }
    ensures fault { IfOk result (λ why. (earlier : List PlacedChapter) (last : End)
        → AreJudged earlier ends.now → IsLast earlier chapter.now.body.port last
        → chapter.now.body.number ≤ last.number → ChapterFails earlier chapter.now 0 why) }
    ensures err { OnErr result (ends.now.kept ≡ OfPorts) }
{
    match ends.kept() {
        KeptEnds::OfPorts => Err(AllocError),
        KeptEnds::OfChapters if is_chained(chapter, ends.all()) => Ok(AuditReason::Number),
        KeptEnds::OfChapters => Ok(AuditReason::Chain),
    }
}

// Returns why a chapter may not stand after those judged; `None` if it may. `Err` only if its number does not ascend, and the
// ends of all chapters are not kept.
fn place_fault(ends: &Ends, chapter: &RawChapter) -> Result<Option<AuditReason>, AllocError>
    requires judged { (earlier : List PlacedChapter) × AreJudged earlier ends.now }
    requires opens { OpensLawfully chapter.now.body }
    ensures fault { IfOk result (λ found. (earlier : List PlacedChapter) → AreJudged earlier ends.now
        → MatchOption found (MayStandAfter earlier chapter.now)
        (λ why. ChapterFails earlier chapter.now 0 why)) }
    ensures err { OnErr result (ends.now.kept ≡ OfPorts) }
{
    let last = match ends.last_of(chapter.port) {
        Some(last) => last,
        None => return Ok(None),
    };
    if chapter.number <= last.number {
        return Ok(Some(fallen_fault(ends, chapter)?));
    }
    Ok(fault_after(last, chapter))
}

// Finds the fault of a chapter after those judged, from the answer on it alone. If it has none, its end is kept. `Err`
// only if memory is refused, or the ends that are kept do not suffice.
fn chapter_fault(
    ends: &mut Ends,
    chapter: &RawChapter,
    judged: Judged,
) -> Result<Option<Fault>, AllocError>
    requires judged { (earlier : List PlacedChapter) × AreJudged earlier ends.old }
    requires answer { IsJudgment chapter.now judged }
    ensures { IfOk result (λ found. (earlier : List PlacedChapter) → AreJudged earlier ends.old
        → MatchOption found (AreJudged (earlier ++ chapter.now ∷ []) ends.new)
        (λ f. ChapterFails earlier chapter.now f.index f.why)) }
{
    match judged {
        Judged::Unlawful => Ok(Some(Fault::at_start(AuditReason::Opening))),
        Judged::Fails(fault) => match place_fault(ends, chapter)? {
            Some(why) => Ok(Some(Fault::at_start(why))),
            None => Ok(Some(fault)),
        },
        Judged::Ends(end) => match place_fault(ends, chapter)? {
            Some(why) => Ok(Some(Fault::at_start(why))),
            None => {
                ends.keep(chapter, end)?;
                Ok(None)
            }
        },
    }
}

/// Returns the verdict if a chapter after those judged fails, from the answer on it alone. `None` if it is good, and
/// then it is judged too. `Err` only if memory is refused.
pub(crate) fn judge_next(
    ends: &mut Ends,
    chapter: &RawChapter,
    judged: Judged,
) -> Result<Option<Verdict>, AllocError>
    requires judged { (earlier : List PlacedChapter) × AreJudged earlier ends.old }
    requires answer { IsJudgment chapter.now judged }
    ensures { IfOk result (λ found. (earlier : List PlacedChapter) → AreJudged earlier ends.old
        → MatchOption found (AreJudged (earlier ++ chapter.now ∷ []) ends.new)
        (TellsBad (earlier ++ chapter.now ∷ []))) }
{
    match chapter_fault(ends, chapter, judged)? {
        Some(fault) => Ok(Some(Verdict::Bad {
            port: chapter.port,
            chapter: chapter.number,
            index: fault.index,
            why: fault.why,
        })),
        None => Ok(None),
    }
}
