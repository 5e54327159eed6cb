//! The audit of a batch of chapters.

ghost use Rattle.std.specs.Prelude.{◌++◌, All, IfOk, List, MatchOption};
ghost use Rattle.std.specs.List.{AllZip};
ghost use Rattle.pon_record.specs.Chapters.{PlacedChapter};
ghost use Rattle.pon_audit.specs.Openings.{FitsRecording};
ghost use Rattle.pon_audit.specs.Judging.{AreJudged, IsJudgment, TellsBad};

use crate::chapters::{Judged, judge};
use crate::ends::Ends;
use crate::faults::judge_next;
use crate::verdict::Verdict;
use pon_record::RawChapter;
use rayon::prelude::*;
use std::alloc::{AllocError, Global};
use std::thread::Threads;

/// Minimum number of maps of a batch for an audit in many threads.
pub const PARALLEL_MAPS: u64 = 2_048;

// Judges each chapter regardless of those before it, in as many threads as there are processors. `Err` only if memory is
// refused.
fn judge_in_parallel(
    rt: &(impl Threads + Sync),
    alloc: Global,
    chapters: &[RawChapter],
) -> Result<Vec<Judged>, AllocError>
    requires { All (λ c. FitsRecording c.body) chapters.now }
    ensures { IfOk result (λ answers. AllZip IsJudgment chapters.now answers.items) }
{
    chapters
        .par_iter()
        .with_min_len(1)
        .map(
            |chapter: &RawChapter| -> Result<Judged, AllocError>
                requires { FitsRecording chapter.now.body }
                ensures { IfOk result (λ answer. IsJudgment chapter.now answer) }
            { judge(alloc, chapter) },
        )
        .collect::<Result<Vec<Judged>, AllocError>>(rt, alloc)?
}

/// Returns the verdict if one of the chapters after those judged fails, from the answers on them alone. `None` if all
/// are good, and then they are judged too. `Err` only if memory is refused.
pub(crate) fn place_all(
    ends: &mut Ends,
    chapters: &[RawChapter],
    answers: Vec<Judged>,
) -> Result<Option<Verdict>, AllocError>
    requires judged { (earlier : List PlacedChapter) × AreJudged earlier ends.old }
    requires answers { AllZip IsJudgment chapters.now answers.items }
    ensures { IfOk result (λ found. (earlier : List PlacedChapter) → AreJudged earlier ends.old
        → MatchOption found (AreJudged (earlier ++ chapters.now) ends.new)
        (TellsBad (earlier ++ chapters.now))) }
{
    let mut place = 0;
    for judged in answers {
        if let Some(verdict) = judge_next(ends, &chapters[place], judged)? {
            return Ok(Some(verdict));
        }
        place += 1;
    }
    Ok(None)
}

// As `place_all`, and judges one chapter after another.
fn judge_in_order(
    alloc: Global,
    ends: &mut Ends,
    chapters: &[RawChapter],
) -> Result<Option<Verdict>, AllocError>
    requires fit { All (λ c. FitsRecording c.body) chapters.now }
    requires judged { (earlier : List PlacedChapter) × AreJudged earlier ends.old }
    ensures { IfOk result (λ found. (earlier : List PlacedChapter) → AreJudged earlier ends.old
        → MatchOption found (AreJudged (earlier ++ chapters.now) ends.new)
        (TellsBad (earlier ++ chapters.now))) }
{
    for place in 0..chapters.len() {
        let judged = judge(alloc, &chapters[place])?;
        if let Some(verdict) = judge_next(ends, &chapters[place], judged)? {
            return Ok(Some(verdict));
        }
    }
    Ok(None)
}

/// Returns the verdict if one of the chapters after those judged fails. `None` if all are good, and then they are
/// judged too. Two or more chapters with [`PARALLEL_MAPS`] maps are judged in as many threads as there are processors.
/// `Err` only if memory is refused.
pub(crate) fn judge_batch(
    rt: &(impl Threads + Sync),
    alloc: Global,
    ends: &mut Ends,
    chapters: &[RawChapter],
    maps: u64,
) -> Result<Option<Verdict>, AllocError>
    requires fit { All (λ c. FitsRecording c.body) chapters.now }
    requires judged { (earlier : List PlacedChapter) × AreJudged earlier ends.old }
    ensures { IfOk result (λ found. (earlier : List PlacedChapter) → AreJudged earlier ends.old
        → MatchOption found (AreJudged (earlier ++ chapters.now) ends.new)
        (TellsBad (earlier ++ chapters.now))) }
{
    if chapters.len() < 2 || maps < PARALLEL_MAPS {
        return judge_in_order(alloc, ends, chapters);
    }
    let answers = judge_in_parallel(rt, alloc, chapters)?;
    place_all(ends, chapters, answers)
}
