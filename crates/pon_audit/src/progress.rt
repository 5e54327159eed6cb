//! The audit of a recording, batch by batch.

ghost use Rattle.std.specs.Prelude.{◌≡◌, ◌+◌, ◌++◌, ℕ, All, IfOk, IfSome, List, MatchOption, OnOk, Option, [], sum_by};
ghost use Rattle.std.specs.List.{AllZip};
ghost use Rattle.pon_record.specs.Chapters.{PlacedChapter};
ghost use Rattle.pon_record.specs.Recordings.{IsRecording, IsTruncated};
ghost use Rattle.pon_record.specs.Streams.{Position};
ghost use Rattle.pon_audit.specs.Openings.{FitsRecording};
ghost use Rattle.pon_audit.specs.Judging.{IsJudgment};
ghost use Rattle.pon_audit.specs.Streams.{AreAudited, EndsAudit, EndsBatch};
ghost use Rattle.pon_audit.specs.Verdicts.{IsVerdict, maps_in};
ghost use Rattle.pon_audit.specs.declared.reading.BatchEnd.TheVariants.{More};

use crate::batches::{judge_batch, place_all};
use crate::chapters::Judged;
use crate::ends::{Ends, KeptEnds};
use crate::reading::{Batch, BatchEnd};
use crate::verdict::Verdict;
use pon_record::RawChapter;
use std::alloc::{AllocError, Global};
use std::thread::Threads;

/// The chapters audited so far: their ends if all are good, the number of their maps, and the verdict if one fails.
#[derive(Drop)]
pub(crate) struct Audit {
    ends: Ends,
    maps: u64,
    found: Option<Verdict>,
}

// Counts the maps of a chapter.
fn chapter_maps(chapter: &RawChapter) -> u64
    ensures { result ≡ maps_in chapter.now }
{
    let maps = chapter.entries.iter().filter(|e| e.makes_map());
    maps.count() as u64
}

// Adds the number of maps of chapters; `None` if it does not fit.
fn add_maps(maps: u64, chapters: &[RawChapter]) -> Option<u64>
    ensures { IfSome result (λ sum. sum ≡ maps + sum_by maps_in chapters.now) }
{
    let mut sum = maps;
    for chapter in chapters {
        sum = sum.checked_add(chapter_maps(chapter))?;
    }
    Some(sum)
}

impl Audit {
    /// Starts the audit, with no chapters. It keeps these ends.
    ///
    /// # Errors
    ///
    /// `AllocError` only if memory is refused.
    pub fn open(alloc: Global, kept: KeptEnds) -> Result<Audit, AllocError>
        ensures { IfOk result (λ audit. AreAudited [] audit) }
    {
        let ends = Ends::open(alloc, kept)?;
        Ok(Audit {
            ends,
            maps: 0,
            found: None,
        })
    }

    // Audits the next chapters; after one that fails it judges no more. `Err` only if memory is refused.
    fn take(
        &mut self,
        rt: &(impl Threads + Sync),
        alloc: Global,
        chapters: &[RawChapter],
    ) -> Result<(), AllocError>
        requires fit { All (λ c. FitsRecording c.body) chapters.now }
        requires audited { (earlier : List PlacedChapter) × AreAudited earlier self.old }
        ensures { OnOk result ((earlier : List PlacedChapter) → AreAudited earlier self.old
            → AreAudited (earlier ++ chapters.now) self.new) }
    {
        if let Some(_verdict) = self.found {
            return Ok(());
        }
        let Some(sum) = add_maps(self.maps, chapters) else {
            return Err(AllocError);
        };
        let maps = sum - self.maps;
        self.found = judge_batch(rt, alloc, &mut self.ends, chapters, maps)?;
        self.maps = sum;
        Ok(())
    }

    // As `take`, with the answers on the chapters, each regardless of those before it. `Err` only if memory is refused.
    fn take_answers(
        &mut self,
        chapters: &[RawChapter],
        answers: Vec<Judged>,
    ) -> Result<(), AllocError>
        requires answers { AllZip IsJudgment chapters.now answers.items }
        requires audited { (earlier : List PlacedChapter) × AreAudited earlier self.old }
        ensures { OnOk result ((earlier : List PlacedChapter) → AreAudited earlier self.old
            → AreAudited (earlier ++ chapters.now) self.new) }
    {
        if let Some(_verdict) = self.found {
            return Ok(());
        }
        let Some(sum) = add_maps(self.maps, chapters) else {
            return Err(AllocError);
        };
        self.found = place_all(&mut self.ends, chapters, answers)?;
        self.maps = sum;
        Ok(())
    }

    // Returns the verdict on a recording of the chapters audited.
    fn end(&self) -> Verdict
        ensures { (bytes : List ℕ) (chapters : List PlacedChapter) → AreAudited chapters self.now
            → IsRecording bytes chapters → IsVerdict bytes result }
    {
        match self.found {
            Some(verdict) => verdict,
            None => Verdict::Good { maps: self.maps },
        }
    }

    // Returns the verdict on a recording that ends inside the chapter at `at`, after the chapters audited.
    fn cut(&self, at: usize) -> Verdict
        ensures { (bytes : List ℕ) (chapters : List PlacedChapter) → AreAudited chapters self.now
            → IsTruncated bytes at chapters → IsVerdict bytes result }
    {
        match self.found {
            Some(verdict) => verdict,
            None => Verdict::Truncated { at },
        }
    }

    // Returns the verdict after the last batch, which ends like this; `None` if there are more.
    fn verdict_at(&self, end: BatchEnd) -> Option<Verdict>
        ensures { MatchOption result (end ≡ More) (λ v. (bytes : List ℕ)
            (chapters : List PlacedChapter) (p : Position) (left : Option (List ℕ))
            → AreAudited chapters self.now → EndsBatch bytes chapters p left end
            → IsVerdict bytes v) }
    {
        match end {
            BatchEnd::More => None,
            BatchEnd::Whole => Some(self.end()),
            BatchEnd::Cut { at } => Some(self.cut(at)),
            BatchEnd::Malformed { at } => Some(Verdict::BadFormat { at }),
        }
    }

    /// Audits the next batch. Returns the verdict if it is the last one.
    ///
    /// # Errors
    ///
    /// `AllocError` only if memory is refused.
    pub fn take_batch(
        &mut self,
        rt: &(impl Threads + Sync),
        alloc: Global,
        batch: &Batch,
    ) -> Result<Option<Verdict>, AllocError>
        requires fit { All (λ c. FitsRecording c.body) batch.now.chapters.items }
        requires audited { (earlier : List PlacedChapter) × AreAudited earlier self.old }
        ensures { IfOk result (λ found. (earlier : List PlacedChapter) → AreAudited earlier self.old
            → EndsAudit earlier batch.now self.new found) }
    {
        if let BatchEnd::Malformed { at } = batch.end {
            return Ok(Some(Verdict::BadFormat { at }));
        }
        self.take(rt, alloc, &batch.chapters)?;
        Ok(self.verdict_at(batch.end))
    }

    /// Audits the next batch as [`Audit::take_batch`] does, with the answers on its chapters, each regardless of those
    /// before it.
    ///
    /// # Errors
    ///
    /// `AllocError` only if memory is refused.
    pub fn take_answered_batch(
        &mut self,
        batch: &Batch,
        answers: Vec<Judged>,
    ) -> Result<Option<Verdict>, AllocError>
        requires answers { AllZip IsJudgment batch.now.chapters.items answers.items }
        requires audited { (earlier : List PlacedChapter) × AreAudited earlier self.old }
        ensures { IfOk result (λ found. (earlier : List PlacedChapter) → AreAudited earlier self.old
            → EndsAudit earlier batch.now self.new found) }
    {
        self.take_answers(&batch.chapters, answers)?;
        Ok(self.verdict_at(batch.end))
    }
}
