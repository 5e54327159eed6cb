//! The sums over a recording, which is judged by the way.

ghost use Rattle.std.specs.Prelude.{◌≡◌, All, IfOk, map};
ghost use Rattle.std.specs.List.{AllZip};
ghost use Rattle.pon_audit.specs.Openings.{FitsRecording};
ghost use Rattle.pon_audit.specs.Judging.{IsJudgment};
ghost use Rattle.pon_audit.specs.Streams.{IsVerdictOf, TellsFailure};

use crate::counts::map_count;
use crate::port_tallies::PortTallies;
use crate::tally::{Summed, Tally, tally_chapter};
use crate::viewed::Viewed;
use crate::wanted::Wanted;
use pon_audit::{Auditing, Judged, KeptEnds, PARALLEL_MAPS, judge};
use pon_device::{DevRead, DeviceFault};
use pon_record::RawChapter;
use rayon::prelude::*;
use std::alloc::{AllocError, Global};
use std::thread::Threads;

// The answer on a chapter, regardless of those before it, and its sums if they are wanted.
#[derive(Drop)]
struct Part {
    judged: Judged,
    tally: Option<Tally>,
}

// Judges a chapter, and sums it up by itself if it is wanted.
fn part_of(alloc: Global, chapter: &RawChapter, wanted: &Wanted) -> Result<Part, AllocError>
    requires { FitsRecording chapter.now.body }
    ensures { IfOk result (λ part. IsJudgment chapter.now part.judged) }
{
    if !wanted.has(chapter.port) {
        let judged = judge(alloc, chapter)?;
        return Ok(Part {
            judged,
            tally: None,
        });
    }
    let mut tally = Tally::new(alloc, wanted.followed)?;
    let Summed { judged, .. } = tally_chapter(alloc, chapter, &wanted.range, &mut tally)?;
    Ok(Part {
        judged,
        tally: Some(tally),
    })
}

// Judges each chapter, and sums it up by itself if it is wanted, in as many threads as there are processors.
fn parts_of(
    rt: &(impl Threads + Sync),
    alloc: Global,
    chapters: &[RawChapter],
    wanted: &Wanted,
) -> Result<Vec<Part>, AllocError>
    requires { All (λ c. FitsRecording c.body) chapters.now }
    ensures { IfOk result (λ parts. AllZip (λ c p. IsJudgment c p.judged) chapters.now parts.items) }
{
    let wanted = *wanted;
    chapters
        .par_iter()
        .with_min_len(1)
        .map(
            |chapter: &RawChapter| -> Result<Part, AllocError>
                requires { FitsRecording chapter.now.body }
                ensures { IfOk result (λ part. IsJudgment chapter.now part.judged) }
            { part_of(alloc, chapter, &wanted) },
        )
        .collect::<Result<Vec<Part>, AllocError>>(rt, alloc)?
}

// Adds the sums of chapters to the tallies of their ports, in their order.
fn add_parts(
    alloc: Global,
    tallies: &mut PortTallies,
    chapters: &[RawChapter],
    parts: &[Part],
) -> Result<(), AllocError> {
    for (chapter, part) in chapters.iter().zip(parts) {
        if let Some(tally) = &part.tally {
            tallies.before(alloc, chapter)?.add_all(tally)?;
            tallies.note_judged(alloc, chapter, &part.judged)?;
        }
    }
    Ok(())
}

// Returns the answers of parts.
fn answers_of(alloc: Global, parts: Vec<Part>) -> Result<Vec<Judged>, AllocError>
    ensures { IfOk result (λ answers. answers.items ≡ map (λ p. p.judged) parts.items) }
{
    let mut answers = Vec::new(alloc);
    for part in parts {
        answers.push(part.judged)?;
    }
    Ok(answers)
}

// Judges each chapter, and adds it to the tally of its port if it is wanted, in as many threads as there are processors.
fn add_in_threads(
    rt: &(impl Threads + Sync),
    alloc: Global,
    tallies: &mut PortTallies,
    chapters: &[RawChapter],
    wanted: &Wanted,
) -> Result<Vec<Judged>, AllocError>
    requires { All (λ c. FitsRecording c.body) chapters.now }
    ensures { IfOk result (λ answers. AllZip IsJudgment chapters.now answers.items) }
{
    let parts = parts_of(rt, alloc, chapters, wanted)?;
    add_parts(alloc, tallies, chapters, &parts)?;
    let answers = answers_of(alloc, parts)?;
    Ok(answers)
}

// Judges a chapter, and adds it to the tally of its port if it is wanted.
fn add_chapter(
    alloc: Global,
    tallies: &mut PortTallies,
    chapter: &RawChapter,
    wanted: &Wanted,
) -> Result<Judged, AllocError>
    requires { FitsRecording chapter.now.body }
    ensures { IfOk result (IsJudgment chapter.now) }
{
    if !wanted.has(chapter.port) {
        return judge(alloc, chapter);
    }
    let tally = tallies.before(alloc, chapter)?;
    let Summed { judged, .. } = tally_chapter(alloc, chapter, &wanted.range, tally)?;
    tallies.note_judged(alloc, chapter, &judged)?;
    Ok(judged)
}

// Judges each chapter, and adds it to the tally of its port if it is wanted, one after another.
fn add_in_order(
    alloc: Global,
    tallies: &mut PortTallies,
    chapters: &[RawChapter],
    wanted: &Wanted,
) -> Result<Vec<Judged>, AllocError>
    requires { All (λ c. FitsRecording c.body) chapters.now }
    ensures { IfOk result (λ answers. AllZip IsJudgment chapters.now answers.items) }
{
    let mut answers = Vec::new(alloc);
    for chapter in chapters {
        answers.push(add_chapter(alloc, tallies, chapter, wanted)?)?;
    }
    Ok(answers)
}

// Returns the number of maps of chapters, at most 2^64 - 1.
fn maps_of(chapters: &[RawChapter]) -> u64 {
    let mut maps: u64 = 0;
    for chapter in chapters {
        maps = maps.saturating_add(map_count(&chapter.entries));
    }
    maps
}

/// Judges the next chapters, and adds those that are wanted to the tallies of their ports, one after another.
pub(crate) fn add_batch_in_order(
    alloc: Global,
    tallies: &mut PortTallies,
    chapters: &[RawChapter],
    wanted: &Wanted,
) -> Result<Vec<Judged>, AllocError>
    requires { All (λ c. FitsRecording c.body) chapters.now }
    ensures { IfOk result (λ answers. AllZip IsJudgment chapters.now answers.items) }
{
    for chapter in chapters {
        tallies.see(chapter.port);
    }
    let answers = add_in_order(alloc, tallies, chapters, wanted)?;
    tallies.add_followed()?;
    Ok(answers)
}

// Judges the next chapters, and adds those that are wanted to the tallies of their ports: in as many threads as there are
// processors where `pon_audit` would judge them so.
fn add_batch(
    rt: &(impl Threads + Sync),
    alloc: Global,
    tallies: &mut PortTallies,
    chapters: &[RawChapter],
    wanted: &Wanted,
) -> Result<Vec<Judged>, AllocError>
    requires { All (λ c. FitsRecording c.body) chapters.now }
    ensures { IfOk result (λ answers. AllZip IsJudgment chapters.now answers.items) }
{
    if chapters.len() < 2 || maps_of(chapters) < PARALLEL_MAPS {
        return add_batch_in_order(alloc, tallies, chapters, wanted);
    }
    for chapter in chapters {
        tallies.see(chapter.port);
    }
    let answers = add_in_threads(rt, alloc, tallies, chapters, wanted)?;
    tallies.add_followed()?;
    Ok(answers)
}

/// Sums up the wanted maps of a recording, up to its end or the first fault of its format, and judges it by the way. Returns
/// the verdict of the audit, and the tallies.
///
/// `Read` exactly when the reader fails, `Memory` if memory is refused, a sum is 2^64 or more, or
/// the ends that the audit keeps do not suffice.
pub(crate) fn sum_up<R: DevRead>(
    rt: &(impl Threads + Sync),
    alloc: Global,
    kept: KeptEnds,
    reader: &mut R,
    wanted: &Wanted,
) -> Result<Viewed<PortTallies>, DeviceFault>
    ensures verdict { IfOk result (λ viewed. IsVerdictOf (R.remaining reader.old) viewed.verdict) }
    ensures read { TellsFailure (R.failures reader.old) (R.failures reader.new) result }
{
    let mut shown = PortTallies::new(alloc, wanted.followed);
    let mut auditing = match Auditing::open(alloc, kept, reader)? {
        Ok(auditing) => auditing,
        Err(verdict) => return Ok(Viewed { verdict, shown }),
    };
    for _batch in 0..u64::MAX {
        let batch = auditing.read(alloc, reader)?;
        let answers = match add_batch(rt, alloc, &mut shown, &batch.chapters, wanted) {
            Ok(answers) => answers,
            Err(_) => return Err(DeviceFault::Memory),
        };
        match auditing.place(&batch, answers)? {
            Some(verdict) => return Ok(Viewed { verdict, shown }),
            None => {}
        }
    }
    Err(DeviceFault::Memory)
}
