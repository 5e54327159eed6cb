//! The summary of a chapter, and the totals of a recording.

ghost use Rattle.std.specs.Prelude.{IfSome};
ghost use Rattle.pon_look.specs.Summaries.{Adds, IsSummary};

use crate::counts::{admission_count, failure_count, map_count, removal_count, report_count};
use crate::frames::{first_frame, last_frame};
use pon_record::RawChapter;
use pon_units::{FrameNo, PortNo};

/// What a chapter holds.
#[derive(Clone, Copy, Debug, PartialEq, Eq)]
pub struct Summary {
    /// The port of the chapter, 0 to 63.
    pub port: PortNo,
    /// The number of the chapter, counted from 0 in its port.
    pub number: u64,
    /// The frame of its first map, of 125 µs; `None` without a map.
    pub first: Option<FrameNo>,
    /// The frame of its last map, of 125 µs; `None` without a map.
    pub last: Option<FrameNo>,
    /// The number of its maps.
    pub maps: u64,
    /// The number of its reports.
    pub reports: u64,
    /// The number of its failures of the line.
    pub failures: u64,
    /// The number of Alloc-IDs at its opening.
    pub allocs: u64,
    /// The number of Alloc-IDs at its end.
    pub allocs_end: u64,
}

/// Returns the summary of a chapter.
pub fn summary_of(chapter: &RawChapter) -> Summary
    ensures { IsSummary chapter.now.body result }
{
    let entries = chapter.entries.as_slice();
    let allocs = chapter.opening.rows.len() as u64;
    let admitted = allocs.saturating_add(admission_count(entries));
    Summary {
        port: chapter.port,
        number: chapter.number,
        first: first_frame(entries),
        last: last_frame(entries),
        maps: map_count(entries),
        reports: report_count(entries),
        failures: failure_count(entries),
        allocs,
        allocs_end: admitted.saturating_sub(removal_count(entries)),
    }
}

/// The totals of a recording.
#[derive(Clone, Copy, Debug, PartialEq, Eq)]
pub struct Totals {
    /// The number of its chapters.
    pub chapters: u64,
    /// The number of its maps.
    pub maps: u64,
    /// The number of its reports.
    pub reports: u64,
    /// The number of its failures of the line.
    pub failures: u64,
}

/// Returns the totals with one more chapter; `None` if a sum is 2^64 or more.
pub fn with_chapter(totals: Totals, summary: &Summary) -> Option<Totals>
    ensures { IfSome result (λ new. Adds totals new summary.now) }
{
    Some(Totals {
        chapters: totals.chapters.checked_add(1)?,
        maps: totals.maps.checked_add(summary.maps)?,
        reports: totals.reports.checked_add(summary.reports)?,
        failures: totals.failures.checked_add(summary.failures)?,
    })
}
