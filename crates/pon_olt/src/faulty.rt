//! What is said on standard error of a recording that is not good or not complete.

use crate::joining::RecordingFiles;
use crate::places::print_place;
use pon_audit::Verdict;
use pon_job::Failure;
use pon_look::{Contents, CountedBytes, Gap, fault_line};
use std::alloc::Global;
use std::fs;
use std::rt::Files;

// Returns whether a recording can be read again: a pipe cannot.
fn is_regular<R: Files>(rt: &R, recording: &RecordingFiles) -> bool {
    for name in recording.files() {
        match fs::metadata(rt, name.as_str()) {
            Ok(found) if found.is_file() => {}
            _ => return false,
        }
    }
    true
}

// Makes the line that explains the verdict on a recording, if it is in files and can be read again.
fn explained<R: Files>(
    rt: &R,
    alloc: Global,
    recording: &RecordingFiles,
    verdict: &Verdict,
) -> Result<Option<String>, Failure> {
    let mut reader = CountedBytes::new(recording.open(rt, alloc)?);
    Ok(fault_line(alloc, &mut reader, verdict)?)
}

/// Prints on standard error, indented, what is wrong in numbers with a recording, if it is not good, and in which of
/// several files.
pub(crate) fn print_fault<R: Files + Eprint>(
    rt: &R,
    alloc: Global,
    recording: &RecordingFiles,
    verdict: &Verdict,
) {
    if verdict.is_good() || !is_regular(rt, recording) {
        return;
    }
    if let Ok(Some(line)) = explained(rt, alloc, recording, verdict) {
        let _ = eprintln!(rt; "  {line}");
    }
    print_place(rt, recording, verdict);
}

// Returns the number of chapters that are missing, at most 2^64 - 1.
fn missing_chapters(gaps: &[Gap]) -> u64 {
    let mut count: u64 = 0;
    for gap in gaps {
        let chapters = gap.last.saturating_sub(gap.first).saturating_add(1);
        count = count.saturating_add(chapters);
    }
    count
}

/// Prints on standard error, indented, how many chapters the recording in the file `name` does not have.
pub(crate) fn print_missing(rt: &impl Eprint, name: &str, contents: &Contents) {
    let gaps = contents.gaps();
    if let Some(Gap { port, first, last }) = gaps.first() {
        let (count, places, port) = (missing_chapters(gaps), gaps.len(), port.get());
        let _ = eprintln!(rt;
            "  {name}: {count} chapters are missing in {places} gaps, the first of port {port}, chapters {first} to {last}"
        );
    }
}
