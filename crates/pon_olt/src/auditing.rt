//! The audit of recordings in files.

use crate::faulty::{print_fault, print_missing};
use crate::joining::{RecordingFiles, asks_for_all};
use pon_audit::{KeptEnds, Verdict};
use pon_device::{DevWrite, DeviceFault, StdWrite, write_text};
use pon_job::{Audit, Failure};
use pon_look::{
    Contents, CountedBytes, Viewed, audit_contents, write_gaps, write_judged, write_verdict_line,
};
use std::alloc::Global;
use std::io;
use std::rt::Files;
use std::thread::Threads;

/// How recordings are audited, and whether one is alone.
#[derive(Clone, Copy)]
struct Auditor {
    json: bool,
    complete: bool,
    is_alone: bool,
}

/// A recording that was audited, and the number of its bytes up to its end or the first fault of its format.
#[derive(Drop)]
pub(crate) struct Audited {
    judged: Viewed<Contents>,
    bytes: u64,
}

/// Audits a recording, and keeps these ends of its chapters.
pub(crate) fn audit_keeping<R: Files + Threads + Sync>(
    rt: &R,
    alloc: Global,
    recording: &RecordingFiles,
    kept: KeptEnds,
) -> Result<Audited, Failure> {
    let mut reader = CountedBytes::new(recording.open(rt, alloc)?);
    match audit_contents(rt, alloc, kept, &mut reader) {
        Ok(judged) => {
            let bytes = reader.bytes();
            Ok(Audited { judged, bytes })
        }
        Err(fault) => Err(recording.failure(rt, alloc, fault)),
    }
}

// Audits a recording, in little memory if that suffices.
fn audit_recording<R: Files + Threads + Sync>(
    rt: &R,
    alloc: Global,
    recording: &RecordingFiles,
) -> Result<Audited, Failure> {
    let kept = recording.kept_at_first(rt);
    match audit_keeping(rt, alloc, recording, kept) {
        Ok(audited) => Ok(audited),
        Err(failure) if asks_for_all(kept, &failure) => {
            audit_keeping(rt, alloc, recording, KeptEnds::OfChapters)
        }
        Err(failure) => Err(failure),
    }
}

// Writes the verdict on a recording after the name of its file.
fn write_named<W: DevWrite>(
    alloc: Global,
    name: &str,
    verdict: &Verdict,
    writer: &mut W,
) -> Result<(), DeviceFault> {
    let line = format!(in alloc; "{name}: {verdict}\n")?;
    write_text(writer, line.as_bytes())
}

impl Auditor {
    // Writes the verdict on a recording: alone, after the name of its file, or as an object.
    fn write_verdict<W: DevWrite>(
        self,
        alloc: Global,
        name: &str,
        audited: &Audited,
        writer: &mut W,
    ) -> Result<(), DeviceFault> {
        let judged = &audited.judged;
        if self.json {
            return write_judged(alloc, name, judged, audited.bytes, writer);
        }
        if self.is_alone {
            write_verdict_line(alloc, &judged.verdict, writer)?;
            return Ok(());
        }
        write_named(alloc, name, &judged.verdict, writer)
    }

    // Writes what a recording does not have: a line for each gap, or one on standard error.
    fn write_missing<R: Eprint, W: DevWrite>(
        self,
        rt: &R,
        alloc: Global,
        name: &str,
        contents: &Contents,
        writer: &mut W,
    ) -> Result<(), DeviceFault> {
        if self.json {
            return Ok(());
        }
        if self.complete {
            let file = if self.is_alone { None } else { Some(name) };
            return write_gaps(alloc, file, contents, writer);
        }
        print_missing(rt, name, contents);
        Ok(())
    }

    // Returns whether a recording is good, and complete if it has to be.
    fn accepts(self, judged: &Viewed<Contents>) -> bool {
        let is_enough = !self.complete || judged.shown.is_complete();
        judged.verdict.is_good() && is_enough
    }

    // Audits a recording, and prints the verdict and what it does not have. Returns whether it is accepted.
    fn audit<R: Files + Print + Eprint + Threads + Sync>(
        self,
        rt: &R,
        alloc: Global,
        recording: &RecordingFiles,
    ) -> Result<bool, Failure> {
        let name = recording.name();
        let audited = audit_recording(rt, alloc, recording)?;
        let mut writer = StdWrite::new(io::writer(rt));
        self.write_verdict(alloc, name, &audited, &mut writer)?;
        let judged = &audited.judged;
        self.write_missing(rt, alloc, name, &judged.shown, &mut writer)?;
        print_fault(rt, alloc, recording, &judged.verdict);
        Ok(self.accepts(judged))
    }
}

// Audits recordings one after another. One that cannot be read is named on standard error, and the others are audited.
// Returns the failure of the last such file.
fn audit_each<R: Files + Print + Eprint + Threads + Sync>(
    rt: &R,
    alloc: Global,
    names: &[&str],
    auditor: Auditor,
) -> Result<bool, Failure> {
    let mut are_good = true;
    let mut unread: Option<Failure> = None;
    for name in names {
        match auditor.audit(rt, alloc, &RecordingFiles::in_file(alloc, name)?) {
            Ok(is_good) => are_good = are_good && is_good,
            Err(failure) => {
                if let Some(before) = unread {
                    before.print(rt);
                }
                if failure.fault != DeviceFault::Read {
                    return Err(failure);
                }
                unread = Some(failure);
            }
        }
    }
    match unread {
        Some(failure) => Err(failure),
        None => Ok(are_good),
    }
}

/// Audits recordings, and prints the verdicts: of one file the verdict alone, of several a line each that begins with the
/// file, and with `json` an object each. Chapters that are missing have a line each after that with `complete`, and one
/// line on standard error without. Returns `true` if each recording is good, and also complete with `complete`; `Read` if a
/// file cannot be read. Files that are joined have the verdict of one file.
pub(crate) fn audit_files<R: Files + Print + Eprint + Threads + Sync>(
    rt: &R,
    alloc: Global,
    audit: &Audit<'_>,
) -> Result<bool, Failure> {
    let auditor = Auditor {
        json: audit.json,
        complete: audit.complete,
        is_alone: audit.joined || audit.files.len() == 1,
    };
    if audit.joined {
        return auditor.audit(
            rt,
            alloc,
            &RecordingFiles::in_files(rt, alloc, &audit.files)?,
        );
    }
    audit_each(rt, alloc, &audit.files, auditor)
}
