//! The numbers of a list of entries.

ghost use Rattle.std.specs.Prelude.{◌≡◌};
ghost use Rattle.pon_look.specs.Counts.{admission_count, cause_count, failure_count, map_count, removal_count, report_count};

use pon_admit::Event;
use pon_state::{Entry, EntryRef};

/// Returns the number of maps.
pub fn map_count(entries: &[Entry]) -> u64
    ensures { result ≡ map_count entries.now }
{
    entries.iter().filter(|e| e.makes_map()).count() as u64
}

// Returns whether an entry is a report.
fn is_report(entry: &Entry) -> bool
    ensures { result ≡ Rattle.pon_look.specs.Counts.is_report entry.now.event }
{
    matches!(entry.as_ref(), EntryRef::Taken(Event::Report { .. }))
}

/// Returns the number of reports.
pub fn report_count(entries: &[Entry]) -> u64
    ensures { result ≡ report_count entries.now }
{
    entries.iter().filter(|e| is_report(e)).count() as u64
}

// Returns whether an entry is an admission.
fn is_admission(entry: &Entry) -> bool
    ensures { result ≡ Rattle.pon_look.specs.Counts.is_admission entry.now.event }
{
    matches!(entry.as_ref(), EntryRef::Taken(Event::Admit(_)))
}

/// Returns the number of admissions of an Alloc-ID.
pub fn admission_count(entries: &[Entry]) -> u64
    ensures { result ≡ admission_count entries.now }
{
    entries.iter().filter(|e| is_admission(e)).count() as u64
}

// Returns whether an entry is a removal.
fn is_removal(entry: &Entry) -> bool
    ensures { result ≡ Rattle.pon_look.specs.Counts.is_removal entry.now.event }
{
    matches!(entry.as_ref(), EntryRef::Taken(Event::Remove { .. }))
}

/// Returns the number of removals of an Alloc-ID.
pub fn removal_count(entries: &[Entry]) -> u64
    ensures { result ≡ removal_count entries.now }
{
    entries.iter().filter(|e| is_removal(e)).count() as u64
}

// Returns whether an entry is a failure.
fn is_failure(entry: &Entry) -> bool
    ensures { result ≡ Rattle.pon_look.specs.Counts.is_failure entry.now.event }
{
    matches!(entry.as_ref(), EntryRef::Taken(Event::Fail { .. }))
}

/// Returns the number of failures of the line.
pub fn failure_count(entries: &[Entry]) -> u64
    ensures { result ≡ failure_count entries.now }
{
    entries.iter().filter(|e| is_failure(e)).count() as u64
}

// Returns whether an entry is a failure with this cause.
fn fails_by(number: u8, entry: &Entry) -> bool
    ensures { result ≡ Rattle.pon_look.specs.Counts.fails_by number entry.now.event }
{
    match entry.as_ref() {
        EntryRef::Taken(Event::Fail { cause }) => cause.get() == number,
        _ => false,
    }
}

/// Returns the number of failures with the cause of this number, 1 to 9.
pub fn cause_count(number: u8, entries: &[Entry]) -> u64
    ensures { result ≡ cause_count number entries.now }
{
    entries.iter().filter(|e| fails_by(number, e)).count() as u64
}
