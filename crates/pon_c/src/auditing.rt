// The audit of a recording in memory, with no thread but the caller's.
ghost use Rattle.std.specs.Prelude.{◌≡◌, ◌≢◌};
ghost use Rattle.pon_c.specs.Audits.{TellsVerdict, reason_number, verdict_info};

use crate::numbers::OUT_OF_MEMORY;
use pon_audit::{AuditReason, Verdict, audit_in_order};
use std::alloc::Global;

/// The verdict on a recording: 0 good, 1 bad, 2 malformed, 3 cut short.
#[repr(C)]
#[derive(Drop)]
pub struct VerdictInfo {
    /// The maps of a good recording, otherwise 0.
    pub maps: u64,
    /// The number of the chapter that fails, if bad.
    pub chapter: u64,
    /// The index of the entry that fails, if bad; the place of the chapter, if malformed or cut short.
    pub place: usize,
    /// The verdict.
    pub verdict: u8,
    /// The port of the chapter that fails, if bad.
    pub port: u8,
    /// Why it fails, if bad: 1 opening, 2 chain, 3 number, 4 event, 5 certificate, 6 words, 7 bursts.
    pub why: u8,
}

fn reason_number(why: &AuditReason) -> u8
    ensures { result ≡ reason_number why.now }
{
    match *why {
        AuditReason::Opening => 1,
        AuditReason::Chain => 2,
        AuditReason::Number => 3,
        AuditReason::Event => 4,
        AuditReason::Certificate => 5,
        AuditReason::Words => 6,
        AuditReason::Bursts => 7,
    }
}

// Makes the verdict that C gets of its numbers.
fn info(verdict: u8, maps: u64, place: usize) -> VerdictInfo
    ensures { result ≡ record {
      maps = maps;
      chapter = 0;
      place = place;
      verdict = verdict;
      port = 0;
      why = 0;
    } }
{
    VerdictInfo {
        maps,
        chapter: 0,
        place,
        verdict,
        port: 0,
        why: 0,
    }
}

/// Makes the verdict that C gets.
pub(crate) fn verdict_info(verdict: &Verdict) -> VerdictInfo
    ensures { result ≡ verdict_info verdict.now }
{
    match *verdict {
        Verdict::Good { maps } => info(0, maps, 0),
        Verdict::Bad {
            port,
            chapter,
            index,
            why,
        } => VerdictInfo {
            maps: 0,
            chapter,
            place: index,
            verdict: 1,
            port: port.get(),
            why: reason_number(&why),
        },
        Verdict::BadFormat { at } => info(2, 0, at),
        Verdict::Truncated { at } => info(3, 0, at),
    }
}

/// Audits a recording of either version, as `olt audit` does. Returns 0, or `OUT_OF_MEMORY`.
#[unsafe(no_mangle)]
pub extern "C" fn sez_audit(alloc: Global, bytes: &[u8], verdict: &mut VerdictInfo) -> u32
    ensures ok { result ≡ 0 → TellsVerdict bytes.now verdict.new }
    ensures err { result ≢ 0 → result ≡ OUT_OF_MEMORY }
{
    match audit_in_order(alloc, bytes) {
        Ok(found) => {
            *verdict = verdict_info(&found);
            0
        }
        Err(_) => OUT_OF_MEMORY,
    }
}
