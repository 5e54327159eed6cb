//! The verdict on a recording, one chapter after another.

ghost use Rattle.std.specs.Prelude.{◌≡◌, ◌≢◌, IfOk, string_bytes};
ghost use Rattle.pon_audit.specs.Answers.{verdict_line};
ghost use Rattle.pon_web.specs.Handing.{HandsNothing};
ghost use Rattle.pon_web.specs.Judging.{TellsVerdict};
ghost use Rattle.pon_web.specs.declared.status.TheConstants.{MEMORY};

use crate::handing::hand_out;
use crate::status::{BAD, GOOD, MEMORY};
use pon_audit::{Verdict, audit_in_order};
use std::alloc::{AllocError, Global};

// Makes the line of a verdict. `Err` only if memory is refused.
fn line_of(alloc: Global, verdict: &Verdict) -> Result<String, AllocError>
    ensures { IfOk result (λ line. string_bytes line ≡ verdict_line verdict.now) }
{
    let verdict = *verdict;
    format!(in alloc; "{verdict}\n")
}

/// Judges a recording of either version, or the first bytes of one. The answer is the line that `olt audit` prints first.
/// Returns `GOOD` exactly if the line says so, `BAD` for any other verdict, or `MEMORY`.
#[unsafe(no_mangle)]
pub extern "C" fn pon_web_verdict(
    alloc: Global,
    recording: &[u8],
    room: &mut [u8],
    length: &mut usize,
) -> u8
    ensures told { result ≢ MEMORY → TellsVerdict recording.now result room.old room.new length.new }
    ensures memory { result ≡ MEMORY → HandsNothing room.old room.new length.old length.new }
{
    let Ok(verdict) = audit_in_order(alloc, recording) else {
        return MEMORY;
    };
    let Ok(line) = line_of(alloc, &verdict) else {
        return MEMORY;
    };
    hand_out(line.as_bytes(), room, length);
    if verdict.is_good() { GOOD } else { BAD }
}
