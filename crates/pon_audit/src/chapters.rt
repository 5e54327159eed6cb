//! The audit of one chapter, regardless of the chapters before it.

ghost use Rattle.std.specs.Prelude.{◌≡◌, IfOk, MatchOption};
ghost use Rattle.pon_history.specs.Taking.{IsKept};
ghost use Rattle.pon_audit.specs.Openings.{FitsRecording, OpensLawfully, chapter_of, state_of};
ghost use Rattle.pon_audit.specs.Faults.{FailsAt};
ghost use Rattle.pon_audit.specs.Judging.{IsJudgment};

use crate::entries::take_entry;
use crate::openings::open_state;
use crate::verdict::AuditReason;
use pon_demand::MapBuffers;
use pon_record::RawChapter;
use pon_state::PortState;
use std::alloc::{AllocError, Global};

/// The fault of a chapter.
#[derive(Clone, Copy, Debug, PartialEq, Eq)]
pub struct Fault {
    /// The index of the entry that fails, from 0; also 0 for a fault of the opening, the chain or the number.
    pub index: usize,
    /// Why the chapter fails.
    pub why: AuditReason,
}

impl Fault {
    /// The fault of a chapter before its first entry.
    pub fn at_start(why: AuditReason) -> Fault
        ensures { result ≡ record { index = 0; why = why } }
    {
        Fault { index: 0, why }
    }
}

/// The answer on one chapter, regardless of the chapters before it.
#[derive(Drop)]
pub enum Judged {
    /// The opening is not lawful.
    Unlawful,
    /// The opening is lawful, and an entry fails.
    Fails(Fault),
    /// The chapter is good, and this is the state at its end.
    Ends(PortState),
}

// Finds the first entry that fails, of a chapter that opens with this state. If none fails, the state is then that at
// the end of the chapter. `Err` only if memory is refused.
fn entry_fault(
    alloc: Global,
    chapter: &RawChapter,
    state: &mut PortState,
) -> Result<Option<Fault>, AllocError>
    requires fits { FitsRecording chapter.now.body }
    requires lawful { OpensLawfully chapter.now.body }
    requires opened { state.old ≡ state_of chapter.now.body.opening }
    ensures { IfOk result (λ found. MatchOption found
        (IsKept (chapter_of chapter.now.body) state.new)
        (λ f. FailsAt (chapter_of chapter.now.body) f.index f.why)) }
{
    let mut buffers = MapBuffers::open(alloc);
    for (index, entry) in chapter.entries.iter().enumerate() {
        if let Some(why) = take_entry(alloc, &mut buffers, state, index, entry)? {
            return Ok(Some(Fault { index, why }));
        }
    }
    Ok(None)
}

/// Judges a chapter regardless of those before it.
///
/// # Errors
///
/// `AllocError` only if memory is refused.
pub fn judge(alloc: Global, chapter: &RawChapter) -> Result<Judged, AllocError>
    requires { FitsRecording chapter.now.body }
    ensures { IfOk result (λ answer. IsJudgment chapter.now answer) }
{
    let mut state = match open_state(alloc, chapter.number, &chapter.opening)? {
        Some(state) => state,
        None => return Ok(Judged::Unlawful),
    };
    match entry_fault(alloc, chapter, &mut state)? {
        Some(fault) => Ok(Judged::Fails(fault)),
        None => Ok(Judged::Ends(state)),
    }
}
