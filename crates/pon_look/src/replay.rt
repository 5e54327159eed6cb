//! The state along a chapter, entry by entry.

ghost use Rattle.std.specs.Prelude.{◌≡◌, ◌≤◌, IfOk, MatchOption, length};
ghost use Rattle.pon_admit.specs.Roster.{IsAdmitted};
ghost use Rattle.pon_demand.specs.Carries.{AreCarries};
ghost use Rattle.pon_demand.specs.Sharing.{IsCertified};
ghost use Rattle.pon_state.specs.State.{input_of};
ghost use Rattle.pon_history.specs.Taking.{IsKept};
ghost use Rattle.pon_record.specs.Openings.{KeepsLimits};
ghost use Rattle.pon_audit.specs.Openings.{FitsRecording, OpensLawfully, chapter_of, state_of};
ghost use Rattle.pon_history.specs.Chapters.{cut_at};
ghost use Rattle.pon_look.specs.Explanations.{Explains};
ghost use Rattle.pon_look.specs.Whys.{FailsBefore};

use pon_audit::{accepted_problems, open_state, take_entry};
use pon_cert::left_surplus;
use pon_demand::MapBuffers;
use pon_record::RawChapter;
use pon_state::{MadeMap, PortState};
use pon_why::{Explanation, explain};
use std::alloc::{AllocError, Global};

/// A state of a port, and memory for its next map.
#[derive(Drop)]
pub(crate) struct Replay {
    pub state: PortState,
    pub buffers: MapBuffers,
}

/// Opens the replay of a chapter; `None` if its opening is not lawful. `Err` only if memory is refused.
pub(crate) fn open_replay(alloc: Global, chapter: &RawChapter) -> Result<Option<Replay>, AllocError>
    requires { FitsRecording chapter.now.body }
    ensures { IfOk result (λ found. MatchOption found (OpensLawfully chapter.now.body → ⊥)
        (λ replay. OpensLawfully chapter.now.body
        × (replay.state ≡ state_of chapter.now.body.opening))) }
{
    match open_state(alloc, chapter.number, &chapter.opening)? {
        Some(state) => {
            let buffers = MapBuffers::open(alloc);
            Ok(Some(Replay { state, buffers }))
        }
        None => Ok(None),
    }
}

/// Replays a chapter up to the entry at `end`, from its opening. Returns the index of the first entry that may not
/// follow, or `None` if each before `end` does. `Err` only if memory is refused.
pub(crate) fn replay_to(
    alloc: Global,
    chapter: &RawChapter,
    replay: &mut Replay,
    end: usize,
) -> Result<Option<usize>, AllocError>
    requires fits { FitsRecording chapter.now.body }
    requires lawful { OpensLawfully chapter.now.body }
    requires opened { replay.old.state ≡ state_of chapter.now.body.opening }
    requires end { end ≤ length chapter.now.body.entries }
    ensures { IfOk result (λ found. MatchOption found
        (IsKept (cut_at (chapter_of chapter.now.body) end) replay.new.state)
        (FailsBefore (chapter_of chapter.now.body) end)) }
{
    for index in 0..end {
        let entry = &chapter.entries[index];
        let fault = take_entry(alloc, &mut replay.buffers, &mut replay.state, index, entry)?;
        match fault {
            Some(_) => return Ok(Some(index)),
            None => {}
        }
    }
    Ok(None)
}

/// What a map gives, with the numbers that it follows from.
#[derive(Drop)]
pub struct MapExplanation {
    /// The numbers of each admitted Alloc-ID, in map order.
    pub rows: Vec<Explanation>,
    /// The surplus that the non-assured class shares, in kbit/s.
    pub non_assured: u64,
    /// The surplus that the best-effort class shares, in kbit/s: what the non-assured class leaves.
    pub best_effort: u64,
}

/// Explains a map that is made from the state; `None` if its certificate is not that of the state. `Err` only if memory
/// is refused.
pub(crate) fn explain_map(
    alloc: Global,
    replay: &mut Replay,
    made: &MadeMap,
) -> Result<Option<MapExplanation>, AllocError>
    requires admitted { IsAdmitted replay.old.state.rule replay.old.state.gap replay.old.state.roster }
    requires carries { AreCarries replay.old.state.rule replay.old.state.roster replay.old.state.carries }
    ensures same { replay.new.state ≡ replay.old.state }
    ensures numbers { IfOk result (λ found. MatchOption found
        (IsCertified (input_of replay.old.state) made.now.cert → ⊥)
        (λ explained. Explains replay.old.state made.now.cert explained)) }
{
    let Replay { state, buffers } = replay;
    let Some(problems) = accepted_problems(alloc, buffers, state, &made.cert)? else {
        return Ok(None);
    };
    let rows = explain(alloc, state, problems.demands.as_slice(), &made.cert)?;
    let non_assured = problems.surplus;
    let best_effort = left_surplus(&made.cert.na.level, &problems.na.items, non_assured);
    buffers.keep_demands(problems.demands);
    Ok(Some(MapExplanation {
        rows,
        non_assured,
        best_effort,
    }))
}
