//! The state before an entry of a kept chapter: the entries before it are taken again, from the opening on.

ghost use Rattle.std.specs.Prelude.{◌≡◌, ◌+◌, ◌<◌, ◌≤◌, ◌^◌, ℕ, IfOk, OnOk, length};
ghost use Rattle.pon_admit.specs.Roster.{IsAdmitted};
ghost use Rattle.pon_demand.specs.Carries.{AreCarries};
ghost use Rattle.pon_guar.specs.Window.{AreConsecutive};
ghost use Rattle.pon_state.specs.Accounts.{AccountsFor};
ghost use Rattle.pon_state.specs.After.{after_entry, after_map};
ghost use Rattle.pon_state.specs.Carries.{carries_left};
ghost use Rattle.pon_state.specs.Legal.{IsMade, MayFollow};
ghost use Rattle.pon_state.specs.Maps.{grants_in_map};
ghost use Rattle.pon_history.specs.Chapters.{IsLawfulChapter, cut_at};
ghost use Rattle.pon_history.specs.Taking.{IsKept};
ghost use Rattle.pon_why.specs.Lasts.{chapter_with};

use pon_demand::MapBuffers;
use pon_state::{
    Entry, EntryRef, MadeMap, MapUnder, PortState, Reply, add_map, check, map_under, next_problems,
    step,
};
use std::alloc::{AllocError, Global};

// Applies a map that the state makes: the map of its certificate is made again. `buffers` is memory for its demands and
// grants. `Err` only if memory is refused.
fn retake_map(
    alloc: Global,
    buffers: &mut MapBuffers,
    state: &mut PortState,
    made: &MadeMap,
) -> Result<(), AllocError>
    requires made { IsMade state.old made.now }
    requires admitted { IsAdmitted state.old.rule state.old.gap state.old.roster }
    requires carries { AreCarries state.old.rule state.old.roster state.old.carries }
    requires frames { AreConsecutive state.old.next state.old.window }
    requires next { state.old.next + 1 < 2 ^ 64 }
    requires count { state.old.taken_before + 1 < 2 ^ 64 }
    ensures { OnOk result (state.new ≡ after_map state.old (grants_in_map state.old.roster made.now.map)
        (carries_left state.old (Reply.Map made.now))) }
{
    let problems = next_problems(alloc, buffers, state)?;
    let MapUnder {
        map: _,
        grants,
        carries,
    } = map_under(alloc, buffers, state, &problems, &made.cert)?;
    buffers.keep_demands(problems.demands);
    buffers.keep_grants(add_map(state, grants, carries)?);
    Ok(())
}

// Applies an entry that may follow `kept` entries of its chapter. `buffers` is memory for the demands and grants of a map.
// `Err` only if memory is refused.
fn retake(
    alloc: Global,
    buffers: &mut MapBuffers,
    state: &mut PortState,
    kept: usize,
    entry: &Entry,
) -> Result<(), AllocError>
    requires follows { MayFollow kept state.old entry.now }
    requires admitted { IsAdmitted state.old.rule state.old.gap state.old.roster }
    requires carries { AreCarries state.old.rule state.old.roster state.old.carries }
    requires book { AccountsFor state.old.roster state.old.book }
    requires frames { AreConsecutive state.old.next state.old.window }
    ensures { OnOk result (state.new ≡ after_entry state.old entry.now) }
{
    match entry.as_ref() {
        EntryRef::Map(made) => retake_map(alloc, buffers, state, made),
        EntryRef::Taken(event) => {
            let Ok(checked) = check(state, kept, event) else {
                unreachable!()
            };
            step(state, &checked)
        }
    }
}

/// Makes the state before the entry at an index of a lawful chapter: the replay of the entries before it. `Err` only if
/// memory is refused.
pub(crate) fn state_before(
    alloc: Global,
    opening: &PortState,
    entries: &[Entry],
    end: usize,
) -> Result<PortState, AllocError>
    requires lawful { (number : ℕ) × IsLawfulChapter (chapter_with number opening.now entries.now) }
    requires end { end ≤ length entries.now }
    ensures { IfOk result (λ state. (number : ℕ)
        × IsLawfulChapter (chapter_with number opening.now entries.now)
        × IsKept (cut_at (chapter_with number opening.now entries.now) end) state) }
{
    let mut buffers = MapBuffers::open(alloc);
    let mut state = opening.try_copy(alloc)?;
    for index in 0..end {
        retake(alloc, &mut buffers, &mut state, index, &entries[index])?;
    }
    Ok(state)
}
