//! What the maps of a chapter add up to.

ghost use Rattle.std.specs.Prelude.{ℕ, ◌≡◌, ◌+◌, ◌<◌, ◌^◌, ◌↔◌, ◌==◌, [], Some, IfOk, IfNone, IsTrue, OnOk, if◌then◌else◌, length, map};
ghost use Rattle.pon_admit.specs.Roster.{IsAdmitted};
ghost use Rattle.pon_guar.specs.Window.{AreConsecutive};
ghost use Rattle.pon_demand.specs.Carries.{AreCarries};
ghost use Rattle.pon_demand.specs.Problems.{AreProblems};
ghost use Rattle.pon_demand.specs.Sharing.{IsCertified};
ghost use Rattle.pon_state.specs.State.{input_of};
ghost use Rattle.pon_state.specs.Accounts.{AccountsFor};
ghost use Rattle.pon_state.specs.Legal.{IsMade};
ghost use Rattle.pon_record.specs.Chapters.{reply_to};
ghost use Rattle.pon_audit.specs.Openings.{FitsRecording, chapter_of};
ghost use Rattle.pon_audit.specs.Faults.{map_entry};
ghost use Rattle.pon_audit.specs.Judging.{IsJudgment};
ghost use Rattle.pon_audit.specs.declared.chapters.Judged.TheVariants.{Fails};
ghost use Rattle.pon_why.specs.Rates.{rates_of};
ghost use Rattle.pon_why.specs.Sums.{amounts_in, no_sums, plus};
ghost use Rattle.pon_sold.specs.Chapters.{after_map, after_event, begun, watch_over, where_carried};
ghost use Rattle.pon_sold.specs.Watches.{after_rows, joined, nothing};
ghost use Rattle.pon_look.specs.Sums.{sums_of};
ghost use Rattle.pon_look.specs.Tallies.{IsTallied, IsWatched, refused_at, tally_sums, tally_watch};

use crate::frame_range::FrameRange;
use crate::replay::{Replay, open_replay};
use pon_admit::{Event, Roster, Rule};
use pon_audit::{AuditReason, Fault, Judged, accepted_problems, take_entry, take_map};
use pon_bwmap::Alloc;
use pon_demand::{Demand, Problems};
use pon_record::RawChapter;
use pon_sold::{Sold, Watches};
use pon_state::{Entry, EntryRef, MadeMap, PortState};
use pon_sure::{Sure, sure_of};
use pon_units::{AllocId, FrameNo};
use pon_why::{AllocTallies, Change, Changes, Followed, RowRates, Sums, rates_under};
use std::alloc::{AllocError, Global};
use std::mem;

/// What maps of a port add up to for each Alloc-ID, what was sold to it and what it got of that, the changes of ONU or
/// descriptor, and the maps of the Alloc-ID that is followed, if one is.
#[derive(Drop)]
pub struct Tally {
    allocs: AllocTallies,
    watches: Watches,
    changes: Changes,
    // The roster at the last map.
    roster: Option<Roster>,
    followed: Option<Followed>,
    // Whether the rows of the next map are those of the last one.
    are_rows_noted: bool,
    // Memory for the rates of a map.
    rates: Vec<RowRates>,
}

impl Tally {
    /// Makes the tally of no maps. `Err` only if memory is refused.
    pub(crate) fn new(alloc: Global, followed: Option<AllocId>) -> Result<Tally, AllocError>
        ensures sums { IfOk result (λ tally. (i : ℕ) → tally_sums tally i ≡ no_sums) }
        ensures sold { IfOk result (λ tally. (i : ℕ) → tally_watch tally i ≡ nothing) }
    {
        Ok(Tally {
            allocs: AllocTallies::new(alloc)?,
            watches: Watches::new(alloc)?,
            changes: Changes::new(alloc)?,
            roster: None,
            followed: followed.map(|alloc_id| Followed::new(alloc, alloc_id)),
            are_rows_noted: false,
            rates: Vec::new(alloc),
        })
    }

    /// The changes of ONU or descriptor, in the order of the maps.
    pub(crate) fn changes(&self) -> &[Change] {
        self.changes.as_slice()
    }

    /// The sums of an Alloc-ID, and the length of the longest run of maps of consecutive frames that granted it
    /// nothing.
    pub(crate) fn of(&self, alloc_id: AllocId) -> (Sums, u64)
        ensures { result.0 ≡ tally_sums self.now alloc_id }
    {
        self.allocs.of(alloc_id)
    }

    /// What was sold to an Alloc-ID, and what it got of it.
    pub(crate) fn sold_to(&self, alloc_id: AllocId) -> Sold
        ensures { result ≡ (tally_watch self.now alloc_id).sold }
    {
        self.watches.of(alloc_id)
    }

    /// What is sure for an Alloc-ID by the roster at the last map, under the rule that carries what whole words leave. `None`
    /// if it is not in that roster.
    pub(crate) fn sure_for(&self, alloc_id: AllocId) -> Option<Sure> {
        let roster = self.roster.as_ref()?;
        match roster.rule() {
            Rule::CarryRemainders => sure_of(roster, alloc_id),
            Rule::DropRemainders => None,
        }
    }

    /// The maps of the Alloc-ID that is followed.
    pub(crate) fn followed_mut(&mut self) -> Option<&mut Followed> {
        self.followed.as_mut()
    }

    /// Adds the tally of later chapters of the port. `Err` if memory is refused or a sum is 2^64 or more.
    pub(crate) fn add_all(&mut self, others: &Tally) -> Result<(), AllocError>
        ensures sums { OnOk result ((i : ℕ) → tally_sums self.new i
            ≡ plus (tally_sums self.old i) (tally_sums others.now i)) }
        ensures sold { OnOk result ((i : ℕ) → tally_watch self.new i
            ≡ joined (tally_watch self.old i) (tally_watch others.now i)) }
    {
        self.allocs.add_all(&others.allocs)?;
        self.watches.add_all(&others.watches)?;
        self.changes.note_all(&others.changes)?;
        if let Some(roster) = &others.roster {
            self.roster = Some(roster.try_copy(*self.rates.allocator())?);
        }
        match (&mut self.followed, &others.followed) {
            (Some(followed), Some(others)) => followed.add_all(others),
            _ => Ok(()),
        }
    }

    /// The chapter with a number is added next, after one with the number `before`, if there is one. It goes on with the
    /// runs of maps if its number is the next one.
    pub(crate) fn go_on(&mut self, before: Option<u64>, number: u64)
        ensures sums { self.new.allocs ≡ self.old.allocs }
        ensures sold { (i : ℕ) → tally_watch self.new i
            ≡ begun before number (tally_watch self.old i) }
    {
        let goes_on = match before {
            Some(before) => is_next(before, number),
            None => false,
        };
        if !goes_on {
            self.watches.stop();
        }
    }

    // After an admission, a change or a removal the rows of the next map are others than those of the last one; an
    // admission begins a run of maps, and a removal ends it.
    fn note_event(&mut self, event: &Event)
        ensures sums { self.new.allocs ≡ self.old.allocs }
        ensures sold { (i : ℕ) → tally_watch self.new i
            ≡ after_event i event.now (tally_watch self.old i) }
    {
        match event {
            Event::Admit(row) => {
                self.are_rows_noted = false;
                self.watches.restart_at(row.alloc_id);
            }
            Event::Remove { alloc_id } => {
                self.are_rows_noted = false;
                self.watches.restart_at(*alloc_id);
            }
            Event::Change { .. } => {
                self.are_rows_noted = false;
            }
            Event::Report { .. } | Event::MakeMap | Event::Fail { .. } | Event::Restore => {}
        }
    }

    // Adds what a map sold and granted, under the rule that carries what whole words leave.
    fn add_sold(
        &mut self,
        roster: &Roster,
        rates: &[RowRates],
        structures: &[Alloc],
    ) -> Result<(), AllocError>
        requires rates { length rates.now ≡ length roster.now.rows }
        requires structures { length structures.now ≡ length roster.now.rows }
        ensures sums { self.new.allocs ≡ self.old.allocs }
        ensures sold { OnOk result ((i : ℕ) → tally_watch self.new i
            ≡ where_carried roster.now.rule (after_rows i roster.now.rows rates.now structures.now
            (tally_watch self.old i)) (tally_watch self.old i)) }
    {
        match roster.rule() {
            Rule::CarryRemainders => self.watches.add_map(roster.rows(), rates, structures),
            Rule::DropRemainders => Ok(()),
        }
    }

    // Notes the roster and the weights of its rows at the map of a frame.
    fn note_rows(
        &mut self,
        frame: FrameNo,
        roster: &Roster,
        demands: &[Demand],
    ) -> Result<(), AllocError>
        ensures sums { self.new.allocs ≡ self.old.allocs }
        ensures sold { self.new.watches ≡ self.old.watches }
    {
        self.roster = Some(roster.try_copy(*self.rates.allocator())?);
        for (row, demand) in roster.rows().iter().zip(demands) {
            self.changes.note(&Change {
                frame,
                row: *row,
                weight: demand.item.weight,
            })?;
        }
        self.are_rows_noted = true;
        Ok(())
    }
}

// Returns whether a number of a chapter is the next one after that of another.
fn is_next(before: u64, number: u64) -> bool
    ensures { result ≡ (number == before + 1) }
{
    before < number && number - before == 1
}

/// What became of an entry.
#[derive(Clone, Copy)]
pub enum Tallied {
    /// It may follow, and it is in the sums.
    Follows,
    /// It may not follow, and why. `added` says whether it is in the sums.
    Stops { why: AuditReason, added: bool },
}

/// How far a chapter was summed up.
#[derive(Drop)]
pub struct Summed {
    /// The number of entries in the sums.
    pub entries: usize,
    /// The answer on the chapter, regardless of the chapters before it.
    pub judged: Judged,
}

/// Returns the index of the entry that may not follow, 0 also if the opening is not lawful; `None` if the chapter is
/// good.
pub fn refused_entry(judged: &Judged) -> Option<usize>
    ensures { result ≡ refused_at judged.now }
{
    match judged {
        Judged::Unlawful => Some(0),
        Judged::Fails(fault) => Some(fault.index),
        Judged::Ends(_) => None,
    }
}

// Returns whether a map has the Alloc-IDs of the rows, in their order.
fn lists_rows(rows: &[RowRates], structures: &[Alloc]) -> bool
    ensures { IsTrue result ↔ (map (λ x. x.alloc_id) rows.now
        ≡ map (λ a. a.id) structures.now) }
{
    if rows.len() != structures.len() {
        return false;
    }
    for place in 0..rows.len() {
        if rows[place].alloc_id.get() != structures[place].id() {
            return false;
        }
    }
    true
}

// Adds a map to the sums, if it has the Alloc-IDs of the state, whose class problems accept its certificate. Returns
// whether it is added. `Err` if memory is refused or a sum is 2^64 or more.
fn tally_map(
    alloc: Global,
    state: &PortState,
    tally: &mut Tally,
    made: &MadeMap,
    problems: &Problems,
) -> Result<bool, AllocError>
    requires admitted { IsAdmitted state.now.rule state.now.gap state.now.roster }
    requires carries { AreCarries state.now.rule state.now.roster state.now.carries }
    requires problems { AreProblems (input_of state.now) problems.now }
    requires certified { IsCertified (input_of state.now) made.now.cert }
    ensures sums { IfOk result (λ added. (i : ℕ) → tally_sums tally.new i
        ≡ plus (tally_sums tally.old i)
        (if added then amounts_in i (rates_of state.now made.now.cert) made.now.map
        else no_sums)) }
    ensures sold { IfOk result (λ added. (i : ℕ) → tally_watch tally.new i
        ≡ (if added then after_map i state.now made.now (tally_watch tally.old i)
        else tally_watch tally.old i)) }
    ensures good { IfOk result (λ added. IsMade state.now made.now → IsTrue added) }
{
    let demands = problems.demands.as_slice();
    let room = mem::replace(&mut tally.rates, Vec::new(alloc));
    let rates = rates_under(room, state, demands, &made.cert)?;
    let structures = made.map.rows();
    if !lists_rows(&rates, structures) {
        tally.rates = rates;
        return Ok(false);
    }
    tally.allocs.add_map(made.frame, &rates, structures)?;
    tally.add_sold(state.roster(), &rates, structures)?;
    if let Some(followed) = &mut tally.followed {
        followed.add_map(made.frame, &rates, structures)?;
    }
    if !tally.are_rows_noted {
        tally.note_rows(made.frame, state.roster(), demands)?;
    }
    tally.rates = rates;
    Ok(true)
}

// Adds a map that follows `kept` entries of its chapter to the sums, if its frame is in the range, and applies it to
// the state if it may follow. `Err` if memory is refused or a sum is 2^64 or more.
fn tally_made(
    alloc: Global,
    replay: &mut Replay,
    tally: &mut Tally,
    range: &FrameRange,
    kept: usize,
    made: &MadeMap,
) -> Result<Tallied, AllocError>
    requires admitted { IsAdmitted replay.old.state.rule replay.old.state.gap replay.old.state.roster }
    requires carries { AreCarries replay.old.state.rule replay.old.state.roster replay.old.state.carries }
    requires frames { AreConsecutive replay.old.state.next replay.old.state.window }
    ensures tallied { IfOk result (λ tallied. IsTallied range.now kept replay.old.state
        (map_entry made.now) replay.new.state (tally_sums tally.old) (tally_sums tally.new) tallied) }
    ensures sold { IfOk result (λ tallied. IsWatched range.now replay.old.state
        (map_entry made.now) (tally_watch tally.old) (tally_watch tally.new) tallied) }
{
    let Replay { state, buffers } = replay;
    let problems = accepted_problems(alloc, buffers, state, &made.cert)?;
    let added = match &problems {
        Some(problems) if range.holds(made.frame) => {
            tally_map(alloc, state, tally, made, problems)?
        }
        Some(_) => true,
        None => !range.holds(made.frame),
    };
    match take_map(alloc, buffers, state, kept, made, problems)? {
        None => Ok(Tallied::Follows),
        Some(why) => Ok(Tallied::Stops { why, added }),
    }
}

// Adds an entry that follows `kept` entries of its chapter to the sums, and applies it to the state if it may follow.
// `Err` if memory is refused or a sum is 2^64 or more.
fn tally_entry(
    alloc: Global,
    replay: &mut Replay,
    tally: &mut Tally,
    range: &FrameRange,
    kept: usize,
    entry: &Entry,
) -> Result<Tallied, AllocError>
    requires reply { (reply_to entry.now.event).Fits entry.now.reply }
    requires admitted { IsAdmitted replay.old.state.rule replay.old.state.gap replay.old.state.roster }
    requires carries { AreCarries replay.old.state.rule replay.old.state.roster replay.old.state.carries }
    requires book { AccountsFor replay.old.state.roster replay.old.state.book }
    requires frames { AreConsecutive replay.old.state.next replay.old.state.window }
    ensures tallied { IfOk result (λ tallied. IsTallied range.now kept replay.old.state entry.now
        replay.new.state (tally_sums tally.old) (tally_sums tally.new) tallied) }
    ensures sold { IfOk result (λ tallied. IsWatched range.now replay.old.state entry.now
        (tally_watch tally.old) (tally_watch tally.new) tallied) }
{
    match entry.as_ref() {
        EntryRef::Map(made) => return tally_made(alloc, replay, tally, range, kept, made),
        EntryRef::Taken(event) => tally.note_event(event),
    }
    let Replay { state, buffers } = replay;
    match take_entry(alloc, buffers, state, kept, entry)? {
        None => Ok(Tallied::Follows),
        Some(why) => Ok(Tallied::Stops { why, added: true }),
    }
}

// How far a chapter is summed up that fails at an entry, which is in the sums or not.
fn ended(index: usize, why: AuditReason, added: bool) -> Summed
    requires { index + 1 < 2 ^ 64 }
    ensures { result ≡ record {
      entries = if added then index + 1 else index;
      judged = Fails (record { index = index; why = why });
    } }
{
    Summed {
        entries: if added { index + 1 } else { index },
        judged: Judged::Fails(Fault { index, why }),
    }
}

/// Adds the maps of a chapter in a range of frames to a tally of its port, up to the first entry that may not follow.
/// These include the map of that entry if it has the Alloc-IDs of the state and its certificate is the state's. Judges
/// the chapter too, regardless of the chapters before it.
///
/// # Errors
///
/// `AllocError` if memory is refused or a sum is 2^64 or more.
pub fn tally_chapter(
    alloc: Global,
    chapter: &RawChapter,
    range: &FrameRange,
    tally: &mut Tally,
) -> Result<Summed, AllocError>
    requires { FitsRecording chapter.now.body }
    ensures sums { IfOk result (λ summed. (i : ℕ) → tally_sums tally.new i
        ≡ plus (tally_sums tally.old i)
        (sums_of range.now i (chapter_of chapter.now.body) summed.entries)) }
    ensures sold { IfOk result (λ summed. (i : ℕ) → tally_watch tally.new i
        ≡ watch_over range.now.first range.now.last i (chapter_of chapter.now.body)
        (tally_watch tally.old i) summed.entries) }
    ensures judged { IfOk result (λ summed. IsJudgment chapter.now summed.judged) }
    ensures whole { IfOk result (λ summed. IfNone (refused_at summed.judged)
        (summed.entries ≡ length chapter.now.body.entries)) }
{
    // The rows of the first map are noted again.
    tally.are_rows_noted = false;
    let Some(mut replay) = open_replay(alloc, chapter)? else {
        return Ok(Summed {
            entries: 0,
            judged: Judged::Unlawful,
        });
    };
    for (index, entry) in chapter.entries.iter().enumerate() {
        match tally_entry(alloc, &mut replay, tally, range, index, entry)? {
            Tallied::Follows => {}
            Tallied::Stops { why, added } => return Ok(ended(index, why, added)),
        }
    }
    let entries = chapter.entries.len();
    let judged = Judged::Ends(replay.state);
    Ok(Summed { entries, judged })
}
