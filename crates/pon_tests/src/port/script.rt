//! Scripts: rows of events and looks at one port, each with what is expected of it.

use super::*;
use crate::acts::id;

/// A row of a script. A taken event or a map adds one entry, and a refused one changes nothing.
#[derive(Clone, Copy)]
pub(super) enum Row {
    /// An event other than `MakeMap` is taken.
    Take(Act),
    /// An event is refused.
    Refuse(Act, Why),
    /// Alloc-IDs with all rates 0 are admitted: their number, the first ONU-ID, what it rises by, the first Alloc-ID.
    AdmitEmpty(u16, u16, u16, u16),
    /// The map of this frame has these structures.
    Map(u64, &'static [Structure]),
    /// The maps of these frames, from the first to before the last, each have these structures.
    Maps(u64, u64, &'static [Structure]),
    /// The next map has this number of structures.
    MapOf(usize),
    /// The report of Alloc-ID 1024 that counts: its frame, and its words that are not granted.
    Counted(u64, u32),
    /// The frame from which on reports of Alloc-ID 1024 count.
    Since(u64),
    /// The number of maps in the window.
    Window(usize),
    /// The cause of the failure of the line.
    Cause(Option<u8>),
    /// The number of admitted Alloc-IDs.
    Admitted(usize),
    /// What the last map left to an Alloc-ID, in kbit/s, if it is admitted.
    Carry(u16, Option<u8>),
    /// The words of a frame that are left for grants.
    Capacity(u16),
    /// The gap and the profile.
    Cfg(u16, u8),
    /// The number of kept entries, the number of taken entries, and the next frame.
    Shown(usize, u64, u64),
    /// The number of the kept chapter.
    Chapter(u64),
    /// The event of the first entry.
    First(Act),
}

/// A named script, for a port with this gap and first frame.
pub(super) struct Script {
    pub(super) name: &'static str,
    pub(super) gap: u16,
    pub(super) first: u64,
    pub(super) rows: &'static [Row],
}

/// Runs a script, and takes each event at most this number of times if memory is refused.
pub(super) fn run(rt: &impl Abort, alloc: Global, script: &Script, tries: u32) {
    let mut port = open(rt, alloc, script.gap, script.first);
    for (k, row) in script.rows.iter().enumerate() {
        assert!(rt;
            is_met(rt, &mut port, *row, tries),
            "{}, row {k}",
            script.name
        );
    }
}

/// Returns whether the port gives what the row expects.
fn is_met(rt: &impl Abort, port: &mut Port, row: Row, tries: u32) -> bool {
    match row {
        Row::Take(act) => takes(rt, port, act, tries),
        Row::Refuse(act, why) => refuses(rt, port, act, why),
        Row::AdmitEmpty(count, first, rise, number) => {
            admits_empty(rt, port, count, first, rise, number)
        }
        Row::Map(frame, wanted) => maps(rt, port, frame, wanted, tries),
        Row::Maps(first, end, wanted) => maps_all(rt, port, first, end, wanted),
        Row::MapOf(count) => made_map(rt, port).map.rows().len() == count,
        _ => is_shown(rt, port, row),
    }
}

fn admits_empty(
    rt: &impl Abort,
    port: &mut Port,
    count: u16,
    first: u16,
    rise: u16,
    number: u16,
) -> bool {
    for k in 0..count {
        let unit = first.wrapping_add(rise.wrapping_mul(k));
        let act = Act::Admit(unit, number.wrapping_add(k), 0);
        if !takes(rt, port, act, 1) {
            return false;
        }
    }
    true
}

fn maps_all(rt: &impl Abort, port: &mut Port, first: u64, end: u64, wanted: &[Structure]) -> bool {
    for frame in first..end {
        if !maps(rt, port, frame, wanted, 1) {
            return false;
        }
    }
    true
}

/// Returns whether the port shows what the row expects.
fn is_shown(rt: &impl Abort, port: &Port, row: Row) -> bool {
    let state = port.state();
    match row {
        Row::Counted(frame, words) => counts(rt, port, frame, words),
        Row::Since(frame) => counts_from(rt, port, frame),
        Row::Window(count) => state.loads().window().maps().len() == count,
        Row::Cause(number) => state.cause().map(|cause| cause.get()) == number,
        Row::Admitted(count) => state.roster().rows().len() == count,
        Row::Carry(number, carry) => state.carry(id(rt, number)) == carry,
        Row::Capacity(words) => state.roster().capacity().get() == words,
        Row::Cfg(gap, profile) => {
            state.cfg().gap.get() == gap && state.cfg().profile.get() == profile
        }
        Row::Shown(kept, taken, next) => shown(port) == (kept, taken, next),
        Row::Chapter(number) => port.chapter_number() == number,
        Row::First(act) => is_first(rt, port, act),
        _ => false,
    }
}

/// Returns whether reports of Alloc-ID 1024 count from this frame on.
fn counts_from(rt: &impl Abort, port: &Port, frame: u64) -> bool {
    let account = port.state().loads().account(id(rt, 1024));
    account.map(|account| account.since.get()) == Some(frame)
}

/// Returns whether the report of Alloc-ID 1024 that counts is of this frame and has these words.
fn counts(rt: &impl Abort, port: &Port, frame: u64, words: u32) -> bool {
    let account = port.state().loads().account(id(rt, 1024));
    match account.and_then(|account| account.counted) {
        None => false,
        Some(counted) => counted.frame.get() == frame && counted.words.get() == words,
    }
}

/// Returns whether the first entry is of this event.
fn is_first(rt: &impl Abort, port: &Port, act: Act) -> bool {
    match port.history().first() {
        None => false,
        Some(entry) => entry.event() == event(rt, act),
    }
}
