//! A port that takes its events, with ample memory.

use crate::acts::{Act, Why, event, gap, profile, refusal};
use pon_bwmap::Alloc;
use pon_descr::Refusal;
use pon_port::{Entry, MadeMap, Port, PortCfg, Reply};
use pon_units::FrameNo;
use std::alloc::Global;
use std::process::Abort;

mod admissions;
mod carries;
mod copies;
mod full;
mod reports;
mod script;
mod sharing;
mod turning;

/// A structure of a map: Alloc-ID, start and words.
type Structure = (u16, Option<u16>, u16);

/// What a caller sees of a port: the number of kept entries, the number of taken entries, and the next frame.
type Shown = (usize, u64, u64);

/// Opens a port with this gap and first frame, and profile 0.
fn open(rt: &impl Abort, alloc: Global, words: u16, first: u64) -> Port {
    let cfg = PortCfg {
        gap: gap(rt, words),
        profile: profile(rt),
    };
    Port::open(alloc, cfg, FrameNo::new(first)).expect(rt, "memory")
}

fn shown(port: &Port) -> Shown {
    (
        port.history().len(),
        port.taken(),
        port.state().next_frame().get(),
    )
}

/// Returns whether both lists have the same entries.
fn are_same(entries: &[Entry], others: &[Entry]) -> bool {
    for (entry, other) in entries.iter().zip(others) {
        if !entry.is_same(other) {
            return false;
        }
    }
    entries.len() == others.len()
}

/// Takes an event, at most this number of times if memory is refused.
fn answer(rt: &impl Abort, port: &mut Port, act: Act, tries: u32) -> Result<Reply, Refusal> {
    for _ in 1..tries {
        let told = port.take(event(rt, act));
        if !matches!(told, Err(Refusal::OutOfMemory)) {
            return told;
        }
    }
    port.take(event(rt, act))
}

/// Returns what is shown after one more entry that makes this number of maps.
fn after(before: Shown, maps: u64) -> Shown {
    let (kept, taken, next) = before;
    (
        kept.wrapping_add(1),
        taken.wrapping_add(1),
        next.wrapping_add(maps),
    )
}

/// Returns whether the port takes an event other than `MakeMap` and keeps it.
fn takes(rt: &impl Abort, port: &mut Port, act: Act, tries: u32) -> bool {
    let wanted = after(shown(port), 0);
    let is_taken = matches!(answer(rt, port, act, tries), Ok(Reply::Taken));
    is_taken && shown(port) == wanted
}

/// Returns whether the port refuses an event and shows the same after it.
fn refuses(rt: &impl Abort, port: &mut Port, act: Act, why: Why) -> bool {
    let before = shown(port);
    let refused = answer(rt, port, act, 1).err();
    refused == Some(refusal(rt, why)) && shown(port) == before
}

/// Takes an event other than `MakeMap`.
fn take(rt: &impl Abort, port: &mut Port, act: Act) {
    assert!(rt; takes(rt, port, act, 1), "taken");
}

fn made_map(rt: &impl Abort, port: &mut Port) -> MadeMap {
    match answer(rt, port, Act::MakeMap, 1) {
        Ok(Reply::Map(made)) => made,
        _ => panic!(rt; "a map"),
    }
}

/// Returns whether a structure is this one, with a report and nothing else asked for.
fn is_structure(row: &Alloc, wanted: Structure) -> bool {
    let (id, start, words) = wanted;
    row.id() == id
        && row.start() == start
        && row.grant() == words
        && row.dbru()
        && !row.ploam()
        && !row.fwi()
        && row.profile() == 0
}

/// Returns whether a map is of this frame and has these structures.
fn is_map(made: &MadeMap, frame: u64, wanted: &[Structure]) -> bool {
    let rows = made.map.rows();
    for (row, wanted) in rows.iter().zip(wanted) {
        if !is_structure(row, *wanted) {
            return false;
        }
    }
    made.frame.get() == frame && rows.len() == wanted.len()
}

/// Makes a map, and returns whether it is of this frame, has these structures and is kept.
fn maps(rt: &impl Abort, port: &mut Port, frame: u64, wanted: &[Structure], tries: u32) -> bool {
    let kept = after(shown(port), 1);
    let is_made = match answer(rt, port, Act::MakeMap, tries) {
        Ok(Reply::Map(made)) => is_map(&made, frame, wanted),
        _ => false,
    };
    is_made && shown(port) == kept
}
