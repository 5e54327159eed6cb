// The maps of a port as grants, for a line terminal that writes the bytes of a map itself.
ghost use Rattle.std.specs.Prelude.{◌≡◌, ◌≢◌, ◌<◌, ◌≤◌, ◌++◌, IfSome, IsSome, Some, drop, length};
ghost use Rattle.pon_units.specs.declared.limits.TheConstants.{MAX_STRUCTURES};
ghost use Rattle.pon_admit.specs.declared.event.Event.{Event};
ghost use Rattle.pon_history.specs.Last.{last_map};
ghost use Rattle.pon_c.specs.Answers.{Between, TellsWhy};
ghost use Rattle.pon_c.specs.Grants.{IsListed, MadeGrants, grant_of, grants_of};

use crate::handle::PortHandle;
use crate::numbers::{CLOSED, NO_ROOM, NO_START, number};
use pon_admit::Event;
use pon_bwmap::Alloc;
use pon_port::Port;
use pon_units::MAX_STRUCTURES;
use std::alloc::Global;

/// The grant of a map to an Alloc-ID.
#[repr(C)]
#[derive(Clone, Copy)]
pub struct GrantInfo {
    /// The Alloc-ID, 1024 to 16383.
    pub alloc_id: u16,
    /// The first word of the burst, or `NO_START` if the grant continues the burst before it.
    pub start: u16,
    /// The granted words, that of the report included.
    pub words: u16,
}

/// A map that was made: its frame, and the number of its grants.
#[repr(C)]
#[derive(Drop)]
pub struct GrantsInfo {
    /// The frame of the map.
    pub frame: u64,
    /// The number of its grants, one for each Alloc-ID.
    pub count: usize,
}

fn grant_of(structure: &Alloc) -> GrantInfo
    ensures { result ≡ grant_of structure.now }
{
    GrantInfo {
        alloc_id: structure.id(),
        start: structure.start().unwrap_or(NO_START),
        words: structure.grant(),
    }
}

// Writes the grants of structures to the front of `grants`, which has room for them.
fn put_structures(structures: &[Alloc], grants: &mut [GrantInfo])
    requires { length structures.now ≤ length grants.old }
    ensures { grants.new ≡ grants_of structures.now ++ drop (length structures.now) grants.old }
{
    for place in 0..structures.len() {
        grants[place] = grant_of(&structures[place]);
    }
}

// Writes the grants of the last map to the front of a room that is large enough.
fn put_grants(port: &Port, grants: &mut [GrantInfo], info: &mut GrantsInfo)
    requires room { MAX_STRUCTURES ≤ length grants.old }
    requires some { IsSome (last_map port.now) }
    ensures { IfSome (last_map port.now) (λ l. IsListed l.made info.new grants.old grants.new) }
{
    let (made, _, _) = port.last().unwrap();
    let structures = made.map.rows();
    put_structures(structures, grants);
    info.count = structures.len();
    info.frame = made.frame.get();
}

// Makes the map of the next frame into a room that is large enough. Returns 0 or the number of the refusal.
fn make_grants(port: &mut Port, grants: &mut [GrantInfo], info: &mut GrantsInfo) -> u32
    requires { MAX_STRUCTURES ≤ length grants.old }
    ensures ok { result ≡ 0 → MadeGrants port.old port.new info.new grants.old grants.new }
    ensures told { TellsWhy Event.MakeMap (Some port.old) result }
    ensures err { result ≢ 0 → port.new ≡ port.old }
    ensures room { result ≢ 0 → grants.new ≡ grants.old }
{
    match port.keep(Event::MakeMap) {
        Ok(_) => {
            put_grants(port, grants, info);
            0
        }
        Err(refusal) => number(refusal),
    }
}

/// Makes the map of the next frame, as `sez_map` does, and writes its grants in place of its bytes to the front of `grants`.
/// Each asks for a report and for no message, and has the burst profile of the port. Returns 0, or the first of: `NO_ROOM` for
/// fewer than 512 places, `CLOSED`, and the refusal of the event.
#[unsafe(no_mangle)]
pub extern "C" fn sez_map_grants(
    alloc: Global,
    port: &mut PortHandle,
    grants: &mut [GrantInfo],
    info: &mut GrantsInfo,
) -> u32
    // The map is the fair map of the kept history, and its grants are in the room.
    ensures ok { result ≡ 0 → Between (λ c d. MadeGrants c d info.new grants.old grants.new)
        port.old.owned.port port.new.owned.port }
    ensures err { result ≢ 0 → port.new.owned.port ≡ port.old.owned.port }
    ensures room { result ≢ 0 → grants.new ≡ grants.old }
    ensures few { length grants.old < MAX_STRUCTURES → result ≡ NO_ROOM }
    ensures event { MAX_STRUCTURES ≤ length grants.old
        → TellsWhy Event.MakeMap port.old.owned.port result }
{
    if grants.len() < MAX_STRUCTURES {
        return NO_ROOM;
    }
    let Some(mut open) = port.take(alloc) else {
        return CLOSED;
    };
    let told = make_grants(&mut open, grants, info);
    *port = PortHandle::of(open);
    told
}
