// The maps of a port and their certificates.
ghost use Rattle.std.specs.Prelude.{◌≡◌, ◌≢◌, ◌<◌, ◌≤◌, ◌*◌, ◌+◌, IfSome, IsSome, Some, length};
ghost use Rattle.pon_admit.specs.declared.event.Event.{Event};
ghost use Rattle.pon_history.specs.Last.{last_map};
ghost use Rattle.pon_c.specs.Answers.{Between, IsWritten, MadeInto, TellsCert, TellsLast, TellsWhy};

use crate::filling::fill;
use crate::handle::PortHandle;
use crate::numbers::{CLOSED, NO_MAP, NO_ROOM, OUT_OF_MEMORY, number};
use pon_admit::Event;
use pon_bwmap::write_map;
use pon_port::Port;
use pon_units::MAX_STRUCTURES;
use std::alloc::Global;

/// The greatest number of bytes of a map.
pub const MAP_ROOM: usize = 4 + 8 * MAX_STRUCTURES;

/// A map that was made: its frame, and the number of its bytes.
#[repr(C)]
#[derive(Drop)]
pub struct MapInfo {
    /// The frame of the map.
    pub frame: u64,
    /// The number of its bytes, 4 and 8 for each Alloc-ID.
    pub size: usize,
}

/// Makes the map of the next frame, and writes its bytes to the front of `room`. Returns 0, or the first of: `NO_ROOM` for
/// a room of fewer than `MAP_ROOM` bytes, `CLOSED`, and the refusal of the event.
#[unsafe(no_mangle)]
pub extern "C" fn sez_map(
    alloc: Global,
    port: &mut PortHandle,
    room: &mut [u8],
    map: &mut MapInfo,
) -> u32
    // The map is the fair map of the kept history, and its bytes are in the room.
    ensures ok { result ≡ 0 → Between (λ c d. MadeInto c d map.new.frame map.new.size
        room.old room.new) port.old.owned.port port.new.owned.port }
    ensures err { result ≢ 0 → port.new.owned.port ≡ port.old.owned.port }
    ensures room { result ≢ 0 → room.new ≡ room.old }
    ensures few { length room.old < MAP_ROOM → result ≡ NO_ROOM }
    ensures event { MAP_ROOM ≤ length room.old
        → TellsWhy Event.MakeMap port.old.owned.port result }
{
    if room.len() < MAP_ROOM {
        return NO_ROOM;
    }
    let Some(mut open) = port.take(alloc) else {
        return CLOSED;
    };
    let told = make_map(&mut open, room, map);
    *port = PortHandle::of(open);
    told
}

// Writes the bytes of the last map to the front of a room that is large enough.
fn put_map(port: &Port, room: &mut [u8], map: &mut MapInfo)
    requires room { MAP_ROOM ≤ length room.old }
    requires some { IsSome (last_map port.now) }
    ensures { IfSome (last_map port.now)
        (λ l. IsWritten l.made map.new.frame map.new.size room.old room.new) }
{
    let (made, _, _) = port.last().unwrap();
    let _rows = made.map.rows();
    map.size = write_map(&made.map, room);
    map.frame = made.frame.get();
}

// Makes the map of the next frame into a room that is large enough. Returns 0 or the number of the refusal.
fn make_map(port: &mut Port, room: &mut [u8], map: &mut MapInfo) -> u32
    requires { MAP_ROOM ≤ length room.old }
    ensures ok { result ≡ 0 → MadeInto port.old port.new map.new.frame map.new.size
        room.old room.new }
    ensures told { TellsWhy Event.MakeMap (Some port.old) result }
    ensures err { result ≢ 0 → port.new ≡ port.old }
    ensures room { result ≢ 0 → room.new ≡ room.old }
{
    match port.keep(Event::MakeMap) {
        Ok(_) => {
            put_map(port, room, map);
            0
        }
        Err(refusal) => number(refusal),
    }
}

// Writes the bytes of the certificate of the last map to the front of `room`.
fn put_cert(alloc: Global, port: &Port, room: &mut [u8], size: &mut usize) -> u32
    ensures { TellsLast (last_map port.now) result size.new room.old room.new }
{
    let Some((made, _, _)) = port.last() else {
        return NO_MAP;
    };
    match made.cert.to_bytes(alloc) {
        Ok(bytes) => fill(bytes.as_slice(), room, size),
        Err(_) => OUT_OF_MEMORY,
    }
}

/// Writes the bytes of the certificate of the last map to the front of `room`, and their number to `size`. Returns 0, or
/// `CLOSED`, or `NO_MAP` before the first map of the kept chapter, or `OUT_OF_MEMORY`, or `NO_ROOM`: then `size`
/// is the number of bytes that the room must have.
#[unsafe(no_mangle)]
pub extern "C" fn sez_certificate(
    alloc: Global,
    port: &mut PortHandle,
    room: &mut [u8],
    size: &mut usize,
) -> u32
    ensures told { TellsCert port.old.owned.port result size.new room.old room.new }
    ensures same { port.new.owned.port ≡ port.old.owned.port }
{
    let Some(open) = port.take(alloc) else {
        return CLOSED;
    };
    let told = put_cert(alloc, &open, room, size);
    *port = PortHandle::of(open);
    told
}
