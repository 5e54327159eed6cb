// The certificate of the last map in its parts, and the check of the certificate of a class.
ghost use Rattle.std.specs.Prelude.{◌≡◌, ◌≢◌, ◌≤◌, ◌++◌, Bool, List, IfOk, MatchOption, None, Some, drop, length};
ghost use Rattle.pon_cert.specs.Problem.{IsProblem};
ghost use Rattle.pon_history.specs.Last.{last_map};
ghost use Rattle.pon_c.specs.Checking.{TellsCheck, TellsClass, ShowsLevels, TellsLevels, cert_fault_number, cert_fault_place, item_of, items_of, level_of, levels_info};
ghost use Rattle.pon_c.specs.declared.numbers.TheConstants.{OUT_OF_MEMORY};

use crate::handle::PortHandle;
use crate::numbers::{
    BAD_LEVEL, BAD_PROBLEM, CERT_DENOMINATOR, CERT_LENGTH, CERT_NOT_EXHAUSTED, CERT_OVERSPENT,
    CERT_SATURATED, CERT_UNSATURATED, CLOSED, NO_MAP, NO_ROOM, OUT_OF_MEMORY,
};
use crate::why::level_parts;
use pon_cert::{ClassCert, Item, Level, MapCert, Sat, is_problem};
use pon_check::{CertFault, check_class};
use pon_port::Port;
use pon_units::Frac;
use std::alloc::{AllocError, Global};

/// The levels of the certificate of a map: of a class 1 if each Alloc-ID gets its cap, 2 for a fraction.
#[repr(C)]
#[derive(Drop)]
pub struct LevelsInfo {
    /// Non-assured: the numerator, 0 unless it is a fraction.
    pub na_num: u64,
    /// Non-assured: the denominator, 0 unless it is a fraction.
    pub na_den: u64,
    /// Best effort: the numerator, 0 unless it is a fraction.
    pub be_num: u64,
    /// Best effort: the denominator, 0 unless it is a fraction.
    pub be_den: u64,
    /// Non-assured: the Alloc-IDs of the class, 0 to 512.
    pub na_count: usize,
    /// Best effort: the Alloc-IDs of the class, 0 to 512.
    pub be_count: usize,
    /// Non-assured: the level.
    pub na_level: u8,
    /// Best effort: the level.
    pub be_level: u8,
}

/// An item of a class problem.
#[repr(C)]
#[derive(Clone, Copy)]
pub struct ItemInfo {
    /// The weight, 1 to 2,488,320.
    pub weight: u64,
    /// The cap in kbit/s, 0 to 2,488,320.
    pub cap: u64,
}

fn levels_info(cert: &MapCert) -> LevelsInfo
    ensures { result ≡ levels_info cert.now }
{
    let (na_level, na_num, na_den) = level_parts(&Some(cert.na.level));
    let (be_level, be_num, be_den) = level_parts(&Some(cert.be.level));
    LevelsInfo {
        na_num,
        na_den,
        be_num,
        be_den,
        na_count: cert.na.saturated.as_slice().len(),
        be_count: cert.be.saturated.as_slice().len(),
        na_level,
        be_level,
    }
}

// Writes flags to the front of a room that has place for them.
fn put_flags(flags: &[bool], room: &mut [bool])
    requires { length flags.now ≤ length room.old }
    ensures { room.new ≡ flags.now ++ drop (length flags.now) room.old }
{
    room[..flags.len()].copy_from_slice(flags);
}

// Shows the certificate of the last map. Returns 0, or the number of the reason.
fn show_levels(port: &Port, na: &mut [bool], be: &mut [bool], levels: &mut LevelsInfo) -> u32
    ensures { TellsLevels (last_map port.now) result levels.new na.old na.new be.old be.new }
{
    let Some((made, _, _)) = port.last() else {
        return NO_MAP;
    };
    *levels = levels_info(&made.cert);
    let (na_flags, be_flags) = (
        made.cert.na.saturated.as_slice(),
        made.cert.be.saturated.as_slice(),
    );
    if na_flags.len() > na.len() || be_flags.len() > be.len() {
        return NO_ROOM;
    }
    put_flags(na_flags, na);
    put_flags(be_flags, be);
    0
}

/// Shows the certificate of the last map: its levels, and for each Alloc-ID of the non-assured and of the best-effort
/// class, in map order, whether it gets its cap. Returns 0, or `CLOSED`, or `NO_MAP` before the first map of the kept
/// chapter, or `NO_ROOM` for fewer flags than Alloc-IDs, whose numbers are then in `levels`.
#[unsafe(no_mangle)]
pub extern "C" fn sez_levels(
    alloc: Global,
    port: &mut PortHandle,
    na: &mut [bool],
    be: &mut [bool],
    levels: &mut LevelsInfo,
) -> u32
    ensures told { ShowsLevels port.old.owned.port result levels.new na.old na.new be.old be.new }
    ensures same { port.new.owned.port ≡ port.old.owned.port }
{
    let Some(open) = port.take(alloc) else {
        return CLOSED;
    };
    let told = show_levels(&open, na, be, levels);
    *port = PortHandle::of(open);
    told
}

fn item_of(item: &ItemInfo) -> Item
    ensures { result ≡ item_of item.now }
{
    Item {
        weight: item.weight,
        cap: item.cap,
    }
}

// Copies items. `Err` only if memory is refused.
fn items_of(alloc: Global, items: &[ItemInfo]) -> Result<Vec<Item>, AllocError>
    ensures { IfOk result (λ copy. copy.items ≡ items_of items.now) }
{
    let mut copy = Vec::new(alloc);
    for item in items {
        copy.push(item_of(item))?;
    }
    Ok(copy)
}

// Reads a level: 1 if each item gets its cap, 2 for a fraction. `None` for another number, and for a denominator of 0.
fn level_of(level: u8, num: u64, den: u64) -> Option<Level>
    ensures { result ≡ level_of level num den }
{
    if level == 1 {
        return Some(Level::All);
    }
    if level == 2 && den > 0 {
        return Some(Level::At(Frac::new(num, den)));
    }
    None
}

fn cert_fault(fault: &CertFault) -> (u32, usize)
    ensures number { result.0 ≡ cert_fault_number fault.now }
    ensures place { result.1 ≡ cert_fault_place fault.now }
{
    match *fault {
        CertFault::Length => (CERT_LENGTH, 0),
        CertFault::Denominator => (CERT_DENOMINATOR, 0),
        CertFault::Saturated { i } => (CERT_SATURATED, i),
        CertFault::Unsaturated { i } => (CERT_UNSATURATED, i),
        CertFault::NotExhausted => (CERT_NOT_EXHAUSTED, 0),
        CertFault::Overspent => (CERT_OVERSPENT, 0),
    }
}

// Checks a certificate of a class problem. Returns 0, or the number of its first fault.
fn told_by(items: &[Item], surplus: u64, cert: &ClassCert, place: &mut usize) -> u32
    requires { IsProblem items.now surplus }
    ensures { TellsClass items.now surplus cert.now result place.new }
{
    match check_class(items, surplus, cert) {
        Ok(()) => 0,
        Err(fault) => {
            let (number, at) = cert_fault(&fault);
            *place = at;
            number
        }
    }
}

/// Checks the certificate of a class, as `olt check` does: whether the level, and for each item whether it gets its cap, is
/// the fairest sharing of the surplus. Returns 0 if it is. Otherwise `OUT_OF_MEMORY`, or the first of: `BAD_PROBLEM`,
/// `BAD_LEVEL`, `CERT_LENGTH`, `CERT_DENOMINATOR`, then for the items in order `CERT_SATURATED` or `CERT_UNSATURATED`, with
/// its index in `place`, and `CERT_NOT_EXHAUSTED` or `CERT_OVERSPENT`.
#[unsafe(no_mangle)]
pub extern "C" fn sez_check_class(
    alloc: Global,
    items: &[ItemInfo],
    surplus: u64,
    level: u8,
    num: u64,
    den: u64,
    saturated: &[bool],
    place: &mut usize,
) -> u32
    ensures problem { result ≢ OUT_OF_MEMORY → (IsProblem (items_of items.now) surplus → ⊥)
        → result ≡ BAD_PROBLEM }
    ensures told { result ≢ OUT_OF_MEMORY → IsProblem (items_of items.now) surplus
        → TellsCheck (items_of items.now) surplus (level_of level num den) saturated.now
        result place.new }
{
    let Ok(items) = items_of(alloc, items) else {
        return OUT_OF_MEMORY;
    };
    if !is_problem(&items, surplus) {
        return BAD_PROBLEM;
    }
    let Some(level) = level_of(level, num, den) else {
        return BAD_LEVEL;
    };
    match Vec::from_slice(alloc, saturated) {
        Ok(flags) => {
            let saturated = Sat::new(flags);
            told_by(&items, surplus, &ClassCert { level, saturated }, place)
        }
        Err(_) => OUT_OF_MEMORY,
    }
}
