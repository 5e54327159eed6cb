//! Running sums beside the window: the words granted since a map are the difference of two of them.

ghost use Rattle.std.specs.Prelude.{◌≡◌, ◌≢◌, ◌≤◌, ◌*◌, ◌<◌, [], All, IfOk, IfSome, OnErr, OnOk, Some, length, position, sum_by, List, ℕ};
ghost use Rattle.pon_units.specs.Granted.{AreInMapOrder};
ghost use Rattle.pon_guar.specs.Window.{IsLawfulMap, words_to};
ghost use Rattle.pon_guar.specs.Sums.{AreSummed, IsLast, is_to, sum_before, sum_after, sum_now, sums_beside};

use crate::map::{WindowMap, series_of};
use crate::window::MAX_MAPS;
use pon_units::{AllocId, FRAME_WORDS, Granted, OnuId};
use std::alloc::{AllocError, Global};
use std::marker::Model;

/// A sum for each grant of a map, in order: the words that earlier maps granted to its Alloc-ID under its ONU, counted
/// from any map on, modulo 2^32.
#[derive(Drop)]
pub(crate) struct MapSums {
    before: Vec<u32>,
}

impl Model for MapSums {
    ghost Value = { List ℕ };

    ghost view = { λ s. s.before.items };
}

impl MapSums {
    /// The sums of a map of no grants.
    pub(crate) fn empty(alloc: Global) -> MapSums
        ensures { result ≡ [] }
    {
        MapSums {
            before: Vec::new(alloc),
        }
    }
}

// Returns whether a grant is to an Alloc-ID under an ONU.
fn is_to(granted: &Granted, onu: OnuId, alloc_id: AllocId) -> bool
    ensures { result ≡ is_to onu alloc_id granted.now }
{
    granted.onu == onu && granted.alloc_id == alloc_id
}

// Returns the index of the first grant to an Alloc-ID under an ONU, by a scan.
fn place_in(grants: &[Granted], onu: OnuId, alloc_id: AllocId) -> Option<usize>
    ensures { result ≡ position (is_to onu alloc_id) grants.now }
{
    grants
        .iter()
        .position(|granted| is_to(granted, onu, alloc_id))
}

// Finds the grant to an Alloc-ID under an ONU: the grants of the ONU by a binary search, its place there by a scan.
fn search_grant(grants: &[Granted], onu: OnuId, alloc_id: AllocId) -> Option<usize>
    requires { AreInMapOrder grants.now }
    ensures { result ≡ position (is_to onu alloc_id) grants.now }
{
    let own = series_of(grants, 0, onu);
    match place_in(own.grants, onu, alloc_id) {
        None => None,
        Some(place) => Some(own.first + place),
    }
}

// Returns the index of the grant to an Alloc-ID under an ONU: the hint if the grant is there, otherwise by a search.
fn place_of_grant(grants: &[Granted], hint: usize, onu: OnuId, alloc_id: AllocId) -> Option<usize>
    requires { AreInMapOrder grants.now }
    ensures { result ≡ position (is_to onu alloc_id) grants.now }
{
    if hint < grants.len() && is_to(&grants[hint], onu, alloc_id) {
        return Some(hint);
    }
    search_grant(grants, onu, alloc_id)
}

// Returns the sum before the grant to an Alloc-ID under an ONU; `None` if the map has no such grant.
fn sum_before(
    map: &WindowMap,
    sums: &MapSums,
    hint: usize,
    onu: OnuId,
    alloc_id: AllocId,
) -> Option<u32>
    requires { AreInMapOrder map.now.grants }
    ensures { result ≡ sum_before onu alloc_id map.now.grants sums.now }
{
    let place = match place_of_grant(&map.grants, hint, onu, alloc_id) {
        None => return None,
        Some(place) => place,
    };
    if place < sums.before.len() {
        Some(sums.before[place])
    } else {
        None
    }
}

// Returns the sum after the grant to an Alloc-ID under an ONU; `None` if the map has no such grant.
fn sum_after(
    map: &WindowMap,
    sums: &MapSums,
    hint: usize,
    onu: OnuId,
    alloc_id: AllocId,
) -> Option<u32>
    requires { AreInMapOrder map.now.grants }
    ensures { result ≡ sum_after onu alloc_id map.now sums.now }
{
    let place = match place_of_grant(&map.grants, hint, onu, alloc_id) {
        None => return None,
        Some(place) => place,
    };
    if place < sums.before.len() {
        let words = u32::from(map.grants[place].words.get());
        Some(sums.before[place].wrapping_add(words))
    } else {
        None
    }
}

// Returns the sum after the grant to an Alloc-ID under an ONU, if the grant is at the hint.
#[inline]
fn sum_at(
    map: &WindowMap,
    sums: &MapSums,
    hint: usize,
    onu: OnuId,
    alloc_id: AllocId,
) -> Option<u32>
    requires { AreInMapOrder map.now.grants }
    ensures { IfSome result (λ sum. sum_after onu alloc_id map.now sums.now ≡ Some sum) }
{
    if hint >= map.grants.len() || hint >= sums.before.len() {
        return None;
    }
    let granted = map.grants[hint];
    if is_to(&granted, onu, alloc_id) {
        Some(sums.before[hint].wrapping_add(u32::from(granted.words.get())))
    } else {
        None
    }
}

// Finds the sum after the last grant to an Alloc-ID under an ONU, by a search from the last map back.
fn search_sum(
    maps: &[WindowMap],
    sums: &[MapSums],
    hint: usize,
    onu: OnuId,
    alloc_id: AllocId,
) -> Option<u32>
    requires as_many { length sums.now ≡ length maps.now }
    requires lawful { All IsLawfulMap maps.now }
    ensures { result ≡ sum_now onu alloc_id maps.now sums.now }
{
    let (map, earlier) = maps.split_last()?;
    let (last, others) = sums.split_last()?;
    match sum_after(map, last, hint, onu, alloc_id) {
        Some(sum) => Some(sum),
        None => search_sum(earlier, others, hint, onu, alloc_id),
    }
}

// The last map of a window, and the sums beside its grants.
#[derive(Clone, Copy)]
struct Last<'a> {
    map: &'a WindowMap,
    sums: &'a MapSums,
}

// Returns the last of these maps with its sums; `None` if there are none.
fn last_of<'a>(maps: &'a [WindowMap], sums: &'a [MapSums]) -> Option<Last<'a>>
    requires as_many { length sums.now ≡ length maps.now }
    requires lawful { All IsLawfulMap maps.now }
    ensures { IfSome result (λ last. IsLast maps.now sums.now last.map.now last.sums.now) }
{
    let (map, _) = maps.split_last()?;
    let (sums, _) = sums.split_last()?;
    Some(Last { map, sums })
}

// Returns the sum after the last grant to an Alloc-ID under an ONU, by a search if the last map lacks it at the hint.
#[inline]
fn sum_from(
    last: Option<Last>,
    maps: &[WindowMap],
    sums: &[MapSums],
    hint: usize,
    onu: OnuId,
    alloc_id: AllocId,
) -> Option<u32>
    requires as_many { length sums.now ≡ length maps.now }
    requires lawful { All IsLawfulMap maps.now }
    requires last { IfSome last (λ l. IsLast maps.now sums.now l.map.now l.sums.now) }
    ensures { result ≡ sum_now onu alloc_id maps.now sums.now }
{
    if let Some(last) = last {
        if let Some(sum) = sum_at(last.map, last.sums, hint, onu, alloc_id) {
            return Some(sum);
        }
    }
    search_sum(maps, sums, hint, onu, alloc_id)
}

// Returns the sum after the last grant to an Alloc-ID under an ONU.
#[inline]
fn sum_now(
    maps: &[WindowMap],
    sums: &[MapSums],
    hint: usize,
    onu: OnuId,
    alloc_id: AllocId,
) -> Option<u32>
    requires as_many { length sums.now ≡ length maps.now }
    requires lawful { All IsLawfulMap maps.now }
    ensures { result ≡ sum_now onu alloc_id maps.now sums.now }
{
    sum_from(last_of(maps, sums), maps, sums, hint, onu, alloc_id)
}

/// Returns the payload words that maps granted to an Alloc-ID under an ONU; the hint is its index among the grants.
pub(crate) fn words_granted(
    maps: &[WindowMap],
    sums: &[MapSums],
    hint: usize,
    onu: OnuId,
    alloc_id: AllocId,
) -> u32
    requires few { length maps.now ≤ MAX_MAPS }
    requires as_many { length sums.now ≡ length maps.now }
    requires lawful { All IsLawfulMap maps.now }
    requires summed { AreSummed maps.now sums.now }
    ensures { result ≡ sum_by (words_to onu alloc_id) maps.now }
{
    let (map, later) = match maps.split_first() {
        None => return 0,
        Some(parts) => parts,
    };
    let (first, others) = match sums.split_first() {
        None => unreachable!(),
        Some(parts) => parts,
    };
    let before = match sum_before(map, first, hint, onu, alloc_id) {
        None => return words_granted(later, others, hint, onu, alloc_id),
        Some(before) => before,
    };
    match sum_now(maps, sums, hint, onu, alloc_id) {
        None => unreachable!(),
        Some(sum) => sum.wrapping_sub(before),
    }
}

/// Computes the sums beside the grants of the next map, in the memory of `room`. `Err` only if memory is refused.
pub(crate) fn next_sums(
    room: MapSums,
    maps: &[WindowMap],
    sums: &[MapSums],
    grants: &[Granted],
) -> Result<MapSums, AllocError>
    requires as_many { length sums.now ≡ length maps.now }
    requires lawful { All IsLawfulMap maps.now }
    ensures sums { IfOk result (λ next. next ≡ sums_beside maps.now sums.now grants.now) }
    ensures small { IfOk result (λ next. All (λ g. g.words ≤ FRAME_WORDS) grants.now) }
{
    let MapSums { mut before } = room;
    before.clear();
    before.reserve(grants.len())?;
    let last = last_of(maps, sums);
    for granted in grants {
        prove!(granted.words.get() <= FRAME_WORDS);
        let hint = before.len();
        let sum = match sum_from(last, maps, sums, hint, granted.onu, granted.alloc_id) {
            Some(sum) => sum,
            None => 0,
        };
        before.push_reserved(sum);
    }
    Ok(MapSums { before })
}

// Returns the words of the grant of a map to an Alloc-ID under an ONU; 0 if the map has no such grant.
fn words_in(map: &WindowMap, hint: usize, onu: OnuId, alloc_id: AllocId) -> u32
    requires { AreInMapOrder map.now.grants }
    ensures value { result ≡ words_to onu alloc_id map.now }
    ensures most { result ≤ FRAME_WORDS }
{
    match place_of_grant(&map.grants, hint, onu, alloc_id) {
        None => 0,
        Some(place) => u32::from(map.grants[place].words.get()),
    }
}

/// Returns the payload words that maps granted to an Alloc-ID under an ONU, by a scan of the maps; the hint is its index
/// among the grants.
pub(crate) fn words_scanned(maps: &[WindowMap], hint: usize, onu: OnuId, alloc_id: AllocId) -> u32
    requires few { length maps.now ≤ MAX_MAPS }
    requires lawful { All IsLawfulMap maps.now }
    ensures value { result ≡ sum_by (words_to onu alloc_id) maps.now }
    ensures most { result ≤ length maps.now * FRAME_WORDS }
{
    match maps.split_first() {
        None => 0,
        Some((map, later)) => {
            words_in(map, hint, onu, alloc_id) + words_scanned(later, hint, onu, alloc_id)
        }
    }
}

// Computes the sums beside the grants of all maps. `Err` only if memory is refused.
fn sums_of(alloc: Global, maps: &[WindowMap]) -> Result<Vec<MapSums>, AllocError>
    requires { All IsLawfulMap maps.now }
    ensures as_many { IfOk result (λ sums. length sums.items ≡ length maps.now) }
    ensures summed { IfOk result (λ sums. AreSummed maps.now sums.items) }
{
    let mut sums = Vec::with_capacity(alloc, maps.len())?;
    for (i, map) in maps.iter().enumerate() {
        let next = next_sums(MapSums::empty(alloc), &maps[..i], &sums, &map.grants)?;
        sums.push(next)?;
    }
    Ok(sums)
}

/// Computes the sums beside the grants of all maps, if there are not as many sums as maps. `Err` only if memory is
/// refused, and then nothing changes.
pub(crate) fn fill_sums(maps: &[WindowMap], sums: &mut Vec<MapSums>) -> Result<(), AllocError>
    requires { length sums.old.items ≢ length maps.now → All IsLawfulMap maps.now }
    ensures as_many { OnOk result (length sums.new.items ≡ length maps.now) }
    ensures same { length sums.old.items ≡ length maps.now → sums.new.items ≡ sums.old.items }
    ensures summed { OnOk result (length sums.old.items ≢ length maps.now
        → AreSummed maps.now sums.new.items) }
    ensures err { OnErr result (sums.new.items ≡ sums.old.items) }
{
    if sums.len() == maps.len() {
        return Ok(());
    }
    *sums = sums_of(*sums.allocator(), maps)?;
    Ok(())
}
