//! The parts of a report book, as a recording has them: the accounts in any order, and the maps of the window.

ghost use Rattle.std.specs.Prelude.{◌≡◌, ◌<◌, ◌+◌, ◌++◌, ◌∷◌, ◌==◌, ◌↔◌, [], length, All, IfOk, IsTrue, MatchOption, OnOk, true};
ghost use Rattle.pon_guar.specs.declared.window.TheConstants.{MAX_MAPS};
ghost use Rattle.std.specs.List.{list_any};
ghost use Rattle.pon_units.specs.Granted.{AreInMapOrder, ComesBefore};
ghost use Rattle.pon_lists.specs.Order.{AreRising};
ghost use Rattle.pon_guar.specs.Window.{AreConsecutive, IsLawfulMap, IsWindow, frame_after};
ghost use Rattle.pon_guar.specs.Parts.{AreApart, book_from};
ghost use Rattle.pon_guar.specs.declared.parts.LoadsFault.TheVariants as fault;

use crate::account::{Account, add_account, index_of};
use crate::window::{MAX_MAPS, Window};
use pon_units::{FrameNo, Granted, OnuId};
use std::alloc::{AllocError, Global};
use std::marker::Model;
use thiserror::Error;

/// A map of a window that is restored.
#[derive(Debug, Drop)]
pub struct MapParts<'a> {
    /// The frame of the map, of 125 µs.
    pub frame: FrameNo,
    /// The grants of the map.
    pub grants: &'a [Granted],
    /// The ONUs that reported for the map, each 0 to 1022.
    pub reported: &'a [OnuId],
}

impl<'a> Model for MapParts<'a> {
    ghost use Rattle.pon_guar.specs.Window.{WindowMap};

    ghost Value = { WindowMap };

    ghost view = { λ m. record {
      frame = m.frame;
      grants = m.grants.now;
      reported = m.reported.now;
    } };
}

/// Why parts do not make a report book.
#[derive(Clone, Copy, Debug, PartialEq, Eq, Error)]
pub enum LoadsFault {
    /// Two accounts are of one Alloc-ID, or the maps are not a window: there are more than 64, their frames are not
    /// consecutive, the grants of one are not in map order, or its reporters are not in ascending ONU-ID or not among
    /// the ONUs that it polls.
    #[error("not the accounts and the window of a port")]
    Unlawful,
    /// Memory was refused.
    #[error("out of memory")]
    Memory,
}

impl From<AllocError> for LoadsFault {
    ghost from_gives = { λ _ e. e ≡ fault.Memory };

    fn from(_e: AllocError) -> LoadsFault {
        LoadsFault::Memory
    }
}

// Returns whether a grant comes before another in map order.
fn comes_before(granted: &Granted, other: &Granted) -> bool
    ensures { IsTrue result ↔ ComesBefore granted.now other.now }
{
    granted.onu < other.onu || (granted.onu == other.onu && granted.alloc_id < other.alloc_id)
}

// Returns whether grants are in map order.
fn are_in_map_order(grants: &[Granted]) -> bool
    ensures { IsTrue result ↔ AreInMapOrder grants.now }
{
    for place in 1..grants.len() {
        if !comes_before(&grants[place - 1], &grants[place]) {
            return false;
        }
    }
    true
}

// Returns whether ONU-IDs are in ascending order.
fn are_rising(onus: &[OnuId]) -> bool
    ensures { IsTrue result ↔ AreRising onus.now }
{
    for place in 1..onus.len() {
        if onus[place - 1] >= onus[place] {
            return false;
        }
    }
    true
}

// Returns whether a grant is to an ONU, by a binary search.
fn is_polled(grants: &[Granted], onu: OnuId) -> bool
    requires { AreInMapOrder grants.now }
    ensures { result ≡ list_any (λ g. g.onu == onu) grants.now }
{
    let below = grants.partition_point(|granted| granted.onu.get() < onu.get());
    let (_, others) = grants.split_at(below);
    match others.split_first() {
        Some((first, _)) => first.onu == onu,
        None => false,
    }
}

// Returns whether each ONU is polled.
fn are_polled(grants: &[Granted], onus: &[OnuId]) -> bool
    requires { AreInMapOrder grants.now }
    ensures { IsTrue result ↔ All (λ u. list_any (λ g. g.onu == u) grants.now ≡ true) onus.now }
{
    for onu in onus {
        if !is_polled(grants, *onu) {
            return false;
        }
    }
    true
}

// Returns whether a map may stand in a window.
fn is_lawful_map(map: &MapParts<'_>) -> bool
    ensures { IsTrue result ↔ IsLawfulMap map.now }
{
    if !are_in_map_order(map.grants) {
        return false;
    }
    if !are_rising(map.reported) {
        return false;
    }
    are_polled(map.grants, map.reported)
}

// Returns whether each map may stand in a window.
fn are_lawful_maps(maps: &[MapParts<'_>]) -> bool
    ensures { IsTrue result ↔ All IsLawfulMap maps.now }
{
    for map in maps {
        if !is_lawful_map(map) {
            return false;
        }
    }
    true
}

// Returns whether the frame of a map is that of another plus 1.
fn follows(last: &MapParts<'_>, map: &MapParts<'_>) -> bool
    ensures { IsTrue result ↔ (last.now.frame + 1 ≡ map.now.frame) }
{
    let (frame, next) = (last.frame.get(), map.frame.get());
    frame < next && next - frame == 1
}

// Returns whether the frames of maps are consecutive.
fn are_consecutive(maps: &[MapParts<'_>]) -> bool
    ensures { IsTrue result ↔ AreConsecutive (frame_after maps.now) maps.now }
{
    for place in 1..maps.len() {
        let (last, map) = (&maps[place - 1], &maps[place]);
        if !follows(last, map) {
            return false;
        }
    }
    true
}

/// Returns whether maps are a window.
pub(crate) fn is_window(maps: &[MapParts<'_>]) -> bool
    ensures { IsTrue result ↔ IsWindow maps.now }
{
    maps.len() <= MAX_MAPS && are_consecutive(maps) && are_lawful_maps(maps)
}

// Adds a copy of a map to a window. `Err` only if memory is refused.
fn restore_map(alloc: Global, window: &mut Window, map: &MapParts<'_>) -> Result<(), AllocError>
    requires room { length window.old < MAX_MAPS }
    requires next { AreConsecutive map.now.frame window.old }
    requires lawful { IsLawfulMap map.now }
    ensures { OnOk result (window.new ≡ window.old ++ map.now ∷ []) }
{
    let grants = Vec::from_slice(alloc, map.grants)?;
    let reported = Vec::from_slice(alloc, map.reported)?;
    window.restore(map.frame, grants, reported)
}

/// Makes a window of copies of maps. `Err` only if memory is refused.
pub(crate) fn restore_window(alloc: Global, maps: &[MapParts<'_>]) -> Result<Window, AllocError>
    requires { IsWindow maps.now }
    ensures { IfOk result (λ window. window ≡ maps.now) }
{
    let mut window = Window::open(alloc);
    for map in maps {
        restore_map(alloc, &mut window, map)?;
    }
    Ok(window)
}

/// Makes the accounts in ascending Alloc-ID; `None` if two are of one Alloc-ID. `Err` only if memory is refused.
pub(crate) fn in_ascending_order(
    alloc: Global,
    accounts: &[Account],
) -> Result<Option<Vec<Account>>, AllocError>
    ensures { IfOk result (λ found. MatchOption found
        (AreApart accounts.now → ⊥)
        (λ book. AreApart accounts.now × (book.items ≡ book_from accounts.now))) }
{
    let mut book = Vec::with_capacity(alloc, accounts.len())?;
    let mut place = accounts.len();
    while place > 0 {
        place -= 1;
        let account = accounts[place];
        if index_of(&book, account.alloc_id).is_some() {
            return Ok(None);
        }
        book.reserve(1)?;
        add_account(&mut book, account);
    }
    Ok(Some(book))
}
