ghost use Rattle.std.specs.Prelude.{◌≡◌, ◌<◌, ◌≤◌, ◌+◌, ◌-◌, [], drop, length, vec_len, vec_capacity, All, IfOk, OnOk};
ghost use Rattle.pon_units.specs.declared.limits.TheConstants.{FRAME_WORDS};
ghost use Rattle.pon_guar.specs.Sums.{IsKeptWindow, sums_beside};

use crate::map::WindowMap;
use crate::place::place_of;
use crate::reports::{Accepted, accept_report, note_report};
use crate::sums::{MapSums, fill_sums, next_sums, words_granted, words_scanned};
use pon_descr::Refusal;
use pon_units::{AllocId, FrameNo, Granted, OnuId};
use std::alloc::{AllocError, Global};
use std::marker::Model;
use std::mem;

/// The greatest number of maps in a window.
pub const MAX_MAPS: usize = 64;

/// The window of a port: its last maps, at most 64, for which reports may still come.
///
/// Contracts see it as the list of its maps, the oldest first. The type's invariant is that their frames are
/// consecutive, that the grants of each are in map order, and that each ONU that reported was polled.
#[derive(Drop)]
pub struct Window {
    // The maps of the window are those from `past` on, so that a map that leaves the window moves no other.
    maps: Vec<WindowMap>,
    // The running sums of each map. A copy of a window has none until a map is added.
    sums: Vec<MapSums>,
    past: usize,
    // Index after the grants of the ONU that reported last, where those of the next reporter often begin: a hint.
    next: usize,
    // The sums of the map that left last: their memory is for those of the next map.
    spare: MapSums,
}

impl Model for Window {
    ghost use Rattle.std.specs.Prelude.{List, drop};
    ghost use Rattle.pon_guar.specs.Window.{WindowMap};
    ghost use Rattle.pon_guar.specs.Sums.{IsKeptWindow};

    ghost Value = { List WindowMap };

    ghost view = { λ w. drop w.past w.maps.items };

    ghost invariant = { λ w. IsKeptWindow w.past w.maps.items w.sums.items };
}

// Makes equal maps. `Err` only if memory is refused.
fn copy_maps(alloc: Global, window: &[WindowMap]) -> Result<Vec<WindowMap>, AllocError>
    ensures { IfOk result (λ copy. copy.items ≡ window.now) }
{
    let mut maps = Vec::with_capacity(alloc, window.len())?;
    for map in window {
        maps.push(map.try_copy(alloc)?)?;
    }
    Ok(maps)
}

// Returns the elements from an index on.
fn from_index<T>(items: &[T], past: usize) -> &[T]
    requires { past ≤ length items.now }
    ensures { result.now ≡ drop past items.now }
{
    let (_, rest) = items.split_at(past);
    rest
}

// Drops the elements before an index.
fn drop_front<T: Drop>(items: &mut Vec<T>, past: usize)
    requires { past ≤ length items.old.items }
    ensures { items.new.items ≡ drop past items.old.items }
{
    let left = items.len() - past;
    items.rotate_left(past);
    items.truncate(left);
}

// Returns the number of kept maps before those of the window, after a map is added to a window of `len` maps.
fn past_after(past: usize, len: usize) -> usize
    requires few { len ≤ MAX_MAPS }
    requires fits { past + len ≤ usize.MAX }
    ensures { result ≡ past + (len + 1 - MAX_MAPS) }
{
    if len < MAX_MAPS { past } else { past + 1 }
}

// Replaces the element at an index by an empty one, if it is before the window, and returns it; otherwise returns the
// empty one.
fn take_out<T: Drop>(items: &mut Vec<T>, oldest: usize, past: usize, empty: T) -> T
    ensures window { drop past items.new.items ≡ drop past items.old.items }
    ensures len { length items.new.items ≡ length items.old.items }
{
    if oldest < past && oldest < items.len() {
        return mem::replace(&mut items[oldest], empty);
    }
    empty
}

// Drops the maps before an index with their sums if they are [`MAX_MAPS`] or more, and returns the index that is left.
fn drop_past(maps: &mut Vec<WindowMap>, sums: &mut Vec<MapSums>, past: usize) -> usize
    requires within { past ≤ length maps.old.items }
    requires as_many { length sums.old.items ≡ length maps.old.items }
    ensures within { result ≤ length maps.new.items }
    ensures as_many { length sums.new.items ≡ length maps.new.items }
    ensures maps { drop result maps.new.items ≡ drop past maps.old.items }
    ensures sums { drop result sums.new.items ≡ drop past sums.old.items }
{
    if past < MAX_MAPS {
        return past;
    }
    drop_front(maps, past);
    drop_front(sums, past);
    0
}

// Reserves room for a map and its sums after the kept maps, whose sums it fills. Returns the sums beside the grants of
// the map, in the memory of `room`. `Err` only if memory is refused.
fn prepare_next(
    maps: &mut Vec<WindowMap>,
    sums: &mut Vec<MapSums>,
    past: usize,
    room: MapSums,
    grants: &[Granted],
) -> Result<MapSums, AllocError>
    requires { IsKeptWindow past maps.old.items sums.old.items }
    ensures maps { maps.new.items ≡ maps.old.items }
    ensures kept { IsKeptWindow past maps.old.items sums.new.items }
    ensures as_many { OnOk result (length sums.new.items ≡ length maps.old.items) }
    ensures room_for_map { OnOk result (vec_len maps.new < vec_capacity maps.new) }
    ensures room_for_sums { OnOk result (vec_len sums.new < vec_capacity sums.new) }
    ensures next { IfOk result (λ next. next
        ≡ sums_beside (drop past maps.old.items) (drop past sums.new.items) grants.now) }
    ensures small { OnOk result (All (λ g. g.words ≤ FRAME_WORDS) grants.now) }
{
    fill_sums(maps, sums)?;
    maps.reserve(1)?;
    sums.reserve(1)?;
    next_sums(room, from_index(maps, past), from_index(sums, past), grants)
}

impl Window {
    ghost use Rattle.std.specs.Prelude.{◌++◌, ◌∷◌, ℕ, None, Some, false, map, sum_by, IfSome, IfErr, OnErr};
    ghost use Rattle.std.specs.List.{list_any};
    ghost use Rattle.pon_units.specs.Granted.{AreInMapOrder};
    ghost use Rattle.pon_guar.specs.Window.{IsLawfulMap, IsPlaceOf, IsWindow, AreConsecutive, is_of, latest_grants, with_map, words_to};
    ghost use Rattle.pon_guar.specs.AcceptedReports.{IsAccepted};
    ghost use Rattle.pon_guar.specs.ReportChecks.{refuses_report, with_report};

    /// Makes a window of no maps. It allocates no memory; maps added later use this allocator.
    pub fn open(alloc: Global) -> Window
        ensures { result ≡ [] }
    {
        Window {
            maps: Vec::new(alloc),
            sums: Vec::new(alloc),
            past: 0,
            next: 0,
            spare: MapSums::empty(alloc),
        }
    }

    /// Makes an equal window. It has no running sums: the words of its maps are counted by a scan until a map is added.
    ///
    /// # Errors
    ///
    /// `AllocError` only if memory is refused.
    pub fn try_copy(&self, alloc: Global) -> Result<Window, AllocError>
        ensures { IfOk result (λ window. window ≡ self.now) }
    {
        Ok(Window {
            maps: copy_maps(alloc, self.maps())?,
            sums: Vec::new(alloc),
            past: 0,
            next: 0,
            spare: MapSums::empty(alloc),
        })
    }

    /// Maps, the oldest first: at most 64, with consecutive frames.
    pub fn maps(&self) -> &[WindowMap]
        ensures value { result.now ≡ self.now }
        ensures lawful { IsWindow self.now }
    {
        from_index(&self.maps, self.past)
    }

    /// Grants of the last map, in map order; none if the window is empty.
    pub fn latest_grants(&self) -> &[Granted]
        ensures { result.now ≡ latest_grants self.now }
    {
        match self.maps().split_last() {
            None => &[],
            Some((latest, _)) => latest.grants(),
        }
    }

    /// Returns the index of the map of a frame; `None` if no map is of it.
    pub fn place_of(&self, frame: FrameNo) -> Option<usize>
        ensures none { result ≡ None → list_any (is_of frame) self.now ≡ false }
        ensures some { IfSome result (IsPlaceOf frame self.now) }
    {
        place_of(self.maps(), frame)
    }

    /// Returns the payload words that the maps from an index on granted to an Alloc-ID under an ONU. The hint is an
    /// index among the grants of a map; a map that has the Alloc-ID there is not searched.
    pub fn words_since(&self, place: usize, hint: usize, onu: OnuId, alloc_id: AllocId) -> u32
        requires { place ≤ length self.now }
        ensures { result ≡ sum_by (words_to onu alloc_id) (drop place self.now) }
    {
        let first = self.past + place;
        let maps = from_index(&self.maps, first);
        if self.sums.len() != self.maps.len() {
            return words_scanned(maps, hint, onu, alloc_id);
        }
        let sums = from_index(&self.sums, first);
        words_granted(maps, sums, hint, onu, alloc_id)
    }

    /// Accepts an ONU's report of `count` occupancies for the map of a frame.
    ///
    /// # Errors
    ///
    /// The first check that refuses the report, in this order. `StaleFrame` if no map of the window is of the frame,
    /// `NotPolled` if that map grants the ONU nothing. `ReportCount` if the map has another number of structures for
    /// the ONU, `AlreadyReported` if a report of the ONU for the map was taken.
    pub fn accept(&self, frame: FrameNo, onu: OnuId, count: usize) -> Result<Accepted, Refusal>
        ensures ok { IfOk result (IsAccepted self.now frame onu count) }
        ensures refused { IfErr result (λ refusal. refuses_report self.now frame onu count
            ≡ Some refusal) }
    {
        accept_report(self.maps(), self.next, frame, onu, count)
    }

    /// Keeps the index after the grants of an ONU that reported, where those of the next reporter may begin: a hint,
    /// which may be any index.
    pub fn hint_next(&mut self, index: usize)
        ensures { self.new ≡ self.old }
    {
        self.next = index;
    }

    /// Notes that an ONU reported for a map.
    ///
    /// # Errors
    ///
    /// `AllocError` only if memory is refused; then nothing changes.
    pub fn note_report(&mut self, report: &Accepted) -> Result<(), AllocError>
        requires accepted { (count : ℕ)
            × IsAccepted self.old report.now.frame report.now.onu count report.now }
        ensures ok { OnOk result (self.new
            ≡ map (with_report report.now.frame report.now.onu) self.old) }
        ensures err { OnErr result (self.new ≡ self.old) }
    {
        note_report(
            &mut self.maps,
            self.past,
            report.map,
            report.frame,
            report.onu,
        )?;
        Ok(())
    }

    /// Adds the map of a frame, and drops the oldest if there are then more than 64. The grants must be in map order,
    /// and the frame must be the frame of the last map plus 1, or any if the window is empty. Returns a vector for the
    /// grants of a later map: it has the memory of the grants of the map that left, if one did, and no clause states
    /// its content.
    ///
    /// # Errors
    ///
    /// `AllocError` only if memory is refused; then nothing changes.
    pub fn add(&mut self, frame: FrameNo, grants: Vec<Granted>) -> Result<Vec<Granted>, AllocError>
        requires next { AreConsecutive frame self.old }
        requires map_order { AreInMapOrder grants.items }
        ensures ok { OnOk result (self.new ≡ with_map frame grants.items self.old) }
        ensures latest { OnOk result (latest_grants self.new ≡ grants.items) }
        ensures err { OnErr result (self.new ≡ self.old) }
    {
        let alloc = *self.maps.allocator();
        let past = past_after(self.past, from_index(&self.maps, self.past).len());
        let room = mem::replace(&mut self.spare, MapSums::empty(alloc));
        let next = prepare_next(&mut self.maps, &mut self.sums, self.past, room, &grants)?;
        let reported = Vec::new(alloc);
        self.maps.push_reserved(WindowMap {
            frame,
            grants,
            reported,
        });
        self.sums.push_reserved(next);
        let oldest = self.past;
        let left = take_out(&mut self.maps, oldest, past, WindowMap::empty(alloc, frame));
        self.spare = take_out(&mut self.sums, oldest, past, MapSums::empty(alloc));
        self.past = drop_past(&mut self.maps, &mut self.sums, past);
        let WindowMap { grants, .. } = left;
        Ok(grants)
    }

    /// Adds a map with the ONUs that reported for it, as a recorded window has it, in whole. The window must have room
    /// for it, and it must be lawful. Its frame must be the frame of the last map plus 1, or any if the window is
    /// empty.
    ///
    /// # Errors
    ///
    /// `AllocError` only if memory is refused; then nothing changes.
    pub fn restore(
        &mut self,
        frame: FrameNo,
        grants: Vec<Granted>,
        reported: Vec<OnuId>,
    ) -> Result<(), AllocError>
        requires room { length self.old < MAX_MAPS }
        requires next { AreConsecutive frame self.old }
        requires lawful { IsLawfulMap (record {
          frame = frame;
          grants = grants.items;
          reported = reported.items;
        }) }
        ensures ok { OnOk result (self.new ≡ self.old
            ++ record { frame = frame; grants = grants.items; reported = reported.items } ∷ []) }
        ensures err { OnErr result (self.new ≡ self.old) }
    {
        let alloc = *self.maps.allocator();
        let room = MapSums::empty(alloc);
        let next = prepare_next(&mut self.maps, &mut self.sums, self.past, room, &grants)?;
        self.maps.push_reserved(WindowMap {
            frame,
            grants,
            reported,
        });
        self.sums.push_reserved(next);
        Ok(())
    }

    /// Drops all maps.
    pub fn clear(&mut self)
        ensures { self.new ≡ [] }
    {
        self.maps.clear();
        self.sums.clear();
        self.past = 0;
    }
}
