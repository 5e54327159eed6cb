//! A map of the window.

ghost use Rattle.std.specs.Prelude.{◌≡◌, ◌<◌, ◌≤◌, ◌==◌, [], All, nat_lt, not, true, false, drop, filter, take, length, IfOk, OnOk, OnErr};
ghost use Rattle.std.specs.List.{list_any, position, position_or_len};
ghost use Rattle.pon_units.specs.Granted.{AreInMapOrder};
ghost use Rattle.pon_lists.specs.Order.{AreRising, with_number};
ghost use Rattle.pon_guar.specs.Window.{IsLawfulMap};

use pon_units::{FrameNo, Granted, OnuId};
use std::alloc::{AllocError, Global};
use std::marker::Model;

/// A map whose reports may still come: its frame, its grants in map order, and the ONUs that reported.
#[derive(Debug, Drop)]
pub struct WindowMap {
    pub(crate) frame: FrameNo,
    pub(crate) grants: Vec<Granted>,
    pub(crate) reported: Vec<OnuId>,
}

impl Model for WindowMap {
    ghost use Rattle.pon_guar.specs.Window.{WindowMap};

    ghost Value = { WindowMap };

    ghost view = { λ a. record {
      frame = a.frame;
      grants = a.grants.items;
      reported = a.reported.items;
    } };
}

/// The grants of a map to an ONU.
#[derive(Clone, Copy, Debug)]
pub struct OnuGrants<'a> {
    /// The index of the first of them in the map, a hint for callers: no clause of [`WindowMap::series`] states it.
    pub first: usize,
    /// The grants, in map order.
    pub grants: &'a [Granted],
}

// Returns the index of the first grant that is not to an ONU.
fn first_other(grants: &[Granted], onu: OnuId) -> Option<usize>
    ensures { result ≡ position (λ g. not (g.onu == onu)) grants.now }
{
    grants.iter().position(|granted| granted.onu != onu)
}

// Returns the number of leading grants that are to an ONU.
fn series_len(grants: &[Granted], onu: OnuId) -> usize
    ensures len { result ≡ position_or_len (λ g. not (g.onu == onu)) grants.now }
    ensures within { result ≤ length grants.now }
{
    match first_other(grants, onu) {
        Some(len) => len,
        None => grants.len(),
    }
}

// Returns whether the grants to an ONU begin at an index.
fn begins_at(grants: &[Granted], index: usize, onu: OnuId) -> bool
    requires { AreInMapOrder grants.now }
    ensures { result ≡ true → (index ≤ length grants.now)
        × (drop index grants.now ≡ filter (λ g. not (nat_lt g.onu onu)) grants.now) }
{
    if index >= grants.len() || grants[index].onu != onu {
        return false;
    }
    index == 0 || grants[index - 1].onu != onu
}

// Returns the number of grants to smaller ONU-IDs: the hint if the grants to the ONU begin there, otherwise by a binary
// search.
fn count_below(grants: &[Granted], hint: usize, onu: OnuId) -> usize
    requires { AreInMapOrder grants.now }
    ensures within { result ≤ length grants.now }
    ensures others { drop result grants.now ≡ filter (λ g. not (nat_lt g.onu onu)) grants.now }
{
    if begins_at(grants, hint, onu) {
        return hint;
    }
    grants.partition_point(|granted| granted.onu.get() < onu.get())
}

/// Finds the grants to an ONU: the first at the hint or by a binary search, the number of the others by a scan from it.
pub(crate) fn series_of(grants: &[Granted], hint: usize, onu: OnuId) -> OnuGrants<'_>
    requires { AreInMapOrder grants.now }
    ensures within { result.first ≤ length grants.now }
    ensures placed { result.grants.now
        ≡ take (length result.grants.now) (drop result.first grants.now) }
    ensures grants { result.grants.now ≡ filter (λ g. g.onu == onu) grants.now }
{
    let first = count_below(grants, hint, onu);
    let (_, others) = grants.split_at(first);
    let (own, _) = others.split_at(series_len(others, onu));
    OnuGrants { first, grants: own }
}

// Returns whether all ONU-IDs are smaller, as they are if there is none.
fn are_below(onus: &[OnuId], onu: OnuId) -> bool
    requires { AreRising onus.now }
    ensures { result ≡ true → All (λ v. v < onu) onus.now }
{
    match onus.split_last() {
        Some((greatest, _)) => greatest.get() < onu.get(),
        None => true,
    }
}

// Returns the number of smaller ONU-IDs: at once if all are smaller, since ONUs often report in order, otherwise by a
// binary search.
fn place_among(onus: &[OnuId], onu: OnuId) -> usize
    requires { AreRising onus.now }
    ensures within { result ≤ length onus.now }
    ensures below { take result onus.now ≡ filter (λ v. nat_lt v onu) onus.now }
    ensures others { drop result onus.now ≡ filter (λ v. not (nat_lt v onu)) onus.now }
{
    if are_below(onus, onu) {
        return onus.len();
    }
    onus.partition_point(|reporter| reporter.get() < onu.get())
}

// Returns whether an ONU-ID is among those in ascending order, by a binary search.
fn is_among(onus: &[OnuId], onu: OnuId) -> bool
    requires { AreRising onus.now }
    ensures { result ≡ list_any (λ v. v == onu) onus.now }
{
    let (_, others) = onus.split_at(place_among(onus, onu));
    match others.split_first() {
        Some((least, _)) => *least == onu,
        None => false,
    }
}

// Inserts an ONU-ID in ascending order. `Err` only if memory is refused, and then nothing changes.
fn add_onu(onus: &mut Vec<OnuId>, onu: OnuId) -> Result<(), AllocError>
    requires { AreRising onus.old.items }
    ensures ok { OnOk result (onus.new.items ≡ with_number onu onus.old.items) }
    ensures err { OnErr result (onus.new.items ≡ onus.old.items) }
{
    onus.reserve(1)?;
    let place = place_among(onus.as_slice(), onu);
    onus.insert(place, onu).unwrap();
    Ok(())
}

impl WindowMap {
    ghost use Rattle.pon_guar.specs.Window.{onus_polled};
    ghost use Rattle.pon_guar.specs.ReportChecks.{with_report};

    /// A map of no grants.
    pub(crate) fn empty(alloc: Global, frame: FrameNo) -> WindowMap
        ensures { result ≡ record { frame = frame; grants = []; reported = [] } }
    {
        WindowMap {
            frame,
            grants: Vec::new(alloc),
            reported: Vec::new(alloc),
        }
    }

    /// Frame of the map.
    pub fn frame(&self) -> FrameNo
        ensures { result ≡ self.now.frame }
    {
        self.frame
    }

    /// Grants of the map, in map order.
    pub fn grants(&self) -> &[Granted]
        ensures { result.now ≡ self.now.grants }
    {
        &self.grants
    }

    /// ONUs that reported for the map, in ascending ONU-ID.
    pub fn reported(&self) -> &[OnuId]
        ensures { result.now ≡ self.now.reported }
    {
        &self.reported
    }

    /// Makes an equal map.
    ///
    /// # Errors
    ///
    /// `AllocError` only if memory is refused.
    pub fn try_copy(&self, alloc: Global) -> Result<WindowMap, AllocError>
        ensures { IfOk result (λ map. map ≡ self.now) }
    {
        Ok(WindowMap {
            frame: self.frame,
            grants: Vec::from_slice(alloc, &self.grants)?,
            reported: Vec::from_slice(alloc, &self.reported)?,
        })
    }

    /// Finds the grants to an ONU, and the index of the first: at once if it is the hint, otherwise by a binary search.
    /// There are none if the map grants the ONU nothing.
    pub fn series(&self, hint: usize, onu: OnuId) -> OnuGrants<'_>
        requires { AreInMapOrder self.now.grants }
        ensures within { result.first ≤ length self.now.grants }
        ensures grants { result.grants.now ≡ filter (λ g. g.onu == onu) self.now.grants }
    {
        series_of(&self.grants, hint, onu)
    }

    /// Returns whether an ONU reported for the map.
    pub(crate) fn has_reported(&self, onu: OnuId) -> bool
        requires { IsLawfulMap self.now }
        ensures { result ≡ list_any (λ v. v == onu) self.now.reported }
    {
        is_among(self.reported(), onu)
    }

    /// Notes that an ONU reported. `Err` only if memory is refused, and then nothing changes.
    pub(crate) fn note(&mut self, onu: OnuId) -> Result<(), AllocError>
        requires lawful { IsLawfulMap self.old }
        requires polled { list_any (λ v. v == onu) (onus_polled self.old) ≡ true }
        requires first { list_any (λ v. v == onu) self.old.reported ≡ false }
        ensures ok { OnOk result (self.new ≡ with_report self.old.frame onu self.old) }
        ensures err { OnErr result (self.new ≡ self.old) }
    {
        add_onu(&mut self.reported, onu)?;
        Ok(())
    }
}
