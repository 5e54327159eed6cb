//! The maps of one Alloc-ID along the frames.

ghost use Rattle.std.specs.Prelude.{◌≡◌, [], OnErr, OnOk, option_to_list};
ghost use Rattle.pon_why.specs.Followings.{map_of, with_maps};

use crate::rates::RowRates;
use crate::sums::{Sums, amounts_of};
use pon_bwmap::Alloc;
use pon_units::{AllocId, FrameNo};
use std::alloc::{AllocError, Global};
use std::marker::Model;

/// What the map of a frame gives the Alloc-ID.
#[derive(Clone, Copy, Debug, PartialEq, Eq)]
pub struct FollowedMap {
    /// The frame of the map, of 125 µs.
    pub frame: FrameNo,
    /// The sums over this map alone.
    pub sums: Sums,
}

// Returns what the map of a frame gives an Alloc-ID: the rows and their structures, in map order. `None` if the map
// does not have it.
fn map_of(
    alloc_id: AllocId,
    frame: FrameNo,
    rows: &[RowRates],
    structures: &[Alloc],
) -> Option<FollowedMap>
    ensures { result ≡ map_of alloc_id frame rows.now structures.now }
{
    for (index, row) in rows.iter().enumerate() {
        if row.alloc_id == alloc_id {
            let sums = amounts_of(row, structures.get(index)?);
            return Some(FollowedMap { frame, sums });
        }
    }
    None
}

/// An Alloc-ID, and what maps give it, in their order.
#[derive(Drop)]
pub struct Followed {
    alloc_id: AllocId,
    maps: Vec<FollowedMap>,
}

impl Model for Followed {
    ghost use Rattle.pon_why.specs.Followings.{Following};

    ghost Value = { Following };

    ghost view = { λ f. record { alloc_id = f.alloc_id; maps = f.maps.items } };
}

impl Followed {
    /// Follows an Alloc-ID from the next map on.
    pub fn new(alloc: Global, alloc_id: AllocId) -> Followed
        ensures { result ≡ record { alloc_id = alloc_id; maps = [] } }
    {
        Followed {
            alloc_id,
            maps: Vec::new(alloc),
        }
    }

    /// The maps, in their order.
    pub fn maps(&self) -> &[FollowedMap]
        ensures { result.now ≡ self.now.maps }
    {
        self.maps.as_slice()
    }

    /// Forgets the maps so far.
    pub fn clear(&mut self)
        ensures { self.new ≡ record { alloc_id = self.old.alloc_id; maps = [] } }
    {
        self.maps.clear();
    }

    /// Adds the map of a frame, if it has the Alloc-ID: the rows and their structures, in map order.
    ///
    /// # Errors
    ///
    /// `AllocError` only if memory is refused.
    pub fn add_map(
        &mut self,
        frame: FrameNo,
        rows: &[RowRates],
        structures: &[Alloc],
    ) -> Result<(), AllocError>
        ensures ok { OnOk result (self.new ≡ with_maps self.old
            (option_to_list (map_of self.old.alloc_id frame rows.now structures.now))) }
        ensures err { OnErr result (self.new ≡ self.old) }
    {
        if let Some(map) = map_of(self.alloc_id, frame, rows, structures) {
            self.maps.push(map)?;
        }
        Ok(())
    }

    /// Adds later maps.
    ///
    /// # Errors
    ///
    /// `AllocError` only if memory is refused.
    pub fn add_all(&mut self, others: &Followed) -> Result<(), AllocError>
        ensures ok { OnOk result (self.new ≡ with_maps self.old others.now.maps) }
        ensures err { OnErr result (self.new ≡ self.old) }
    {
        self.maps.extend_from_slice(&others.maps)
    }
}
