ghost use Rattle.std.specs.Prelude.{◌≡◌, ◌≢◌, ◌≤◌, ◌++◌, ℕ, List, [], length, take, drop, OnOk, OnErr};
ghost use Rattle.pon_device.specs.Device.{Appends, CountsFailure};
ghost use Rattle.pon_link.specs.DownRecords.{down_bytes, IsDownRecord};

use crate::form::DOWN_TAG;
use pon_bwmap::{Map, write_map};
use pon_device::DevWrite;
use pon_units::{FrameNo, MAX_STRUCTURES};
use std::marker::Model;
use thiserror::Error;

/// Number of bytes of the longest downstream record, with 512 structures.
const LONGEST: usize = 4109;

/// The previous record is not written whole yet.
#[derive(Clone, Copy, Debug, PartialEq, Eq, Error)]
#[error("the previous record is not written whole")]
pub struct Busy;

/// The device failed in this call.
#[derive(Clone, Copy, Debug, PartialEq, Eq, Error)]
#[error("the device failed")]
pub struct Device;

/// A writer of downstream records: it holds the remaining bytes of one record, at most 4,109, until a device has
/// written them. It allocates no memory.
#[derive(Drop)]
pub struct DownWriter {
    bytes: [u8; LONGEST],
    begin: usize,
    end: usize,
}

impl Model for DownWriter {
    ghost use Rattle.std.specs.Prelude.{◌≤◌, ℕ, List, slice_range};

    ghost Value = { List ℕ };

    ghost view = { λ s. slice_range s.bytes s.begin s.end };

    ghost invariant = { λ s. (s.begin ≤ s.end) × (s.end ≤ 4109) };
}

impl DownWriter {
    /// Makes a writer that has nothing to write.
    pub fn new() -> Self
        ensures { result ≡ [] }
    {
        DownWriter {
            bytes: [0; LONGEST],
            begin: 0,
            end: 0,
        }
    }

    /// Encodes the record of the frame and its map, to be written next. The record is a tag byte, the frame in 8 bytes,
    /// the most significant first, and the bytes of the map. A reader decodes them to this record.
    ///
    /// # Errors
    ///
    /// `Busy` exactly when bytes of the previous record remain; then the writer is unchanged.
    pub fn put(&mut self, frame: FrameNo, map: &Map) -> Result<(), Busy>
        ensures ok { OnOk result ((self.old ≡ []) × (self.new ≡ down_bytes frame map.now)) }
        ensures reads { OnOk result (IsDownRecord self.new record {
          frame = frame;
          map = map.now;
        }) }
        ensures busy { OnErr result ((self.old ≢ []) × (self.new ≡ self.old)) }
    {
        if self.begin < self.end {
            return Err(Busy);
        }
        self.begin = 0;
        self.end = write_record(frame, map, &mut self.bytes);
        Ok(())
    }

    /// Writes the remaining bytes, in as many writes as the device needs.
    ///
    /// # Errors
    ///
    /// `Device` exactly when the device failed in this call. The bytes that it had not written remain, and can be
    /// pushed again.
    pub fn push<W: DevWrite>(&mut self, writer: &mut W) -> Result<(), Device>
        ensures sent { (sent : List ℕ) × Appends (W.contents writer.old)
            (W.contents writer.new) sent × (sent ++ self.new ≡ self.old) }
        ensures ok { OnOk result (self.new ≡ []) }
        ensures failures { CountsFailure (W.failures writer.old) (W.failures writer.new) result }
        ensures idle { self.old ≡ [] → writer.new ≡ writer.old }
    {
        while !self.left().is_empty() {
            match writer.write(self.left()) {
                Ok(n) => self.went_out(n),
                Err(_) => return Err(Device),
            }
        }
        Ok(())
    }

    /// Remaining bytes, in order.
    pub fn left(&self) -> &[u8]
        ensures { result.now ≡ self.now }
    {
        &self.bytes[self.begin..self.end]
    }

    // Removes the first `n` remaining bytes, which are written.
    fn went_out(&mut self, n: usize)
        requires { n ≤ length self.old }
        ensures { self.new ≡ drop n self.old }
    {
        self.begin += n;
    }
}

// Writes the record to the front of `room`, and returns the number of its bytes.
fn write_record(frame: FrameNo, map: &Map, room: &mut [u8]) -> usize
    requires { length room.old ≡ 4109 }
    ensures count { result ≤ 4109 }
    ensures bytes { take result room.new ≡ down_bytes frame map.now }
    ensures reads { IsDownRecord (down_bytes frame map.now) record {
      frame = frame;
      map = map.now;
    } }
{
    let rows = map.rows();
    prove!(rows.len() <= MAX_STRUCTURES);
    room[0] = DOWN_TAG;
    room[1..9].copy_from_slice(&frame.get().to_be_bytes());
    9 + write_map(map, &mut room[9..])
}
