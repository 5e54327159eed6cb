ghost use Rattle.std.specs.Prelude.{◌≡◌, ◌<◌, ◌≤◌, ℕ, length, take};
ghost use Rattle.pon_device.specs.Device.{CountsCall};
ghost use Rattle.pon_lists.specs.Bytes.{AreBytes};
ghost use Rattle.pon_link.specs.declared.fault.LinkFault.{LinkFault};
ghost use Rattle.pon_link.specs.DownRecords.{GivesDown};
ghost use Rattle.pon_link.specs.Reading.{empty, IsOpen, HasFault, IsWithinRecord, Pulls, CountsDevice, holds_more};

use crate::decode_down::decode_down;
use crate::direction::Direction;
use crate::fault::DownFault;
use crate::held::RecordBuffer;
use crate::pull::{PullFault, Pulled};
use crate::record::DownRecord;
use pon_device::DevRead;
use std::alloc::Global;
use std::marker::Model;

/// A reader of downstream records, which takes their bytes in pieces of any size. It holds the bytes of the present
/// record, at most 4,109, and allocates memory only for the map that [`DownReader::next`] returns.
#[derive(Drop)]
pub struct DownReader {
    reading: RecordBuffer<4109>,
    alloc: Global,
}

impl Model for DownReader {
    ghost use Rattle.std.specs.Prelude.{◌≡◌};
    ghost use Rattle.pon_link.specs.Reading.{ReaderState};
    ghost use Rattle.pon_link.specs.declared.direction.Direction.{Direction};
    ghost use Rattle.pon_link.specs.declared.direction.Direction.TheVariants.{Down};

    ghost Value = { ReaderState };

    ghost view = { λ s. s.reading };

    ghost invariant = { λ s. s.reading.direction ≡ Down };
}

impl DownReader {
    /// Makes a reader that holds no bytes, and allocates maps from `alloc`.
    pub fn new(alloc: Global) -> Self
        ensures { result ≡ empty Direction.Down }
    {
        DownReader {
            reading: RecordBuffer::new(Direction::Down),
            alloc,
        }
    }

    /// Takes bytes from the front of the piece until one record is whole, a fault is found or the piece ends, and
    /// returns their number. It takes none while a whole record is held for [`DownReader::next`], and none after a
    /// fault.
    pub fn feed(&mut self, piece: &[u8]) -> usize
        ensures count { result ≤ length piece.now }
        ensures held { self.new ≡ holds_more self.old (take result piece.now) }
        ensures while_open { (k : ℕ) → k < result
            → IsOpen (holds_more self.old (take k piece.now)) }
        ensures stops { result < length piece.now → IsOpen self.new → ⊥ }
    {
        self.reading.feed(piece)
    }

    /// Returns the record and clears the reader if a whole record is held; `None` if the held bytes are a prefix of a
    /// record.
    ///
    /// # Errors
    ///
    /// `BadTag` as soon as the first byte is held and is not the tag. `BadMap` as soon as the head of the map is held
    /// and is refused, or announces messages or more than 512 structures, and if the whole map is refused. `Truncated`
    /// if the input ended inside the record. Every later call returns the same fault.
    ///
    /// `Memory` if memory is refused for the map of a whole record; then the reader is unchanged, and the next call
    /// tries again.
    pub fn next(&mut self) -> Result<Option<DownRecord>, DownFault>
        ensures outcome { GivesDown self.old self.new result }
        ensures sticky { (f : LinkFault) → HasFault self.old f → result ≡ Err (DownFault.Link f) }
        ensures bytes { AreBytes self.old.held }
        ensures within { IsWithinRecord self.old.direction self.old.held }
        ensures down { self.old.direction ≡ Direction.Down }
    {
        if let Some(fault) = self.reading.fault() {
            return Err(DownFault::Link(fault));
        }
        if self.reading.needed() > 0 {
            return Ok(None);
        }
        match decode_down(self.alloc, self.reading.bytes()) {
            Ok(record) => {
                self.reading.clear();
                Ok(Some(record))
            }
            Err(fault) => Err(fault),
        }
    }

    /// Reads once from the device, and never past the present record: at most up to the end of its map's head, and then
    /// at most its rest. It reads nothing while a whole record is held for [`DownReader::next`], and nothing after a
    /// fault. Each other pull that succeeds adds at least one byte, or finds the end.
    ///
    /// # Errors
    ///
    /// `Device` exactly when the device failed in this call. `Link` for a fault of [`DownReader::next`], and if the
    /// input ended inside a record.
    pub fn pull<R: DevRead>(&mut self, reader: &mut R) -> Result<Pulled, PullFault>
        ensures value { Pulls self.old self.new (R.remaining reader.old)
            (R.remaining reader.new) result }
        ensures sticky { (f : LinkFault) → HasFault self.old f → result ≡ Err (PullFault.Link f) }
        ensures failures { CountsDevice (R.failures reader.old) (R.failures reader.new) result }
        ensures waits { (IsOpen self.old → ⊥) → reader.new ≡ reader.old }
        ensures one_read { IsOpen self.old → CountsCall (R.calls reader.old) (R.calls reader.new) }
        ensures within { IsWithinRecord self.new.direction self.new.held }
        ensures down { self.new.direction ≡ Direction.Down }
    {
        self.reading.pull(reader)
    }
}
