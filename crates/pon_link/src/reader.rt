ghost use Rattle.std.specs.Prelude.{◌≡◌, ◌<◌, ◌≤◌, ℕ, length, take};
ghost use Rattle.pon_device.specs.Device.{CountsCall};
ghost use Rattle.pon_lists.specs.Bytes.{AreBytes};
ghost use Rattle.pon_link.specs.UpRecords.{IsRecord};
ghost use Rattle.pon_link.specs.declared.fault.LinkFault.{LinkFault};
ghost use Rattle.pon_link.specs.Reading.{empty, IsOpen, HasFault, Returns, IsWithinRecord, Pulls, CountsDevice, holds_more};

use crate::decode::decode_up;
use crate::direction::Direction;
use crate::fault::LinkFault;
use crate::held::RecordBuffer;
use crate::pull::{PullFault, Pulled};
use crate::record::UpRecord;
use pon_device::DevRead;
use std::marker::Model;

/// A reader of upstream records, which takes their bytes in pieces of any size. It holds the bytes of the present
/// record, at most 78.
#[derive(Drop)]
pub struct UpReader {
    reading: RecordBuffer<78>,
}

impl Model for UpReader {
    ghost use Rattle.std.specs.Prelude.{◌≡◌};
    ghost use Rattle.pon_link.specs.Reading.{ReaderState};
    ghost use Rattle.pon_link.specs.declared.direction.Direction.{Direction};
    ghost use Rattle.pon_link.specs.declared.direction.Direction.TheVariants.{Up};

    ghost Value = { ReaderState };

    ghost view = { λ s. s.reading };

    ghost invariant = { λ s. s.reading.direction ≡ Up };
}

impl UpReader {
    /// Makes a reader that holds no bytes.
    pub fn new() -> Self
        ensures { result ≡ empty Direction.Up }
    {
        UpReader {
            reading: RecordBuffer::new(Direction::Up),
        }
    }

    /// Takes bytes from the front of the piece until one record is whole, a fault is found or the piece ends, and
    /// returns their number. It takes none while a whole record is held for [`UpReader::next`], and none after a fault.
    pub fn feed(&mut self, piece: &[u8]) -> usize
        ensures count { result ≤ length piece.now }
        ensures held { self.new ≡ holds_more self.old (take result piece.now) }
        ensures while_open { (k : ℕ) → k < result
            → IsOpen (holds_more self.old (take k piece.now)) }
        ensures stops { result < length piece.now → IsOpen self.new → ⊥ }
    {
        self.reading.feed(piece)
    }

    /// Returns the record and clears the reader, exactly when a whole record is held. `None` if the held bytes are a
    /// prefix of a record.
    ///
    /// # Errors
    ///
    /// `BadTag` as soon as the first byte is held and is not the tag. `BadCount` as soon as the count byte is held and
    /// is not 1 to 16. `Truncated` if the input ended inside the record. Every later call returns the same fault.
    pub fn next(&mut self) -> Result<Option<UpRecord>, LinkFault>
        ensures outcome { Returns IsRecord self.old self.new result }
        ensures sticky { (f : LinkFault) → HasFault self.old f → result ≡ Err f }
        ensures bytes { AreBytes self.old.held }
        ensures within { IsWithinRecord self.old.direction self.old.held }
        ensures up { self.old.direction ≡ Direction.Up }
    {
        if let Some(fault) = self.reading.fault() {
            return Err(fault);
        }
        if self.reading.needed() > 0 {
            return Ok(None);
        }
        let record = decode_up(self.reading.bytes());
        self.reading.clear();
        Ok(Some(record))
    }

    /// Reads once from the device, and never past the present record: at most up to its count byte, and then at most
    /// its rest. It reads nothing while a whole record is held for [`UpReader::next`], and nothing after a fault. Each
    /// other pull that succeeds adds at least one byte, or finds the end.
    ///
    /// # Errors
    ///
    /// `Device` exactly when the device failed in this call. `Link` for a fault of [`UpReader::next`], and if the input
    /// ended inside a record.
    pub fn pull<R: DevRead>(&mut self, reader: &mut R) -> Result<Pulled, PullFault>
        ensures value { Pulls self.old self.new (R.remaining reader.old)
            (R.remaining reader.new) result }
        ensures sticky { (f : LinkFault) → HasFault self.old f → result ≡ Err (PullFault.Link f) }
        ensures failures { CountsDevice (R.failures reader.old) (R.failures reader.new) result }
        ensures waits { (IsOpen self.old → ⊥) → reader.new ≡ reader.old }
        ensures one_read { IsOpen self.old → CountsCall (R.calls reader.old) (R.calls reader.new) }
        ensures within { IsWithinRecord self.new.direction self.new.held }
    {
        self.reading.pull(reader)
    }
}
