// The bytes of the present record of a link, in either direction, and their growth.
ghost use Rattle.std.specs.Prelude.{◌≡◌, ◌<◌, ◌≤◌, ◌+◌, ℕ, List, false, [], ◌++◌, length, take, MatchOption, OnSome};
ghost use Rattle.pon_lists.specs.Bytes.{AreBytes};
ghost use Rattle.pon_device.specs.Device.{CountsCall};
ghost use Rattle.pon_link.specs.Reading.{ReaderState, empty, longest, header_len, Announces, IsOpen, HasFault, KeepsForm, MayBecomeRecord, IsWholeRecord, IsReady, IsWithinRecord, Pulls, CountsDevice, holds_more};

use crate::buffer::{append, prove_bytes};
use crate::direction::Direction;
use crate::fault::LinkFault;
use crate::form::{form_fault, needed};
use crate::pull::{PullFault, Pulled};
use arrayvec::ArrayVec;
use pon_bwmap::map_fault;
use pon_device::DevRead;
use std::marker::Model;

/// A reader of one direction, with room for `N` bytes.
#[derive(Drop)]
pub(crate) struct RecordBuffer<const N: usize> {
    direction: Direction,
    bytes: ArrayVec<u8, N>,
    ended: bool,
}

impl<const N: usize> Model for RecordBuffer<N> {
    ghost use Rattle.std.specs.Prelude.{◌<◌, ◌≤◌, IsTrue, length};
    ghost use Rattle.pon_link.specs.Reading.{ReaderState, MayBecomeRecord, IsWithinRecord, longest};

    ghost Value = { ReaderState };

    ghost view = { λ s. record { direction = s.direction; held = s.bytes.items; ended = s.ended } };

    ghost invariant = { λ s. (longest s.direction ≤ N) × IsWithinRecord s.direction s.bytes.items
        × (IsTrue s.ended → MayBecomeRecord s.direction s.bytes.items
        × (0 < length s.bytes.items)) };
}

impl<const N: usize> RecordBuffer<N> {
    // Makes a reader that holds no bytes.
    pub(crate) fn new(direction: Direction) -> Self
        requires { longest direction ≤ N }
        ensures { result ≡ empty direction }
    {
        RecordBuffer {
            direction,
            bytes: ArrayVec::new(),
            ended: false,
        }
    }

    // Returns the held bytes.
    pub(crate) fn bytes(&self) -> &[u8]
        ensures value { result.now ≡ self.now.held }
        ensures bytes { AreBytes self.now.held }
    {
        let bytes = self.bytes.as_slice();
        prove_bytes(bytes);
        bytes
    }

    // Clears the held bytes.
    pub(crate) fn clear(&mut self)
        ensures { self.new ≡ empty self.old.direction }
    {
        self.bytes.clear();
        self.ended = false;
    }

    // Takes bytes from the front of the piece until one record is whole, a fault is found or the piece ends, and
    // returns their number. For one piece it examines a record at most four times: before and after the tag, after the
    // bytes that give the size, and at the end.
    pub(crate) fn feed(&mut self, piece: &[u8]) -> usize
        ensures count { result ≤ length piece.now }
        ensures held { self.new ≡ holds_more self.old (take result piece.now) }
        ensures while_open { (k : ℕ) → k < result
            → IsOpen (holds_more self.old (take k piece.now)) }
        ensures stops { result < length piece.now → IsOpen self.new → ⊥ }
    {
        let mut taken = 0;
        while taken < piece.len() {
            let size = self.safe_size().min(piece.len() - taken);
            if size == 0 {
                return taken;
            }
            self.hold_all(&piece[taken..taken + size]);
            taken += size;
        }
        taken
    }

    // Returns the number of bytes that can be taken before the reader must examine them again; 0 if it is not open.
    fn safe_size(&self) -> usize
        ensures open { IsOpen self.now → 0 < result }
        ensures some { 0 < result → IsOpen self.now }
        ensures begins { (more : List ℕ) → length more < result
            → IsOpen (holds_more self.now more) }
        ensures within { (more : List ℕ) → length more ≤ result
            → IsWithinRecord self.now.direction (self.now.held ++ more) }
    {
        if let Some(_) = self.fault() {
            return 0;
        }
        let needed = self.needed();
        let held = self.bytes().len();
        if held == 0 { needed.min(1) } else { needed }
    }

    // Returns the fault of the reader, except that of a refused map.
    pub(crate) fn fault(&self) -> Option<LinkFault>
        ensures within { IsWithinRecord self.now.direction self.now.held }
        ensures bytes { AreBytes self.now.held }
        ensures value { MatchOption result (KeepsForm self.now.direction self.now.held
            × (self.now.ended ≡ false)) (λ f. HasFault self.now f) }
        ensures closed { OnSome result (IsOpen self.now → ⊥) }
    {
        let bytes = self.bytes();
        if self.ended {
            return Some(LinkFault::Truncated { left: bytes.len() });
        }
        form_fault(self.direction, bytes)
    }

    // Returns the minimum number of bytes that the record still needs, 0 exactly when it is whole.
    pub(crate) fn needed(&self) -> usize
        requires { KeepsForm self.now.direction self.now.held }
        ensures untold { length self.now.held < header_len self.now.direction
            → length self.now.held + result ≡ header_len self.now.direction }
        ensures told { header_len self.now.direction ≤ length self.now.held
            → Announces self.now.direction self.now.held (length self.now.held + result) }
        ensures some { 0 < result → MayBecomeRecord self.now.direction self.now.held }
        ensures none { result ≡ 0 → IsWholeRecord self.now.direction self.now.held }
        ensures more { MayBecomeRecord self.now.direction self.now.held → 0 < result }
        ensures fits { length self.now.held + result ≤ N }
    {
        needed(self.direction, self.bytes.as_slice())
    }

    // Returns the fault of a whole record whose map is refused.
    fn refused_map(&self) -> Option<LinkFault>
        requires { IsWholeRecord self.now.direction self.now.held }
        ensures { MatchOption result (IsReady self.now.direction self.now.held)
            (λ f. HasFault self.now f) }
    {
        match self.direction {
            Direction::Up => None,
            Direction::Down => match map_fault(&self.bytes.as_slice()[9..]) {
                Some(_) => Some(LinkFault::BadMap),
                None => None,
            },
        }
    }

    // Appends bytes that do not go past the present record.
    fn hold_all(&mut self, piece: &[u8])
        requires open { IsOpen self.old }
        requires within { IsWithinRecord self.old.direction (self.old.held ++ piece.now) }
        ensures held { self.new ≡ holds_more self.old piece.now }
        ensures still_within { IsWithinRecord self.new.direction self.new.held }
    {
        append(&mut self.bytes, piece);
    }

    // Ends the input, and returns the fault if that is inside a record.
    fn end(&mut self) -> Option<LinkFault>
        requires { IsOpen self.old }
        ensures value { MatchOption result ((self.old.held ≡ []) × (self.new ≡ self.old))
            (λ f. HasFault self.new f × (self.new.held ≡ self.old.held)) }
        ensures within { IsWithinRecord self.new.direction self.new.held }
        ensures direction { self.new.direction ≡ self.old.direction }
    {
        if self.bytes.is_empty() {
            return None;
        }
        self.ended = true;
        self.fault()
    }

    // Reads once, up to the bytes that give the record's size or up to its end.
    pub(crate) fn pull<R: DevRead>(&mut self, reader: &mut R) -> Result<Pulled, PullFault>
        ensures value { Pulls self.old self.new (R.remaining reader.old)
            (R.remaining reader.new) result }
        ensures failures { CountsDevice (R.failures reader.old) (R.failures reader.new) result }
        ensures waits { (IsOpen self.old → ⊥) → reader.new ≡ reader.old }
        ensures one_read { IsOpen self.old → CountsCall (R.calls reader.old) (R.calls reader.new) }
        ensures within { IsWithinRecord self.new.direction self.new.held }
        ensures bytes { AreBytes self.old.held }
        ensures direction { self.new.direction ≡ self.old.direction }
    {
        if let Some(fault) = self.fault() {
            return Err(PullFault::Link(fault));
        }
        let needed = self.needed();
        if needed == 0 {
            return match self.refused_map() {
                Some(fault) => Err(PullFault::Link(fault)),
                None => Ok(Pulled::Bytes(0)),
            };
        }
        let mut piece = [0; N];
        match reader.read(&mut piece[..needed]) {
            Ok(0) => match self.end() {
                Some(fault) => Err(PullFault::Link(fault)),
                None => Ok(Pulled::End),
            },
            Ok(n) => {
                self.hold_all(&piece[..n]);
                Ok(Pulled::Bytes(n))
            }
            Err(_) => Err(PullFault::Device),
        }
    }
}
