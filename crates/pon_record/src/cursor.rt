//! Reads fields from the front of bytes, one after another.

ghost use Rattle.std.specs.Prelude.{◌≡◌, ◌≤◌, ◌==◌, drop, length, nat_le};
ghost use Rattle.std.specs.Int.{w8, w16, w32, w64};
ghost use Rattle.pon_record.specs.Format.{number, only};
ghost use Rattle.pon_record.specs.Reading.{Reads};
ghost use Rattle.pon_record.specs.Fields.{alloc_id, carry_in, cause, class, descriptor, failure, frame, gap, onu_id, profile, report, report_meaning, rule_in, words};
ghost use Rattle.pon_record.specs.declared.version.Version.TheVariants.{Two};
ghost use Rattle.pon_record.specs.Chapters.{port};
ghost use Rattle.pon_record.specs.Events.{occupancy};

use crate::codes;
use crate::fault::Malformed;
use crate::layout::Layout;
use crate::version::Version;
use pon_admit::Rule;
use pon_descr::{Cause, Class, Descriptor};
use pon_guar::Counted;
use pon_units::{AllocId, BufOcc, FrameNo, Gap, OnuId, PortNo, Profile, Words};
use std::marker::Model;

/// The bytes that are not read yet.
#[derive(Drop)]
pub(crate) struct Cursor<'a> {
    rest: &'a [u8],
}

impl<'a> Model for Cursor<'a> {
    ghost use Rattle.std.specs.Prelude.{ℕ, List};

    ghost Value = { List ℕ };

    ghost view = { λ c. c.rest.now };
}

impl<'a> Cursor<'a> {
    pub(crate) fn new(rest: &'a [u8]) -> Cursor<'a>
        ensures { result ≡ rest.now }
    {
        Cursor { rest }
    }

    /// Returns whether no byte is left.
    pub(crate) fn is_at_end(&self) -> bool
        ensures { result ≡ (length self.now == 0) }
    {
        self.rest.is_empty()
    }

    /// Returns the bytes that are not read yet.
    pub(crate) fn rest(&self) -> &'a [u8]
        ensures { result.now ≡ self.now }
    {
        self.rest
    }

    /// Skips the next `n` bytes.
    pub(crate) fn skip(&mut self, n: usize)
        requires { n ≤ length self.old }
        ensures { self.new ≡ drop n self.old }
    {
        self.rest = &self.rest[n..];
    }

    pub(crate) fn u8(&mut self) -> Result<u8, Malformed>
        ensures { Reads (λ x. (x, self.new)) result ((number w8).read self.old) }
    {
        match self.rest.split_first_chunk::<1>() {
            Some((number, rest)) => {
                self.rest = rest;
                Ok(number[0])
            }
            None => Err(Malformed),
        }
    }

    pub(crate) fn u16(&mut self) -> Result<u16, Malformed>
        ensures { Reads (λ x. (x, self.new)) result ((number w16).read self.old) }
    {
        match self.rest.split_first_chunk::<2>() {
            Some((number, rest)) => {
                self.rest = rest;
                Ok(u16::from_be_bytes(*number))
            }
            None => Err(Malformed),
        }
    }

    pub(crate) fn u32(&mut self) -> Result<u32, Malformed>
        ensures { Reads (λ x. (x, self.new)) result ((number w32).read self.old) }
    {
        match self.rest.split_first_chunk::<4>() {
            Some((number, rest)) => {
                self.rest = rest;
                Ok(u32::from_be_bytes(*number))
            }
            None => Err(Malformed),
        }
    }

    pub(crate) fn u64(&mut self) -> Result<u64, Malformed>
        ensures { Reads (λ x. (x, self.new)) result ((number w64).read self.old) }
    {
        match self.rest.split_first_chunk::<8>() {
            Some((number, rest)) => {
                self.rest = rest;
                Ok(u64::from_be_bytes(*number))
            }
            None => Err(Malformed),
        }
    }

    /// Reads a count of 1 byte, at most `most`.
    pub(crate) fn count8(&mut self, most: u8) -> Result<usize, Malformed>
        ensures { Reads (λ x. (x, self.new)) result
            ((only (λ n. nat_le n most) (number w8)).read self.old) }
    {
        let count = self.u8()?;
        if count > most {
            return Err(Malformed);
        }
        Ok(usize::from(count))
    }

    /// Reads a count of 2 bytes, at most `most`.
    pub(crate) fn count16(&mut self, most: u16) -> Result<usize, Malformed>
        ensures { Reads (λ x. (x, self.new)) result
            ((only (λ n. nat_le n most) (number w16)).read self.old) }
    {
        let count = self.u16()?;
        if count > most {
            return Err(Malformed);
        }
        Ok(usize::from(count))
    }

    /// Reads a count of 4 bytes, at most `most`.
    pub(crate) fn count32(&mut self, most: u32) -> Result<usize, Malformed>
        ensures { Reads (λ x. (x, self.new)) result
            ((only (λ n. nat_le n most) (number w32)).read self.old) }
    {
        let count = self.u32()?;
        if count > most {
            return Err(Malformed);
        }
        Ok(count as usize)
    }

    pub(crate) fn port(&mut self) -> Result<PortNo, Malformed>
        ensures { Reads (λ x. (x, self.new)) result (port.read self.old) }
    {
        PortNo::new(self.u8()?).ok_or(Malformed)
    }

    pub(crate) fn onu(&mut self) -> Result<OnuId, Malformed>
        ensures { Reads (λ x. (x, self.new)) result (onu_id.read self.old) }
    {
        OnuId::new(self.u16()?).ok_or(Malformed)
    }

    pub(crate) fn alloc_id(&mut self) -> Result<AllocId, Malformed>
        ensures { Reads (λ x. (x, self.new)) result (alloc_id.read self.old) }
    {
        AllocId::new(self.u16()?).ok_or(Malformed)
    }

    pub(crate) fn gap(&mut self) -> Result<Gap, Malformed>
        ensures { Reads (λ x. (x, self.new)) result (gap.read self.old) }
    {
        Gap::new(self.u16()?).ok_or(Malformed)
    }

    pub(crate) fn profile(&mut self) -> Result<Profile, Malformed>
        ensures { Reads (λ x. (x, self.new)) result (profile.read self.old) }
    {
        Profile::new(self.u8()?).ok_or(Malformed)
    }

    pub(crate) fn words(&mut self) -> Result<Words, Malformed>
        ensures { Reads (λ x. (x, self.new)) result (words.read self.old) }
    {
        Words::new(self.u16()?).ok_or(Malformed)
    }

    pub(crate) fn cause(&mut self) -> Result<Cause, Malformed>
        ensures { Reads (λ x. (x, self.new)) result (cause.read self.old) }
    {
        Cause::new(self.u8()?).ok_or(Malformed)
    }

    pub(crate) fn frame(&mut self) -> Result<FrameNo, Malformed>
        ensures { Reads (λ x. (x, self.new)) result (frame.read self.old) }
    {
        Ok(FrameNo::new(self.u64()?))
    }

    /// Reads the cause of a failed port. `None` if the port is up.
    pub(crate) fn failure(&mut self) -> Result<Option<Cause>, Malformed>
        ensures { Reads (λ x. (x, self.new)) result (failure.read self.old) }
    {
        let number = self.u8()?;
        match Cause::new(number) {
            Some(cause) => Ok(Some(cause)),
            None if number == codes::UP => Ok(None),
            None => Err(Malformed),
        }
    }

    pub(crate) fn class(&mut self) -> Result<Class, Malformed>
        ensures { Reads (λ x. (x, self.new)) result (class.read self.old) }
    {
        match self.u8()? {
            codes::PLAIN => Ok(Class::Plain),
            codes::NON_ASSURED => Ok(Class::NonAssured),
            codes::BEST_EFFORT => Ok(Class::BestEffort),
            _ => Err(Malformed),
        }
    }

    pub(crate) fn descriptor(&mut self) -> Result<Descriptor, Malformed>
        ensures { Reads (λ x. (x, self.new)) result (descriptor.read self.old) }
    {
        let fixed = u64::from(self.u32()?);
        let assured = u64::from(self.u32()?);
        let max = u64::from(self.u32()?);
        let class = self.class()?;
        match Descriptor::new(fixed, assured, max, class) {
            Ok(descriptor) => Ok(descriptor),
            Err(_) => Err(Malformed),
        }
    }

    /// Reads a counted report. `None` if no report counts.
    pub(crate) fn report(&mut self) -> Result<Option<Counted>, Malformed>
        ensures { Reads (λ x. (x, self.new)) result (report.read self.old) }
    {
        let flag = self.u8()?;
        let frame = self.frame()?;
        let words = self.u32()?;
        match report_of(flag, frame, words) {
            Some(counted) => Ok(counted),
            None => Err(Malformed),
        }
    }

    // Reads the byte of a rule.
    fn rule_byte(&mut self) -> Result<Rule, Malformed>
        ensures { Reads (λ x. (x, self.new)) result ((rule_in Two).read self.old) }
    {
        match self.u8()? {
            codes::DROP_REMAINDERS => Ok(Rule::DropRemainders),
            codes::CARRY_REMAINDERS => Ok(Rule::CarryRemainders),
            _ => Err(Malformed),
        }
    }

    /// Reads the rule of a chapter, which is rule one without a byte in version one.
    pub(crate) fn rule(&mut self, version: Version) -> Result<Rule, Malformed>
        ensures { Reads (λ x. (x, self.new)) result ((rule_in version).read self.old) }
    {
        match version {
            Version::One => Ok(Rule::DropRemainders),
            Version::Two => self.rule_byte(),
        }
    }

    // Reads the byte of a carry.
    fn carry_byte(&mut self, layout: Layout) -> Result<u8, Malformed>
        ensures { Reads (λ x. (x, self.new)) result ((carry_in Two layout.rule).read self.old) }
    {
        let carry = self.u8()?;
        if carry > layout.max_carry() {
            return Err(Malformed);
        }
        Ok(carry)
    }

    /// Reads the carry of a row, which is 0 without a byte in version one.
    pub(crate) fn carry(&mut self, layout: Layout) -> Result<u8, Malformed>
        ensures { Reads (λ x. (x, self.new)) result
            ((carry_in layout.version layout.rule).read self.old) }
    {
        match layout.version {
            Version::One => Ok(0),
            Version::Two => self.carry_byte(layout),
        }
    }

    /// Reads an occupancy. `None` if it was garbled.
    pub(crate) fn occupancy(&mut self) -> Result<Option<BufOcc>, Malformed>
        ensures { Reads (λ x. (x, self.new)) result (occupancy.read self.old) }
    {
        let number = self.u32()?;
        match BufOcc::new(number) {
            Some(words) => Ok(Some(words)),
            None if number == codes::GARBLED => Ok(None),
            None => Err(Malformed),
        }
    }
}

// Decodes a flag, a frame and a number of words as a counted report, or as none (`Some(None)`). `None` if neither fits.
fn report_of(flag: u8, frame: FrameNo, words: u32) -> Option<Option<Counted>>
    ensures { result ≡ report_meaning (flag, (frame, words)) }
{
    match flag {
        codes::NOT_COUNTED if frame.get() == 0 && words == 0 => Some(None),
        codes::COUNTED => {
            let words = BufOcc::new(words)?;
            Some(Some(Counted { frame, words }))
        }
        _ => None,
    }
}
