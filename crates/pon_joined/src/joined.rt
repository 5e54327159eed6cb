//! The reader of the files of one recording.

ghost use Rattle.std.specs.Prelude.{◌≡◌, ◌<◌, ◌≤◌, ◌↔◌, None, Some, true, IfOk, IfSome, List, ℕ, [], ◌∷◌, drop, length, slice_get, take};
ghost use Rattle.pon_device.specs.Device.{CountsCall};
ghost use Rattle.pon_joined.specs.Joined.{HasMagic, StepsOn, joined_bytes};
ghost use Rattle.pon_joined.specs.States.{KeepsCounts, left_in, left_with};

use crate::files::NextFile;
use pon_device::{DevRead, DeviceFault, Failed, next_byte};
use pon_record::MAGIC_BYTES;
use std::alloc::Global;
use std::marker::Model;

/// The byte that is given for a file that does not begin with the magic bytes of the first one. No chapter begins with it.
pub const NO_CHAPTER: u8 = 0;

/// A reader of the files of one recording. It gives the bytes of the first file, and then those of each further one after
/// its magic bytes; for a file that begins with other bytes than the first it gives [`NO_CHAPTER`] alone.
#[derive(Drop)]
pub struct Joined<S, R> {
    files: S,
    current: Option<R>,
    magic: Vec<u8>,
    given: usize,
    matched: usize,
    made: u64,
    failed: u64,
}

impl<S, R> Model for Joined<S, R> {
    ghost use Rattle.std.specs.Prelude.{◌≤◌, length};
    ghost use Rattle.pon_joined.specs.States.{JoinedFiles};
    ghost use Rattle.pon_record.specs.declared.limits.TheConstants.{MAGIC_BYTES};

    ghost Value = { JoinedFiles S R };

    ghost view = { λ s. record {
      files = s.files;
      current = s.current;
      magic = s.magic.items;
      given = s.given;
      matched = s.matched;
      calls = s.made;
      failures = s.failed;
    } };

    ghost invariant = { λ s. (length s.magic.items ≤ MAGIC_BYTES) × (s.matched ≤ length s.magic.items) };
}

// Reads the magic bytes of the first file, fewer if it is shorter.
fn magic_of<R: DevRead>(alloc: Global, reader: &mut R) -> Result<Vec<u8>, DeviceFault>
    ensures { IfOk result (λ magic. HasMagic (R.remaining reader.old) (R.remaining reader.new) magic.items) }
{
    let mut magic = Vec::new(alloc);
    while magic.len() < MAGIC_BYTES {
        match next_byte(reader) {
            Ok(Some(byte)) => magic.push(byte)?,
            Ok(None) => return Ok(magic),
            Err(_) => return Err(DeviceFault::Read),
        }
    }
    Ok(magic)
}

// Gives the byte for a file that does not begin with the magic bytes, and returns the number of bytes given.
fn refuse(buf: &mut [u8]) -> usize
    requires some { 0 < length buf.old }
    ensures count { result ≡ 1 }
    ensures byte { take 1 buf.new ≡ NO_CHAPTER ∷ [] }
    ensures room { length buf.new ≡ length buf.old }
{
    buf[0] = NO_CHAPTER;
    1
}

impl<S: NextFile<R> + Drop, R: DevRead + Drop> Joined<S, R> {
    /// Opens the first file, and reads its magic bytes.
    ///
    /// # Errors
    ///
    /// `Read` if the file cannot be opened or read, and `Memory` if memory is refused.
    pub fn open(alloc: Global, files: S) -> Result<Joined<S, R>, DeviceFault>
        ensures { (first : List ℕ) (further : List (List ℕ))
            → S.contents files ≡ Some (first ∷ further)
            → IfOk result (λ joined. left_in R.remaining S.contents joined
            ≡ Some (joined_bytes first further)) }
    {
        let mut files = files;
        let mut current = match files.next_file() {
            Ok(current) => current,
            Err(_) => return Err(DeviceFault::Read),
        };
        let magic = match &mut current {
            Some(reader) => magic_of(alloc, reader)?,
            None => Vec::new(alloc),
        };
        let matched = magic.len();
        Ok(Joined {
            files,
            current,
            magic,
            given: 0,
            matched,
            made: 0,
            failed: 0,
        })
    }

    // Counts a failed read.
    fn fail(&mut self) -> Failed
        ensures left { left_in R.remaining S.contents self.new
            ≡ left_in R.remaining S.contents self.old }
        ensures calls { self.new.calls ≡ self.old.calls }
        ensures failures { CountsCall self.old.failures self.new.failures }
    {
        self.failed = self.failed.wrapping_add(1);
        Failed
    }

    // Opens the next file. Returns 0 if there is none.
    fn open_next(&mut self) -> Result<Option<usize>, Failed>
        requires ended { self.old.current ≡ None }
        requires gave { drop self.old.given self.old.magic ≡ [] }
        ensures steps { StepsOn (left_in R.remaining S.contents self.old)
            (left_in R.remaining S.contents self.new) result [] }
        ensures counts { KeepsCounts self.old self.new }
        ensures none { IfOk result (λ count. IfSome count (λ n. n ≡ 0)) }
    {
        match self.files.next_file() {
            Ok(Some(reader)) => {
                self.current = Some(reader);
                self.matched = 0;
                Ok(None)
            }
            Ok(None) => Ok(Some(0)),
            Err(failed) => Err(failed),
        }
    }

    // Returns one of the magic bytes.
    fn magic_at(&self, place: usize) -> Option<u8>
        ensures { result ≡ slice_get self.now.magic place }
    {
        self.magic.get(place).copied()
    }

    // Returns the number of the magic bytes.
    fn magic_len(&self) -> usize
        ensures { result ≡ length self.now.magic }
    {
        self.magic.len()
    }

    // Returns whether a byte is the next of the magic bytes.
    fn is_next(&self, byte: u8) -> bool
        ensures { result ≡ true ↔ slice_get self.now.magic self.now.matched ≡ Some byte }
    {
        match self.magic_at(self.matched) {
            Some(next) => next == byte,
            None => false,
        }
    }

    // Reads one of the first bytes of a further file, which are to be the magic bytes.
    fn match_byte(&mut self, reader: R, buf: &mut [u8]) -> Result<Option<usize>, Failed>
        requires some { 0 < length buf.old }
        requires ended { self.old.current ≡ None }
        requires gave { drop self.old.given self.old.magic ≡ [] }
        requires less { self.old.matched < MAGIC_BYTES }
        ensures steps { StepsOn (left_with (R.remaining reader) S.contents self.old)
            (left_in R.remaining S.contents self.new) result buf.new }
        ensures counts { KeepsCounts self.old self.new }
        ensures within { IfOk result (λ count. IfSome count (λ n. n ≤ length buf.old)) }
        ensures room { length buf.new ≡ length buf.old }
    {
        let mut reader = reader;
        match next_byte(&mut reader) {
            Ok(Some(byte)) => {
                if self.is_next(byte) {
                    self.matched += 1;
                    self.current = Some(reader);
                    return Ok(None);
                }
                Ok(Some(refuse(buf)))
            }
            Ok(None) => {
                if self.matched == self.magic_len() {
                    return Ok(None);
                }
                Ok(Some(refuse(buf)))
            }
            Err(failed) => {
                self.current = Some(reader);
                Err(failed)
            }
        }
    }

    // Reads bytes of a file after its magic bytes.
    fn read_file(&mut self, reader: R, buf: &mut [u8]) -> Result<Option<usize>, Failed>
        requires some { 0 < length buf.old }
        requires ended { self.old.current ≡ None }
        requires gave { drop self.old.given self.old.magic ≡ [] }
        requires whole { self.old.matched ≡ MAGIC_BYTES }
        ensures steps { StepsOn (left_with (R.remaining reader) S.contents self.old)
            (left_in R.remaining S.contents self.new) result buf.new }
        ensures counts { KeepsCounts self.old self.new }
        ensures within { IfOk result (λ count. IfSome count (λ n. n ≤ length buf.old)) }
        ensures room { length buf.new ≡ length buf.old }
    {
        let mut reader = reader;
        match reader.read(buf) {
            Ok(0) => Ok(None),
            Ok(count) => {
                self.current = Some(reader);
                Ok(Some(count))
            }
            Err(failed) => {
                self.current = Some(reader);
                Err(failed)
            }
        }
    }

    // Makes a step of a read: gives bytes, or goes on in the files without.
    fn step(&mut self, buf: &mut [u8]) -> Result<Option<usize>, Failed>
        requires some { 0 < length buf.old }
        ensures steps { StepsOn (left_in R.remaining S.contents self.old)
            (left_in R.remaining S.contents self.new) result buf.new }
        ensures counts { KeepsCounts self.old self.new }
        ensures within { IfOk result (λ count. IfSome count (λ n. n ≤ length buf.old)) }
        ensures room { length buf.new ≡ length buf.old }
    {
        if let Some(byte) = self.magic_at(self.given) {
            buf[0] = byte;
            self.given += 1;
            return Ok(Some(1));
        }
        match self.current.take() {
            None => self.open_next(),
            Some(reader) if self.matched < MAGIC_BYTES => self.match_byte(reader, buf),
            Some(reader) => self.read_file(reader, buf),
        }
    }
}

impl<S: NextFile<R> + Drop, R: DevRead + Drop> DevRead for Joined<S, R> {
    ghost calls = { λ s. s.calls };

    ghost failures = { λ s. s.failures };

    ghost remaining = { λ s. left_in R.remaining S.contents s };

    fn read(&mut self, buf: &mut [u8]) -> Result<usize, Failed> {
        self.made = self.made.wrapping_add(1);
        if buf.is_empty() {
            return Ok(0);
        }
        for _step in 0..u64::MAX {
            match self.step(buf) {
                Ok(Some(count)) => return Ok(count),
                Ok(None) => {}
                Err(_) => return Err(self.fail()),
            }
        }
        Err(self.fail())
    }
}
