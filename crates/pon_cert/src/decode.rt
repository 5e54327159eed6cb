// Certificates read from bytes.
ghost use Rattle.std.specs.Prelude.{◌≡◌, ◌==◌, nat_lt, map, Ok, Err, IfOk, IfErr, MatchResult};
ghost use Rattle.std.specs.Int.{w8, w16, w64};
ghost use Rattle.std.specs.List.{list_all};
ghost use Rattle.pon_cert.specs.Reading.{ReadsAs, ReadsCert, IsByteFault, IsTail, number_at, level_in_bytes, level_at, flags_at, class_in_bytes};
ghost use Rattle.pon_cert.specs.declared.cert.CertReadFault.{CertReadFault};

use crate::cert::{CertReadFault, ClassCert, Level, MapCert};
use crate::problem::MAX_ITEMS;
use crate::sat::Sat;
use pon_units::Frac;
use std::alloc::{AllocError, Global};
use std::marker::Model;

impl MapCert {
    /// Decodes the certificate at the start of the bytes, and returns it with the number of its bytes. Later bytes are
    /// not read.
    ///
    /// # Errors
    ///
    /// The first fault from left to right. `Short` if the bytes end inside a number or the flags. `Form` for a kind of
    /// level above 1, numbers at a level of all, a denominator of 0, more than 512 items, or a flag other than 0 and 1.
    /// `Memory` only if the bytes begin with a valid certificate.
    pub fn from_bytes(alloc: Global, bytes: &[u8]) -> Result<(MapCert, usize), CertReadFault>
        ensures ok { IfOk result (λ r. ReadsCert bytes.now r.0 r.1) }
        ensures fault { IfErr result (λ f. IsByteFault bytes.now f) }
    {
        let (na, rest) = read_class(bytes)?;
        let (be, rest) = read_class(rest)?;
        let cert = copy_classes(alloc, &na, &be)?;
        Ok((cert, bytes.len() - rest.len()))
    }
}

// A class as slices of the bytes, with a byte of 0 or 1 for each item.
#[derive(Drop)]
struct LentClass<'a> {
    level: Level,
    flags: &'a [u8],
}

impl<'a> Model for LentClass<'a> {
    ghost use Rattle.std.specs.Prelude.{◌==◌, map};
    ghost use Rattle.pon_cert.specs.declared.cert.ClassCert.{ClassCert};

    ghost Value = { ClassCert };

    ghost view = { λ c. record { level = c.level; saturated = map (λ b. b == 1) c.flags.now } };
}

impl LentClass<'_> {
    // Copies the class with its flags.
    fn copy_class(&self, alloc: Global) -> Result<ClassCert, AllocError>
        ensures { IfOk result (λ class. class ≡ self.now) }
    {
        Ok(ClassCert {
            level: self.level,
            saturated: Sat::new(flags_of(alloc, self.flags)?),
        })
    }
}

fn flags_of(alloc: Global, bytes: &[u8]) -> Result<Vec<bool>, AllocError>
    ensures { IfOk result (λ flags. flags.items ≡ map (λ b. b == 1) bytes.now) }
{
    bytes.iter().map(|byte| *byte == 1).collect(alloc)
}

// Copies both classes with their flags into a certificate.
fn copy_classes(
    alloc: Global,
    na: &LentClass<'_>,
    be: &LentClass<'_>,
) -> Result<MapCert, CertReadFault>
    ensures ok { IfOk result (λ cert. cert ≡ record { na = na.now; be = be.now }) }
    ensures err { IfErr result (λ f. f ≡ CertReadFault.Memory) }
{
    match (na.copy_class(alloc), be.copy_class(alloc)) {
        (Ok(na), Ok(be)) => Ok(MapCert { na, be }),
        _ => Err(CertReadFault::Memory),
    }
}

// Decodes a class, and returns it with the bytes after it.
#[tactic(auto, unfolding(crate::specs::Reading::class_in_bytes))]
fn read_class(bytes: &[u8]) -> Result<(LentClass<'_>, &[u8]), CertReadFault>
    ensures value { ReadsAs (class_in_bytes bytes.now) result }
    ensures tail { IfOk result (λ r. IsTail bytes.now r.1.now) }
{
    let (level, rest) = match read_level(bytes) {
        Ok(read) => read,
        Err(fault) => return Err(fault),
    };
    let (count, rest) = read_u16(rest)?;
    let count = usize::from(count);
    if count > MAX_ITEMS {
        return Err(CertReadFault::Form);
    }
    let (flags, rest) = read_flags(rest, count)?;
    Ok((LentClass { level, flags }, rest))
}

#[tactic(auto, unfolding(crate::specs::Reading::level_at))]
fn read_level(bytes: &[u8]) -> Result<(Level, &[u8]), CertReadFault>
    ensures value { ReadsAs (level_at bytes.now) result }
    ensures tail { IfOk result (λ r. IsTail bytes.now r.1.now) }
{
    let (kind, rest) = read_u8(bytes)?;
    if kind > 1 {
        return Err(CertReadFault::Form);
    }
    let (num, rest) = read_u64(rest)?;
    let (den, rest) = read_u64(rest)?;
    Ok((level_in_bytes(kind, num, den)?, rest))
}

// Returns the level of this kind with these numbers.
fn level_in_bytes(kind: u8, num: u64, den: u64) -> Result<Level, CertReadFault>
    ensures { result ≡ level_in_bytes kind num den }
{
    if kind != 0 {
        return fraction(num, den);
    }
    if num != 0 || den != 0 {
        return Err(CertReadFault::Form);
    }
    Ok(Level::All)
}

fn fraction(num: u64, den: u64) -> Result<Level, CertReadFault>
    ensures { result ≡ level_in_bytes 1 num den }
{
    if den == 0 {
        return Err(CertReadFault::Form);
    }
    Ok(Level::At(Frac::new(num, den)))
}

// Returns the next `count` bytes, each of which must be 0 or 1, and the bytes after them.
fn read_flags(bytes: &[u8], count: usize) -> Result<(&[u8], &[u8]), CertReadFault>
    ensures value { MatchResult result
        (λ r. flags_at count bytes.now ≡ Ok (map (λ b. b == 1) r.0.now, r.1.now))
        (λ f. flags_at count bytes.now ≡ Err f) }
    ensures tail { IfOk result (λ r. IsTail bytes.now r.1.now) }
{
    let (flags, rest) = bytes.split_at(count.min(bytes.len()));
    if !are_flags(flags) {
        return Err(CertReadFault::Form);
    }
    if flags.len() < count {
        return Err(CertReadFault::Short);
    }
    Ok((flags, rest))
}

fn are_flags(bytes: &[u8]) -> bool
    ensures { result ≡ list_all (λ b. nat_lt b 2) bytes.now }
{
    bytes.iter().all(|byte| *byte < 2)
}

fn read_u8(bytes: &[u8]) -> Result<(u8, &[u8]), CertReadFault>
    ensures value { ReadsAs (number_at w8 bytes.now) result }
    ensures tail { IfOk result (λ r. IsTail bytes.now r.1.now) }
{
    let (number, rest) = bytes.split_first_chunk::<1>().ok_or(CertReadFault::Short)?;
    Ok((number[0], rest))
}

fn read_u16(bytes: &[u8]) -> Result<(u16, &[u8]), CertReadFault>
    ensures value { ReadsAs (number_at w16 bytes.now) result }
    ensures tail { IfOk result (λ r. IsTail bytes.now r.1.now) }
{
    let (number, rest) = bytes.split_first_chunk::<2>().ok_or(CertReadFault::Short)?;
    Ok((u16::from_be_bytes(*number), rest))
}

fn read_u64(bytes: &[u8]) -> Result<(u64, &[u8]), CertReadFault>
    ensures value { ReadsAs (number_at w64 bytes.now) result }
    ensures tail { IfOk result (λ r. IsTail bytes.now r.1.now) }
{
    let (number, rest) = bytes.split_first_chunk::<8>().ok_or(CertReadFault::Short)?;
    Ok((u64::from_be_bytes(*number), rest))
}
