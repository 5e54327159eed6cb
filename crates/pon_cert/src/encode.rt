// Encoding of certificates as bytes.
ghost use Rattle.std.specs.Prelude.{◌≡◌, ◌≤◌, ◌∷◌, ◌++◌, IsOk, IfOk, length, map};
ghost use Rattle.std.specs.Int.{w64, to_be_bytes};
ghost use Rattle.pon_cert.specs.Spelling.{flag_byte, level_bytes, class_bytes, cert_bytes};

use crate::cert::{ClassCert, Level, MapCert};
use crate::problem::MAX_ITEMS;
use std::alloc::{AllocError, Global};

impl MapCert {
    /// Encodes the certificate: its non-assured class, then its best-effort class. A class has 19 bytes, and one for
    /// each item. Each class must have at most 512 items.
    ///
    /// # Errors
    ///
    /// `AllocError` if memory is refused.
    pub fn to_bytes(&self, alloc: Global) -> Result<Vec<u8>, AllocError>
        requires non_assured { length self.now.na.saturated ≤ MAX_ITEMS }
        requires best_effort { length self.now.be.saturated ≤ MAX_ITEMS }
        ensures { IfOk result (λ bytes. bytes.items ≡ cert_bytes self.now) }
    {
        let mut bytes = Vec::new(alloc);
        put_class(&mut bytes, &self.na)?;
        put_class(&mut bytes, &self.be)?;
        Ok(bytes)
    }
}

// Appends the bytes of a class.
fn put_class(bytes: &mut Vec<u8>, class: &ClassCert) -> Result<(), AllocError>
    requires { length class.now.saturated ≤ MAX_ITEMS }
    ensures { IsOk result → bytes.new.items ≡ bytes.old.items ++ class_bytes class.now }
{
    let saturated = class.saturated.as_slice();
    put_level(bytes, &class.level)?;
    bytes.extend_from_slice(&(saturated.len() as u16).to_be_bytes())?;
    put_flags(bytes, saturated)
}

// Appends the bytes of a level.
fn put_level(bytes: &mut Vec<u8>, level: &Level) -> Result<(), AllocError>
    ensures { IsOk result → bytes.new.items ≡ bytes.old.items ++ level_bytes level.now }
{
    match level {
        Level::All => put_numbers(bytes, 0, 0, 0),
        Level::At(share) => put_numbers(bytes, 1, share.num(), share.den()),
    }
}

fn put_numbers(bytes: &mut Vec<u8>, kind: u8, num: u64, den: u64) -> Result<(), AllocError>
    ensures { IsOk result → bytes.new.items ≡ bytes.old.items
        ++ kind ∷ (to_be_bytes w64 num ++ to_be_bytes w64 den) }
{
    bytes.push(kind)?;
    bytes.extend_from_slice(&num.to_be_bytes())?;
    bytes.extend_from_slice(&den.to_be_bytes())
}

// Appends a byte for each flag.
fn put_flags(bytes: &mut Vec<u8>, flags: &[bool]) -> Result<(), AllocError>
    ensures { IsOk result → bytes.new.items ≡ bytes.old.items ++ map flag_byte flags.now }
{
    for flag in flags {
        bytes.push(u8::from(*flag))?;
    }
    Ok(())
}
