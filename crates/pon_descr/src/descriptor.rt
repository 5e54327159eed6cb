ghost use Rattle.std.specs.Prelude.{◌≡◌, ◌≤◌};

use crate::class::Class;
use crate::refusal::Refusal;
use pon_units::{Kbps, LINE_RATE};
use std::marker::Model;

/// The traffic descriptor of an Alloc-ID: fixed, assured and maximum rate, each 0 to 2,488,320 kbit/s, and its class.
#[derive(Clone, Copy, Debug, PartialEq, Eq)]
pub struct Descriptor {
    fixed: Kbps,
    assured: Kbps,
    max: Kbps,
    class: Class,
}

impl Model for Descriptor {
    ghost use Rattle.pon_descr.specs.Descriptor.{Descriptor, IsLawful};

    ghost Value = { Descriptor };

    ghost view = { λ a. record {
      fixed = a.fixed;
      assured = a.assured;
      max = a.max;
      class = a.class;
    } };

    ghost invariant = { λ a. IsLawful (record {
      fixed = a.fixed;
      assured = a.assured;
      max = a.max;
      class = a.class;
    }) };

    ghost inverse = { λ t. record {
      fixed = t.fixed;
      assured = t.assured;
      max = t.max;
      class = t.class;
    } };
}

// Converts a number of kbit/s to a rate of a descriptor.
fn rate(n: u64) -> Kbps
    requires { n ≤ LINE_RATE }
    ensures { result ≡ n }
{
    Kbps::new(n as u32).unwrap()
}

impl Descriptor {
    ghost use Rattle.std.specs.Prelude.{◌≡◌, ◌≤◌, ◌↔◌, IsOk, IfOk, IfErr, Some};
    ghost use Rattle.pon_descr.specs.Descriptor.{Descriptor, IsLawful, descriptor_refusal, promised};

    /// Makes a descriptor of these rates in kbit/s.
    ///
    /// # Errors
    ///
    /// The first that applies. `RateRange` for a rate above 2,488,320. `MaxBelowGuaranteed` for a maximum below fixed
    /// and assured rate together. `NeedsGuarantee` for the non-assured class if both are 0. `NoSurplusRoom` for a class
    /// that shares surplus if the maximum is not above both together.
    pub fn new(fixed: u64, assured: u64, max: u64, class: Class) -> Result<Self, Refusal>
        ensures ok { IfOk result
            (λ d. d ≡ record { fixed = fixed; assured = assured; max = max; class = class }) }
        ensures refused { IfErr result (λ why. descriptor_refusal
            (record { fixed = fixed; assured = assured; max = max; class = class }) ≡ Some why) }
        ensures lawful { IsOk result ↔ IsLawful
            (record { fixed = fixed; assured = assured; max = max; class = class }) }
    {
        if fixed > LINE_RATE || assured > LINE_RATE || max > LINE_RATE {
            return Err(Refusal::RateRange);
        }
        let promised = fixed + assured;
        if max < promised {
            return Err(Refusal::MaxBelowGuaranteed);
        }
        if class == Class::NonAssured && promised == 0 {
            return Err(Refusal::NeedsGuarantee);
        }
        if class != Class::Plain && promised == max {
            return Err(Refusal::NoSurplusRoom);
        }
        Ok(Descriptor {
            fixed: rate(fixed),
            assured: rate(assured),
            max: rate(max),
            class,
        })
    }

    /// Fixed rate, 0 to 2,488,320 kbit/s: it is granted whatever the load.
    pub fn fixed(&self) -> Kbps
        ensures value { result ≡ self.now.fixed }
        ensures range { result ≤ LINE_RATE }
    {
        self.fixed
    }

    /// Assured rate, 0 to 2,488,320 kbit/s: it is granted up to the load.
    pub fn assured(&self) -> Kbps
        ensures value { result ≡ self.now.assured }
        ensures range { result ≤ LINE_RATE }
    {
        self.assured
    }

    /// Maximum rate, 0 to 2,488,320 kbit/s: no more is granted.
    pub fn max(&self) -> Kbps
        ensures value { result ≡ self.now.max }
        ensures range { result ≤ LINE_RATE }
    {
        self.max
    }

    /// Class by which surplus is shared.
    pub fn class(&self) -> Class
        ensures { result ≡ self.now.class }
    {
        self.class
    }

    /// Promised rate, fixed and assured rate together, 0 to 2,488,320 kbit/s.
    pub fn promised(&self) -> Kbps
        ensures sum { result ≡ promised self.now }
        ensures range { result ≤ LINE_RATE }
        ensures lawful { IsLawful self.now }
    {
        rate(u64::from(self.fixed.get() + self.assured.get()))
    }
}
