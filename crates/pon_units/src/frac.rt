// Fractions of whole numbers, compared and rounded down exactly.
ghost use Rattle.std.specs.Prelude.{◌≡◌, ◌+◌, ◌*◌, ◌/◌, ◌<◌, ◌≤◌};
ghost use Rattle.std.specs.Ordering.{nat_cmp};

use std::cmp::Ordering;
use std::marker::Model;

/// A fraction with a denominator above 0, not necessarily reduced.
///
/// `==` compares numerators and denominators, so 90/3 is not equal to 30/1. [`cmp_frac`] compares values.
#[derive(Clone, Copy, Debug, PartialEq, Eq)]
pub struct Frac {
    numerator: u64,
    denominator: u64,
}

impl Model for Frac {
    ghost use Rattle.std.specs.Prelude.{◌<◌};
    ghost use Rattle.pon_units.specs.Frac.{Frac};

    ghost Value = { Frac };

    ghost view = { λ f. record { num = f.numerator; den = f.denominator } };

    ghost invariant = { λ f. 0 < f.denominator };

    ghost inverse = { λ v. record { numerator = v.num; denominator = v.den } };
}

impl Frac {
    /// Returns the fraction `num / den`, not reduced.
    pub fn new(num: u64, den: u64) -> Self
        requires { 0 < den }
        ensures { result ≡ record { num = num; den = den } }
    {
        Frac {
            numerator: num,
            denominator: den,
        }
    }

    /// Numerator.
    pub fn num(self) -> u64
        ensures { result ≡ self.num }
    {
        self.numerator
    }

    /// Denominator, above 0.
    pub fn den(self) -> u64
        ensures value { result ≡ self.den }
        ensures positive { 0 < result }
    {
        self.denominator
    }
}

/// Compares the values of two fractions. Each product of a numerator and the other's denominator is
/// exact in 128 bits.
pub fn cmp_frac(a: Frac, b: Frac) -> Ordering
    ensures { result ≡ nat_cmp (a.num * b.den) (b.num * a.den) }
{
    let left = u128::from(a.numerator) * u128::from(b.denominator);
    let right = u128::from(b.numerator) * u128::from(a.denominator);
    left.cmp(&right)
}

/// Returns the greatest whole number that is at most `num / den`.
pub fn whole(num: u64, den: u64) -> u64
    requires { 0 < den }
    ensures value { result ≡ num / den }
    ensures not_above { result * den ≤ num }
    ensures greatest { num < (result + 1) * den }
{
    num / den
}
