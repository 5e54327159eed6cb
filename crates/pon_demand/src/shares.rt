//! The surplus rates that a certificate gives, one demand after another.

ghost use Rattle.std.specs.Prelude.{◌≡◌, ◌+◌, ◌/◌, ◌<◌, ◌≤◌, ◌∷◌, Bool, List, Some, length, slice_get, ℕ};
ghost use Rattle.pon_admit.specs.declared.row.Row.{Row};
ghost use Rattle.pon_admit.specs.Roster.{IsAdmitted};
ghost use Rattle.pon_cert.specs.declared.cert.MapCert.{MapCert};
ghost use Rattle.pon_cert.specs.Certificate.{amount, denominator};
ghost use Rattle.pon_demand.specs.Demands.{demand_of};
ghost use Rattle.pon_demand.specs.Input.{Input};
ghost use Rattle.pon_demand.specs.Shares.{AreSharesAt, IsMember, IsNext};
ghost use Rattle.pon_demand.specs.Sharing.{IsCertified, surplus_rate};

use crate::demand::Demand;
use pon_cert::{Item, Level, MapCert};
use pon_descr::Class;
use pon_units::{Frac, LINE_RATE, whole};

/// The surplus rate that a certificate gives to an Alloc-ID, in kbit/s.
#[derive(Clone, Copy)]
pub struct Share {
    /// The exact rate.
    pub rate: Frac,
    /// The whole kbit/s of it.
    pub whole: u64,
}

// The shares of the members of a class from one of them on: the level, and the flag of each.
#[derive(Drop)]
struct ClassShares<'a> {
    level: &'a Level,
    flags: &'a [bool],
}

impl ClassShares<'_> {
    // Returns the share of the next member, whose item this is.
    #[inline]
    fn next(&mut self, item: &Item) -> Share
        requires { IsMember self.old.level.now self.old.flags.now item.now }
        ensures rate { (flag : Bool) (rest : List Bool) → self.old.flags.now ≡ flag ∷ rest
            → result.rate ≡ record {
              num = amount self.old.level.now item.now flag;
              den = denominator self.old.level.now;
            } }
        ensures rest { (flag : Bool) (rest : List Bool) → self.old.flags.now ≡ flag ∷ rest
            → self.new.flags.now ≡ rest }
        ensures level { self.new.level.now ≡ self.old.level.now }
        ensures whole { result.whole ≡ result.rate.num / result.rate.den }
        ensures within { result.whole ≤ item.now.cap }
    {
        let (saturated, rest) = self.flags.split_first().unwrap();
        self.flags = rest;
        match self.level {
            Level::All => Share {
                rate: Frac::new(item.cap, 1),
                whole: item.cap,
            },
            Level::At(level) if *saturated => Share {
                rate: Frac::new(item.cap * level.den(), level.den()),
                whole: item.cap,
            },
            Level::At(level) => {
                let rate = Frac::new(item.weight * level.num(), level.den());
                let whole = whole(rate.num(), rate.den());
                Share { rate, whole }
            }
        }
    }
}

/// The shares of the demands of a map under a certificate, from one demand on.
#[derive(Drop)]
pub struct Shares<'a> {
    na: ClassShares<'a>,
    be: ClassShares<'a>,
}

impl<'a> Shares<'a> {
    /// Begins with the first demand of a map.
    pub fn under(cert: &'a MapCert) -> Shares<'a>
        ensures { (s : Input) → IsAdmitted s.rule s.gap s.roster → IsCertified s cert.now
            → AreSharesAt s cert.now 0 result }
    {
        Shares {
            na: ClassShares {
                level: &cert.na.level,
                flags: cert.na.saturated.as_slice(),
            },
            be: ClassShares {
                level: &cert.be.level,
                flags: cert.be.saturated.as_slice(),
            },
        }
    }

    /// Returns the share of the next demand, 0 to 2,488,320 kbit/s. It must be the demand of the next row in map order.
    #[inline]
    pub fn next(&mut self, demand: &Demand) -> Share
        requires { IsNext self.old demand.now }
        ensures rate { (s : Input) (cert : MapCert) (i : ℕ) (r : Row) → AreSharesAt s cert i self.old
            → slice_get s.roster i ≡ Some r → demand.now ≡ demand_of s r
            → result.rate ≡ surplus_rate s cert r }
        ensures later { (s : Input) (cert : MapCert) (i : ℕ) (r : Row) → AreSharesAt s cert i self.old
            → slice_get s.roster i ≡ Some r → demand.now ≡ demand_of s r
            → AreSharesAt s cert (i + 1) self.new }
        ensures whole { result.whole ≡ result.rate.num / result.rate.den }
        ensures within { demand.now.guaranteed + result.whole ≤ LINE_RATE }
    {
        match demand.class {
            Class::Plain => Share {
                rate: Frac::new(0, 1),
                whole: 0,
            },
            Class::NonAssured => self.na.next(&demand.item),
            Class::BestEffort => self.be.next(&demand.item),
        }
    }
}
