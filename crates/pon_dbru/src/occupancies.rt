use arrayvec::ArrayVec;
use pon_units::{BufOcc, MAX_SERIES};
use std::marker::Model;

/// The occupancies that an ONU reports in one burst, in words, for its structures in order: at most 16. A garbled
/// report is `None`.
#[derive(Debug, PartialEq, Eq, Drop)]
pub struct Occupancies {
    reports: ArrayVec<Option<BufOcc>, MAX_SERIES>,
}

impl Model for Occupancies {
    ghost use Rattle.std.specs.Prelude.{ℕ, List, Option};

    ghost Value = { List (Option ℕ) };

    ghost view = { λ o. o.reports.items };

    ghost inverse = { λ v. record { reports = record { items = v } } };
}

impl Occupancies {
    ghost use Rattle.std.specs.Prelude.{◌≡◌, ◌<◌, ◌≤◌, [], ◌∷◌, ◌++◌, length};

    /// Makes an empty list of occupancies.
    pub fn new() -> Self
        ensures { result ≡ [] }
    {
        Occupancies {
            reports: ArrayVec::new(),
        }
    }

    /// Appends the occupancy of the next report, or `None` if it is garbled. The list holds at most 16.
    pub fn push(&mut self, report: Option<BufOcc>)
        requires { length self.old < MAX_SERIES }
        ensures { self.new ≡ self.old ++ report ∷ [] }
    {
        self.reports.push(report);
    }

    /// Makes an equal list of occupancies. It allocates no memory.
    pub fn copy(&self) -> Self
        ensures { result ≡ self.now }
    {
        let mut copy = Occupancies::new();
        let reports = self.as_slice();
        for report in reports {
            copy.push(*report);
        }
        copy
    }

    /// Returns the occupancies, in order, at most 16.
    pub fn as_slice(&self) -> &[Option<BufOcc>]
        ensures value { result.now ≡ self.now }
        ensures range { length self.now ≤ MAX_SERIES }
    {
        self.reports.as_slice()
    }
}
