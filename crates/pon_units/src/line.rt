// Quantities of a line: the gap before a burst, the burst profile, and the frame number.
ghost use Rattle.std.specs.Prelude.{◌≡◌, ◌≤◌};
ghost use Rattle.std.specs.Option.{SomeIff};

use crate::limits::{MAX_GAP, MAX_PROFILE, MIN_GAP};
use std::marker::Model;

/// Gap before each burst, in words of 4 bytes, 1 to 256: guard time, preamble and delimiter (ITU-T G.987.3,
/// PSBu).
#[derive(Clone, Copy, Debug, PartialEq, Eq, PartialOrd, Ord)]
pub struct Gap {
    gap: u16,
}

impl Model for Gap {
    ghost use Rattle.std.specs.Prelude.{ℕ, ◌≤◌};
    ghost use Rattle.pon_units.specs.declared.limits.TheConstants.{MAX_GAP, MIN_GAP};

    ghost Value = { ℕ };

    ghost view = { λ a. a.gap };

    ghost invariant = { λ a. (MIN_GAP ≤ a.gap) × (a.gap ≤ MAX_GAP) };

    ghost inverse = { λ n. record { gap = n } };
}

impl Gap {
    /// Returns `None` outside [`MIN_GAP`] to [`MAX_GAP`].
    pub fn new(n: u16) -> Option<Self>
        ensures { SomeIff result ((MIN_GAP ≤ n) × (n ≤ MAX_GAP)) n }
    {
        if n >= MIN_GAP && n <= MAX_GAP {
            Some(Gap { gap: n })
        } else {
            None
        }
    }

    /// Number of words, 1 to 256.
    pub fn get(self) -> u16
        ensures value { result ≡ self }
        ensures range { (MIN_GAP ≤ self) × (self ≤ MAX_GAP) }
    {
        self.gap
    }
}

/// The index of a burst profile, 0 to 3 (ITU-T G.987.3, BurstProfile).
#[derive(Clone, Copy, Debug, PartialEq, Eq, PartialOrd, Ord)]
pub struct Profile {
    profile: u8,
}

impl Model for Profile {
    ghost use Rattle.std.specs.Prelude.{ℕ, ◌≤◌};
    ghost use Rattle.pon_units.specs.declared.limits.TheConstants.{MAX_PROFILE};

    ghost Value = { ℕ };

    ghost view = { λ a. a.profile };

    ghost invariant = { λ a. a.profile ≤ MAX_PROFILE };

    ghost inverse = { λ n. record { profile = n } };
}

impl Profile {
    /// Returns `None` above [`MAX_PROFILE`].
    pub fn new(n: u8) -> Option<Self>
        ensures { SomeIff result (n ≤ MAX_PROFILE) n }
    {
        if n <= MAX_PROFILE {
            Some(Profile { profile: n })
        } else {
            None
        }
    }

    /// Index of the profile, 0 to 3.
    pub fn get(self) -> u8
        ensures value { result ≡ self }
        ensures range { self ≤ MAX_PROFILE }
    {
        self.profile
    }
}

/// The number of a frame of 125 µs, counted from any start: any `u64`.
#[derive(Clone, Copy, Debug, PartialEq, Eq, PartialOrd, Ord)]
pub struct FrameNo {
    frame: u64,
}

impl Model for FrameNo {
    ghost use Rattle.std.specs.Prelude.{ℕ};

    ghost Value = { ℕ };

    ghost view = { λ a. a.frame };

    ghost inverse = { λ n. record { frame = n } };
}

impl FrameNo {
    /// Returns the frame with this number.
    pub fn new(n: u64) -> Self
        ensures { result ≡ n }
    {
        FrameNo { frame: n }
    }

    /// Number of the frame.
    pub fn get(self) -> u64
        ensures { result ≡ self }
    {
        self.frame
    }
}
