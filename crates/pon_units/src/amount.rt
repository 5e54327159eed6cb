// Amounts: rates, words and occupancies.
ghost use Rattle.std.specs.Prelude.{◌≡◌, ◌≤◌};
ghost use Rattle.std.specs.Option.{SomeIff};

use crate::limits::{FRAME_WORDS, MAX_OCCUPANCY, MAX_RATE};
use std::marker::Model;

/// A rate in kbit/s, 0 to 4,294,967,040. One word of 4 bytes in each frame of 125 µs is 256 kbit/s,
/// so the greatest rate is that of the greatest occupancy, 16,777,215 words, sent in every frame.
#[derive(Clone, Copy, Debug, PartialEq, Eq, PartialOrd, Ord)]
pub struct Kbps {
    rate: u32,
}

impl Model for Kbps {
    ghost use Rattle.std.specs.Prelude.{ℕ, ◌≤◌};
    ghost use Rattle.pon_units.specs.declared.limits.TheConstants.{MAX_RATE};

    ghost Value = { ℕ };

    ghost view = { λ a. a.rate };

    ghost invariant = { λ a. a.rate ≤ MAX_RATE };

    ghost inverse = { λ n. record { rate = n } };
}

impl Kbps {
    /// Returns `None` above [`MAX_RATE`].
    pub fn new(n: u32) -> Option<Self>
        ensures { SomeIff result (n ≤ MAX_RATE) n }
    {
        if n <= MAX_RATE {
            Some(Kbps { rate: n })
        } else {
            None
        }
    }

    /// Rate in kbit/s, 0 to 4,294,967,040.
    pub fn get(self) -> u32
        ensures value { result ≡ self }
        ensures range { self ≤ MAX_RATE }
    {
        self.rate
    }
}

/// Words of 4 bytes in one upstream frame, 0 to 9,720: at 2.48832 Gbit/s a frame of 125 µs has 38,880
/// bytes (ITU-T G.987.3, upstream frame).
#[derive(Clone, Copy, Debug, PartialEq, Eq, PartialOrd, Ord)]
pub struct Words {
    words: u16,
}

impl Model for Words {
    ghost use Rattle.std.specs.Prelude.{ℕ, ◌≤◌};
    ghost use Rattle.pon_units.specs.declared.limits.TheConstants.{FRAME_WORDS};

    ghost Value = { ℕ };

    ghost view = { λ a. a.words };

    ghost invariant = { λ a. a.words ≤ FRAME_WORDS };

    ghost inverse = { λ n. record { words = n } };
}

impl Words {
    /// Returns `None` above [`FRAME_WORDS`].
    pub fn new(n: u16) -> Option<Self>
        ensures { SomeIff result (n ≤ FRAME_WORDS) n }
    {
        if n <= FRAME_WORDS {
            Some(Words { words: n })
        } else {
            None
        }
    }

    /// Number of words, 0 to 9,720.
    pub fn get(self) -> u16
        ensures value { result ≡ self }
        ensures range { self ≤ FRAME_WORDS }
    {
        self.words
    }
}

/// No words.
impl Default for Words {
    ghost use Rattle.std.specs.Prelude.{◌≡◌};

    ghost is_default = { λ w. w ≡ 0 };

    fn default() -> Self {
        Words { words: 0 }
    }
}

/// A buffer occupancy, 0 to 16,777,215: the number of words of 4 bytes that wait at an allocation, as it reports
/// them in 24 bits (ITU-T G.987.3, BufOcc of the dynamic bandwidth report).
#[derive(Clone, Copy, Debug, PartialEq, Eq, PartialOrd, Ord)]
pub struct BufOcc {
    occupancy: u32,
}

impl Model for BufOcc {
    ghost use Rattle.std.specs.Prelude.{ℕ, ◌≤◌};
    ghost use Rattle.pon_units.specs.declared.limits.TheConstants.{MAX_OCCUPANCY};

    ghost Value = { ℕ };

    ghost view = { λ a. a.occupancy };

    ghost invariant = { λ a. a.occupancy ≤ MAX_OCCUPANCY };

    ghost inverse = { λ n. record { occupancy = n } };
}

impl BufOcc {
    /// Returns `None` above [`MAX_OCCUPANCY`].
    pub fn new(n: u32) -> Option<Self>
        ensures { SomeIff result (n ≤ MAX_OCCUPANCY) n }
    {
        if n <= MAX_OCCUPANCY {
            Some(BufOcc { occupancy: n })
        } else {
            None
        }
    }

    /// Number of words, 0 to 16,777,215.
    pub fn get(self) -> u32
        ensures value { result ≡ self }
        ensures range { self ≤ MAX_OCCUPANCY }
    {
        self.occupancy
    }
}
