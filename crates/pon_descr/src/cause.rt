ghost use Rattle.std.specs.Prelude.{◌≡◌, ◌≤◌};
ghost use Rattle.std.specs.Option.{SomeIff};

use std::marker::Model;

/// Why a port is failed: 1 operator, 2 read, 3 write, 4 bad record, 5 end of input, 6 to 9 free for the caller.
#[derive(Clone, Copy, Debug, PartialEq, Eq)]
pub struct Cause {
    number: u8,
}

impl Model for Cause {
    ghost use Rattle.std.specs.Prelude.{ℕ, ◌≤◌};

    ghost Value = { ℕ };

    ghost view = { λ a. a.number };

    ghost invariant = { λ a. (1 ≤ a.number) × (a.number ≤ 9) };

    ghost inverse = { λ n. record { number = n } };
}

impl Cause {
    /// Makes the cause of a number; `None` outside 1 to 9.
    pub fn new(n: u8) -> Option<Self>
        ensures { SomeIff result ((1 ≤ n) × (n ≤ 9)) n }
    {
        if n >= 1 && n <= 9 {
            Some(Cause { number: n })
        } else {
            None
        }
    }

    /// Number of the cause, 1 to 9.
    pub fn get(self) -> u8
        ensures value { result ≡ self }
        ensures range { (1 ≤ self) × (self ≤ 9) }
    {
        self.number
    }
}
