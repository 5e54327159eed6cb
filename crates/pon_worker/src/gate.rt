ghost use Rattle.std.specs.Prelude.{◌≡◌, ◌+◌, true, MatchBool};

use crate::counts::PortCounts;
use pon_units::PortNo;
use std::marker::Model;

/// A point of a worker's turn where its gate is called.
#[derive(Clone, Copy, Debug, PartialEq, Eq)]
pub enum Point {
    /// The map is made, and not sent yet.
    Send,
    /// The map is sent, and no burst is read yet.
    Read,
}

/// Holds workers back, or lets them pass.
pub trait Gate {
    /// Returns whether the worker of this port may pass this point now.
    fn pass(&self, port: PortNo, point: Point) -> bool;
}

/// A gate that always lets each worker pass.
#[derive(Clone, Copy, Debug, PartialEq, Eq)]
pub struct OpenGate;

impl Gate for OpenGate {
    fn pass(&self, _port: PortNo, _point: Point) -> bool
        ensures { result ≡ true }
    {
        true
    }
}

/// Gives a worker its turns.
pub trait Pace {
    /// Returns whether the worker makes another turn, after what its port counted so far. `dropped` is the number of
    /// chapters that its sink dropped.
    fn next(&mut self, counts: &PortCounts, dropped: u64) -> bool;
}

/// A number of turns. Contracts see the number of turns that are left.
#[derive(Clone, Copy, Debug, PartialEq, Eq)]
pub struct Turns {
    left: u64,
}

impl Model for Turns {
    ghost use Rattle.std.specs.Prelude.{ℕ};

    ghost Value = { ℕ };

    ghost view = { λ t. t.left };

    ghost inverse = { λ n. record { left = n } };
}

impl Turns {
    /// Creates this number of turns.
    pub fn new(number: u64) -> Turns
        ensures { result ≡ number }
    {
        Turns { left: number }
    }
}

impl Pace for Turns {
    fn next(&mut self, _counts: &PortCounts, _dropped: u64) -> bool
        ensures { MatchBool result (self.old ≡ self.new + 1) ((self.old ≡ 0) × (self.new ≡ 0)) }
    {
        let more = self.left > 0;
        self.left = self.left.saturating_sub(1);
        more
    }
}

/// Maximum number of calls in a row of a gate at one point.
const MAX_ASKS: usize = 10_000;

// Calls the gate until the worker may pass, and gives up after 10,000 refusals.
pub(crate) fn pass<G: Gate>(gate: &G, port: PortNo, point: Point) -> bool {
    for _ask in 0..MAX_ASKS {
        if gate.pass(port, point) {
            return true;
        }
    }
    false
}
