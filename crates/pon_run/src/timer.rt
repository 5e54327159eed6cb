//! Times at an even rate, by the clock: of the maps of a port, and of the looks at a run.

use std::time::{Clock, Duration, Instant};
use std::{io, thread};

/// Nanoseconds of a second.
const NANOSECONDS: u64 = 1_000_000_000;

/// The times at which turns begin: the same number in each second. A turn that begins late moves no other.
#[derive(Drop)]
pub(crate) struct Timer<'a, R> {
    rt: &'a R,
    // The number of turns of a second.
    rate: u64,
    // When the first turn began.
    begun: Option<Instant>,
    // The number of turns that have begun.
    turns: u64,
}

impl<'a, R: Clock> Timer<'a, R> {
    /// Makes the timer of this number of turns in each second, at least 1.
    pub(crate) fn new(rt: &'a R, rate: u64) -> Self {
        Timer {
            rt,
            rate: rate.max(1),
            begun: None,
            turns: 0,
        }
    }

    // Returns the time from the first turn to the one of this number.
    fn time_at(&self, turn: u64) -> Duration {
        Duration::from_nanos(turn.saturating_mul(NANOSECONDS) / self.rate.max(1))
    }

    // Sleeps until the next turn. Returns how late it is.
    fn sleep(&mut self) -> io::Result<Duration> {
        let now = Instant::now(self.rt)?;
        let begun = *self.begun.get_or_insert(now);
        let due = self.time_at(self.turns);
        let passed = now.duration_since(begun);
        self.turns = self.turns.saturating_add(1);
        if passed < due {
            thread::sleep(self.rt, due.saturating_sub(passed));
            return Ok(Duration::ZERO);
        }
        Ok(passed.saturating_sub(due))
    }

    /// Sleeps until the time of the next turn. Returns how late the turn is, if it is by the time between two turns or
    /// more: the one before took too long. Without a clock no turn waits.
    pub(crate) fn wait(&mut self) -> Option<Duration> {
        let late = self.sleep().unwrap_or(Duration::ZERO);
        if late >= self.time_at(1) {
            Some(late)
        } else {
            None
        }
    }
}
