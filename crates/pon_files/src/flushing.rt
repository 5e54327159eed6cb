//! When the chapters of a recording are cut by the clock.

use std::time::{Clock, Duration, Instant};

/// Says each time that a period has passed: then the chapters so far are cut and written.
#[derive(Drop)]
pub struct FlushTimer<'a, R> {
    rt: &'a R,
    period: Duration,
    // When the present period began.
    begun: Option<Instant>,
}

impl<'a, R: Clock> FlushTimer<'a, R> {
    /// Makes a timer with a period of this number of seconds. `None` if it is 0: chapters are cut only when they are full.
    pub fn new(rt: &'a R, seconds: u64) -> Option<Self> {
        if seconds == 0 {
            return None;
        }
        Some(FlushTimer {
            rt,
            period: Duration::from_secs(seconds),
            begun: Instant::now(rt).ok(),
        })
    }

    /// Returns whether the period has passed, and begins the next one if it has. Without a clock it never has.
    pub fn is_due(&mut self) -> bool {
        let Ok(now) = Instant::now(self.rt) else {
            return false;
        };
        let begun = *self.begun.get_or_insert(now);
        if now.duration_since(begun) < self.period {
            return false;
        }
        self.begun = Some(now);
        true
    }
}
