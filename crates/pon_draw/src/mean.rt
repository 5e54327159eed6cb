//! Means with one decimal place: of rates in kbit/s, and of the words that wait.

ghost use Rattle.std.specs.Prelude.{◌≡◌, ◌+◌, ◌*◌, ◌/◌, ◌<◌, ◌^◌, MatchOption};
ghost use Rattle.pon_draw.specs.Means.{IsDelay, IsWaiting, tenths_of};

use pon_units::WORD_RATE;
use std::fmt::{self, Display, Formatter, Write};

// The rate of a word in each frame, in kbit/s.
const RATE_OF_WORD: u16 = WORD_RATE as u16;

/// The load of a kilobyte, 250 words of 4 bytes that wait, in kbit/s.
const LOAD_OF_KILOBYTE: u16 = 250 * RATE_OF_WORD;

/// The load of the words that wait if each of the 8 frames of a millisecond grants one of them, in kbit/s.
const LOAD_OF_MILLISECOND: u16 = 8 * RATE_OF_WORD;

// Computes a mean in tenths, rounded half up.
fn mean_tenths(sum: u128, count: u128) -> u128
    requires sum { sum < 2 ^ 80 }
    requires count { 0 < count }
    requires small { count < 2 ^ 80 }
    ensures { result ≡ (20 * sum + count) / (2 * count) }
{
    let doubled = 2 * count;
    (20 * sum + count) / doubled
}

/// The mean of `count * divisor` numbers with the sum `sum * factor`, with one decimal place, rounded half up; `-` without
/// numbers.
#[derive(Clone, Copy)]
pub struct Mean {
    sum: u64,
    factor: u16,
    count: u64,
    divisor: u16,
}

impl Mean {
    /// The mean of the rates of maps, in kbit/s, given their sum.
    pub fn of_rates(sum: u64, maps: u64) -> Mean {
        let (factor, count, divisor) = (1, maps, 1);
        Mean {
            sum,
            factor,
            count,
            divisor,
        }
    }

    /// The mean rate of the words of maps, in kbit/s, given their sum.
    pub fn of_words(sum: u64, maps: u64) -> Mean {
        let (factor, count, divisor) = (RATE_OF_WORD, maps, 1);
        Mean {
            sum,
            factor,
            count,
            divisor,
        }
    }

    /// The mean of the words that wait before maps, in kilobytes of 1,000 bytes, given the sum of their loads in kbit/s.
    pub(crate) fn of_waiting(loads: u64, maps: u64) -> Mean
        ensures { IsWaiting loads maps result }
    {
        let (sum, factor, count) = (loads, 1, maps);
        Mean {
            sum,
            factor,
            count,
            divisor: LOAD_OF_KILOBYTE,
        }
    }

    /// The milliseconds in which maps like these grant the words that wait, given the sum of their loads in kbit/s and of
    /// the words that they granted: 0 if no words wait, and none if words wait and none were granted.
    pub(crate) fn of_delay(loads: u64, granted: u64) -> Mean
        ensures { IsDelay loads granted result }
    {
        let count = if loads == 0 { 1 } else { granted };
        let (sum, factor) = (loads, 1);
        Mean {
            sum,
            factor,
            count,
            divisor: LOAD_OF_MILLISECOND,
        }
    }

    /// The mean in tenths, rounded half up; `None` without numbers.
    pub(crate) fn tenths(self) -> Option<u128>
        ensures { MatchOption result (self.count * self.divisor ≡ 0) (λ tenths. tenths ≡ tenths_of self) }
    {
        let count = u128::from(self.count) * u128::from(self.divisor);
        if count == 0 {
            return None;
        }
        let sum = u128::from(self.sum) * u128::from(self.factor);
        Some(mean_tenths(sum, count))
    }
}

impl Display for Mean {
    fn fmt<W: Write>(&self, f: &mut Formatter<W>) -> fmt::Result {
        let mean = *self;
        match mean.tenths() {
            None => f.write_str("-"),
            Some(tenths) => {
                let (whole, tenth) = (tenths / 10, tenths % 10);
                write!(f, "{whole}.{tenth}")
            }
        }
    }
}
