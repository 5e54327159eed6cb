//! What is drawn of the loads of an Alloc-ID, and its scales.

use crate::mean::Mean;
use pon_units::WORD_RATE;
use pon_why::{Series, Sums};

/// Tenths of a unit.
const TENTHS: u64 = 10;

/// A series of loads, and the greatest maximum rate that the Alloc-ID had, in kbit/s.
#[derive(Clone, Copy)]
pub struct Steps<'a> {
    /// The series.
    pub series: &'a Series,
    /// The maximum rate, in kbit/s.
    pub max: u64,
}

/// The mean rates of a step in whole kbit/s, and the mean backlog in tenths of a kilobyte.
#[derive(Clone, Copy)]
pub(crate) struct Means {
    pub(crate) guaranteed: u64,
    pub(crate) granted: u64,
    pub(crate) backlog: u64,
}

// Returns the mean backlog of sums in tenths of a kilobyte.
fn backlog_of(sums: &Sums) -> u64 {
    let tenths = Mean::of_waiting(sums.load, sums.maps).tenths();
    u64::try_from(tenths.unwrap_or(0)).unwrap_or(u64::MAX)
}

impl Means {
    /// The means of sums; `None` of no map.
    pub(crate) fn of(sums: &Sums) -> Option<Means> {
        if sums.maps == 0 {
            return None;
        }
        Some(Means {
            guaranteed: sums.guaranteed / sums.maps,
            granted: sums.granted.saturating_mul(WORD_RATE) / sums.maps,
            backlog: backlog_of(sums),
        })
    }
}

/// The ends of the scales: a rate in kbit/s, and a backlog in tenths of a kilobyte.
#[derive(Clone, Copy)]
pub(crate) struct Scales {
    pub(crate) rate: u64,
    pub(crate) backlog: u64,
}

impl Steps<'_> {
    /// The means of a step, counted from 0; `None` without a map.
    pub(crate) fn means(&self, step: usize) -> Option<Means> {
        self.series.steps().get(step).and_then(Means::of)
    }

    /// The scales: the rate ends at the greater of the maximum rate and the greatest granted one, the backlog at the
    /// greatest one, in whole kilobytes.
    pub(crate) fn scales(&self) -> Scales {
        let (mut rate, mut backlog) = (self.max.max(1), 1);
        for sums in self.series.steps() {
            if let Some(means) = Means::of(sums) {
                rate = means.granted.max(rate);
                backlog = means.backlog.max(backlog);
            }
        }
        let backlog = backlog.div_ceil(TENTHS).saturating_mul(TENTHS);
        Scales { rate, backlog }
    }
}
