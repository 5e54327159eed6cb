ghost use Rattle.std.specs.Prelude.{◌≡◌, ◌+◌, min};

use pon_descr::{Cause, Refusal};
use pon_plant::StepFault;
use pon_xgtc::BurstHead;

/// Why a worker ended.
#[derive(Clone, Copy, Debug, PartialEq, Eq)]
pub enum StopReason {
    /// Its pace gave it no more turns.
    Finished,
    /// It gave up its link, and posted that the port is failed, with this cause: 2 if three reads in a row failed, 3 if
    /// three writes in a row failed, 4 if what it read is not a record, 5 if the input ended.
    Gave { cause: Cause },
    /// Its gate refused it 10,000 times in a row.
    GateLimit,
    /// The desk made no map, or memory was refused for a report: then `Refused(OutOfMemory)`.
    Refused(StepFault),
}

/// What a port counted of its worker's turns. `garbled`, `unowned` and `refused` stay at 2^64 - 1 once they reach it.
#[derive(Clone, Copy, Debug, PartialEq, Eq)]
pub struct PortCounts {
    /// The number of maps that the port made for its worker.
    pub maps: u64,
    /// The number of reports that the port took.
    pub reports: u64,
    /// The number of records without a sender, which the worker dropped.
    pub garbled: u64,
    /// The number of those whose burst header is sound and has the ONU-ID 1023: no unit owns the burst. The burst headers
    /// of the others are refused: they are damaged.
    pub unowned: u64,
    /// The number of reports that the port refused.
    pub refused: u64,
}

/// How a worker ended, and what it did.
#[derive(Clone, Copy, Debug, PartialEq, Eq)]
pub struct WorkerEnd {
    /// What its port counted.
    pub counts: PortCounts,
    /// Why it ended.
    pub why: StopReason,
}

/// The greatest value of a count.
pub(crate) const MAX_COUNT: u64 = u64::MAX;

// Returns the next count, at most the greatest value.
pub(crate) fn count(number: u64) -> u64
    ensures { result ≡ min (number + 1) MAX_COUNT }
{
    number.saturating_add(1)
}

impl PortCounts {
    ghost use Rattle.pon_worker.specs.Records.{after_garbled, after_report};
    ghost use Rattle.pon_worker.specs.Turns.{no_counts};
    ghost use Rattle.std.specs.Prelude.{◌≡◌, ◌≢◌, ◌+◌, ◌<◌, ◌≤◌, ◌^◌, MatchBool, OnOk, min};

    /// Counts of 0.
    pub fn none() -> PortCounts
        ensures { result ≡ no_counts }
    {
        PortCounts {
            maps: 0,
            reports: 0,
            garbled: 0,
            unowned: 0,
            refused: 0,
        }
    }

    /// Returns these counts and others together, each at most 2^64 - 1.
    pub fn plus(&self, other: &PortCounts) -> PortCounts
        ensures maps { result.maps ≡ min (self.now.maps + other.now.maps) MAX_COUNT }
        ensures reports { result.reports ≡ min (self.now.reports + other.now.reports) MAX_COUNT }
        ensures garbled { result.garbled ≡ min (self.now.garbled + other.now.garbled) MAX_COUNT }
        ensures unowned { result.unowned ≡ min (self.now.unowned + other.now.unowned) MAX_COUNT }
        ensures refused { result.refused ≡ min (self.now.refused + other.now.refused) MAX_COUNT }
    {
        PortCounts {
            maps: self.maps.saturating_add(other.maps),
            reports: self.reports.saturating_add(other.reports),
            garbled: self.garbled.saturating_add(other.garbled),
            unowned: self.unowned.saturating_add(other.unowned),
            refused: self.refused.saturating_add(other.refused),
        }
    }

    // Proves that no count is above the greatest value.
    pub(crate) fn prove_in_range(&self)
        ensures garbled { self.now.garbled ≤ MAX_COUNT }
        ensures unowned { self.now.unowned ≤ MAX_COUNT }
        ensures refused { self.now.refused ≤ MAX_COUNT }
    {
        let _garbled = self.garbled;
        let _unowned = self.unowned;
        let _refused = self.refused;
    }

    // Counts a record without a sender, which no unit owns if it has a burst header.
    pub(crate) fn count_garbled(&mut self, head: Option<BurstHead>)
        ensures { self.new ≡ after_garbled head self.old }
    {
        self.prove_in_range();
        self.garbled = count(self.garbled);
        if head.is_some() {
            self.unowned = count(self.unowned);
        }
    }

    // Counts a report that was posted. Returns `false` if memory was refused for it.
    pub(crate) fn count_report(&mut self, posted: Result<(), StepFault>) -> bool
        requires { OnOk posted (self.old.reports + 1 < 2 ^ 64) }
        ensures counts { self.new ≡ after_report posted self.old }
        ensures memory { MatchBool result (posted ≢ Err (StepFault.Refused Refusal.OutOfMemory))
            (posted ≡ Err (StepFault.Refused Refusal.OutOfMemory)) }
    {
        match posted {
            Ok(()) => {
                self.reports += 1;
                true
            }
            Err(fault) => {
                self.refused = count(self.refused);
                if fault == StepFault::Refused(Refusal::OutOfMemory) {
                    return false;
                }
                true
            }
        }
    }

    // Returns the end of a worker with these counts.
    pub(crate) fn end(&self, why: StopReason) -> WorkerEnd
        ensures counts { result.counts ≡ self.now }
        ensures why { result.why ≡ why }
    {
        WorkerEnd { counts: *self, why }
    }
}
