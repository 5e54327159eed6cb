ghost use Rattle.std.specs.Prelude.{◌≡◌, ◌<◌, ◌==◌, ◌↔◌, ◌++◌, [], ◌∷◌, true, false, min, map, length, Some, IsNone, IfSome, MatchOption};
ghost use Rattle.std.specs.List.{list_any};
ghost use Rattle.pon_link.specs.Growing.{with_queue};
ghost use Rattle.pon_link.specs.Units.{owns, asks, answered, waiting, queue_after, served, reported_occupancies};

use crate::record::UpRecord;
use arrayvec::ArrayVec;
use pon_bwmap::{Alloc, Map};
use pon_dbru::Occupancies;
use pon_units::{AllocId, BufOcc, FrameNo, MAX_OCCUPANCY, MAX_SERIES, OnuId};
use pon_xgtc::BurstHead;
use std::marker::Model;

/// A simulated ONU: it has words waiting for each of its own Alloc-IDs, and answers maps with reports of them. It
/// allocates no memory.
#[derive(Drop)]
pub struct Unit {
    onu: OnuId,
    queues: ArrayVec<(AllocId, u32), MAX_SERIES>,
}

impl Model for Unit {
    ghost use Rattle.pon_link.specs.Units.{UnitState};

    ghost Value = { UnitState };

    ghost view = { λ s. record { onu = s.onu; queues = s.queues.items } };
}

impl Unit {
    /// Makes a simulated ONU with this ONU-ID, and with the words that wait for each Alloc-ID; for an Alloc-ID listed
    /// twice the first number is reported.
    pub fn open(onu: OnuId, queues: ArrayVec<(AllocId, u32), MAX_SERIES>) -> Self
        ensures { result ≡ record { onu = onu; queues = queues.items } }
    {
        Unit { onu, queues }
    }

    /// Returns its ONU-ID.
    pub fn onu(&self) -> OnuId
        ensures { result ≡ self.now.onu }
    {
        self.onu
    }

    /// Adds an empty queue for an Alloc-ID, which becomes one of its own. If it has 16 already, nothing happens.
    pub fn add_queue(&mut self, alloc_id: AllocId)
        ensures { self.new ≡ with_queue alloc_id self.old }
    {
        if !self.queues.is_full() {
            self.queues.push((alloc_id, 0));
        }
    }

    /// Returns whether the Alloc-ID is one of its own.
    pub fn owns(&self, alloc_id: u16) -> bool
        ensures { result ≡ owns self.now.queues alloc_id }
    {
        words_waiting(self.queues.as_slice(), alloc_id).is_some()
    }

    /// Answers the map of a frame with a burst. For each of the first 16 structures that request a report for an
    /// Alloc-ID of its own, in order, it reports the words that wait, at most 16,777,215; the waiting words are then
    /// reduced by the grant less the word of the report. The burst header has the ONU-ID and no indications.
    ///
    /// `None` exactly when there is no such structure.
    pub fn answer(&mut self, frame: FrameNo, map: &Map) -> Option<UpRecord>
        ensures none { IsNone result ↔ (answered self.old.queues map.now ≡ []) }
        ensures burst { IfSome result (λ burst. burst ≡ record {
          frame = frame;
          head = Some (record { onu_raw = self.old.onu; ind = 0 });
          occ = reported_occupancies self.old.queues (answered self.old.queues map.now);
        }) }
        ensures queues { self.new ≡ record {
          onu = self.old.onu;
          queues = served self.old.queues (answered self.old.queues map.now);
        } }
    {
        self.answer_rows(frame, map.rows())
    }

    /// Answers these structures of a map of the frame, as [`Unit::answer`] answers a whole map.
    ///
    /// `None` exactly when none of them requests a report for an Alloc-ID of its own.
    pub fn answer_rows(&mut self, frame: FrameNo, rows: &[Alloc]) -> Option<UpRecord>
        ensures none { IsNone result ↔ (answered self.old.queues rows.now ≡ []) }
        ensures burst { IfSome result (λ burst. burst ≡ record {
          frame = frame;
          head = Some (record { onu_raw = self.old.onu; ind = 0 });
          occ = reported_occupancies self.old.queues (answered self.old.queues rows.now);
        }) }
        ensures queues { self.new ≡ record {
          onu = self.old.onu;
          queues = served self.old.queues (answered self.old.queues rows.now);
        } }
    {
        let occ = answer_all(self.queues.as_mut_slice(), rows);
        if occ.as_slice().is_empty() {
            return None;
        }
        let head = BurstHead::new(self.onu.get(), 0);
        Some(UpRecord { frame, head, occ })
    }
}

// Answers the first 16 structures that request a report.
fn answer_all(queues: &mut [(AllocId, u32)], rows: &[Alloc]) -> Occupancies
    ensures reports { result ≡ reported_occupancies queues.old (answered queues.old rows.now) }
    ensures queues { queues.new ≡ served queues.old (answered queues.old rows.now) }
{
    let mut occ = Occupancies::new();
    for row in rows {
        if occ.as_slice().len() < MAX_SERIES {
            answer_one(queues, &mut occ, row);
        }
    }
    occ
}

// Answers a structure, if it requests a report.
fn answer_one(queues: &mut [(AllocId, u32)], occ: &mut Occupancies, row: &Alloc)
    requires { length occ.old < MAX_SERIES }
    ensures asks { asks queues.old row.now ≡ true
        → (occ.new ≡ occ.old ++ Some (min (waiting queues.old row.now.id) MAX_OCCUPANCY) ∷ [])
        × (queues.new ≡ map (queue_after row.now) queues.old) }
    ensures others { asks queues.old row.now ≡ false
        → (occ.new ≡ occ.old) × (queues.new ≡ queues.old) }
{
    if !row.dbru() {
        return;
    }
    if let Some(words) = words_waiting(queues, row.id()) {
        occ.push(BufOcc::new(words.min(MAX_OCCUPANCY)));
        deduct_grant(queues, row);
    }
}

// Returns the words that wait for the Alloc-ID, if it is one of these.
fn words_waiting(queues: &[(AllocId, u32)], id: u16) -> Option<u32>
    ensures { MatchOption result (list_any (λ q. q.0 == id) queues.now ≡ false)
        (λ words. (list_any (λ q. q.0 == id) queues.now ≡ true) × (words ≡ waiting queues.now id)) }
{
    for (alloc_id, words) in queues {
        if alloc_id.get() == id {
            return Some(*words);
        }
    }
    None
}

// Subtracts the payload words that the structure grants from the words that wait.
fn deduct_grant(queues: &mut [(AllocId, u32)], row: &Alloc)
    ensures { queues.new ≡ map (queue_after row.now) queues.old }
{
    for queue in queues.iter_mut() {
        *queue = queue_after(*queue, row);
    }
}

// Computes the queue after the structure.
fn queue_after(queue: (AllocId, u32), row: &Alloc) -> (AllocId, u32)
    ensures { result ≡ queue_after row.now queue }
{
    let (alloc_id, words) = queue;
    if alloc_id.get() != row.id() {
        return (alloc_id, words);
    }
    let payload = row.grant().saturating_sub(1);
    (alloc_id, words.saturating_sub(u32::from(payload)))
}
