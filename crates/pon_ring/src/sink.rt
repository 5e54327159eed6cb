ghost use Rattle.std.specs.Prelude.{◌++◌, option_to_list};
ghost use Rattle.std.specs.Option.{ForSome};
ghost use Rattle.pon_ring.specs.Numbers.{AreBelow, ComesAfter, next_number};
ghost use Rattle.pon_ring.specs.Rings.{sent_chapters};

use crate::ring_in::RingIn;
use pon_history::Chapter;
use pon_state::Entry;

/// The end of a ring, with at most one chapter that waits for room, and the number of dropped chapters.
#[derive(Drop)]
pub(crate) struct Outlet {
    pub(crate) ring: RingIn,
    pub(crate) pending: Option<Chapter>,
    // The greatest number of all chapters that came, those that were dropped too.
    pub(crate) newest: Option<u64>,
    pub(crate) dropped: u64,
    ghost waits: { ForSome pending (ComesAfter (sent_chapters ring)) },
    ghost up_to: { AreBelow (next_number newest) (sent_chapters ring ++ option_to_list pending) },
}

impl Outlet {
    ghost use Rattle.std.specs.Prelude.{◌≡◌, ◌≤◌, ◌<◌, true, false, MatchOption, Some};
    ghost use Rattle.pon_ring.specs.Numbers.{AreBelow, newest_after, next_number};
    ghost use Rattle.pon_ring.specs.Sinks.{IsDropped, IsPassed, passed};
    ghost use Rattle.pon_ring.specs.Rings.{SameIn};

    // Lets the waiting chapter go into the ring, if there is room.
    fn send_pending(&mut self)
        ensures ring { SameIn self.old.ring self.new.ring }
        ensures passed { passed self.new ≡ passed self.old }
        ensures newest { self.new.newest ≡ self.old.newest }
        ensures dropped { self.new.dropped ≡ self.old.dropped }
    {
        let Some(chapter) = self.pending.take() else {
            return;
        };
        if let Err(back) = self.ring.push(chapter) {
            self.pending = Some(back);
        }
    }

    // Returns whether a number is above those of all chapters that came.
    fn is_newer(&self, number: u64) -> bool
        ensures newer { result ≡ true → AreBelow number (passed self.now) }
        ensures older { result ≡ false → number < next_number self.now.newest }
        ensures newest { result ≡ true → next_number self.now.newest ≤ number }
    {
        match self.newest {
            None => true,
            Some(newest) => newest < number,
        }
    }

    // Notes the number of a chapter that came. Returns whether it is above those of all that came before.
    fn note(&mut self, number: u64) -> bool
        ensures ring { self.new.ring ≡ self.old.ring }
        ensures pending { self.new.pending ≡ self.old.pending }
        ensures dropped { self.new.dropped ≡ self.old.dropped }
        ensures newest { self.new.newest ≡ newest_after self.old.newest number }
        ensures newer { result ≡ true → AreBelow number (passed self.old)
            × (next_number self.old.newest ≤ number) }
        ensures noted { result ≡ true → self.new.newest ≡ Some number }
        ensures older { result ≡ false → number < next_number self.old.newest }
    {
        let newer = self.is_newer(number);
        if newer {
            self.newest = Some(number);
        }
        newer
    }

    // Passes a chapter on, or counts it as dropped and returns it.
    pub(crate) fn pass(&mut self, chapter: Chapter) -> Option<Chapter>
        ensures ring { SameIn self.old.ring self.new.ring }
        ensures passes { MatchOption result (IsPassed self.old chapter self.new)
            (λ back. (back ≡ chapter) × IsDropped self.old chapter self.new) }
    {
        self.send_pending();
        let newer = self.note(chapter.number());
        if self.pending.is_some() || !newer {
            self.dropped = self.dropped.saturating_add(1);
            return Some(chapter);
        }
        if let Err(back) = self.ring.push(chapter) {
            self.pending = Some(back);
        }
        None
    }
}

/// Number of entries that one call of [`Sink::free_some`] frees.
pub(crate) const FREED_AT_ONCE: usize = 2;

/// Where a worker passes the chapters of its port: to a ring, or nowhere.
///
/// The entries of a chapter that goes nowhere, or is dropped, are not freed at once: they wait to be freed by
/// [`Sink::free_some`].
#[derive(Drop)]
pub struct Sink {
    pub(crate) outlet: Option<Outlet>,
    pub(crate) cut: u32,
    // The entries that wait to be freed, of one chapter.
    pub(crate) discarded: Option<Vec<Entry>>,
}

/// What is left in a sink.
#[derive(Drop)]
pub struct Rest {
    /// The end of the ring.
    pub ring: RingIn,
    /// The chapter that waits for room, if there is one.
    pub pending: Option<Chapter>,
    /// The number of dropped chapters, at most 2^64 - 1.
    pub dropped: u64,
}

impl Sink {
    ghost use Rattle.std.specs.Prelude.{◌≡◌, ◌++◌, ◌↔◌, ◌≤◌, ◌<◌, ◌+◌, ◌-◌, ◌^◌, true, take, IsSomeAnd, MatchOption, None, option_to_list};
    ghost use Rattle.pon_ring.specs.Discarded.{Discards, Frees, discarded_entries};
    ghost use Rattle.pon_ring.specs.Sinks.{IsRest, PassesOn, StartsWith, dropped_of};

    /// Returns the sink of a port whose chapters go nowhere, with the greatest cut: it wants no turn.
    pub fn none() -> Sink
        ensures outlet { result.outlet ≡ None }
        ensures cut { result.cut ≡ 2 ^ 32 - 1 }
    {
        Sink {
            outlet: None,
            cut: u32::MAX,
            discarded: None,
        }
    }

    /// Returns a sink over a ring, for a worker that turns its port after the entry of index `cut` - 1 and each later
    /// one.
    pub fn ring(ring: RingIn, cut: u32) -> Sink
        ensures outlet { IsSomeAnd result.outlet (StartsWith ring) }
        ensures cut { result.cut ≡ cut }
    {
        let newest = ring.last();
        let outlet = Some(Outlet {
            ring,
            pending: None,
            newest,
            dropped: 0,
        });
        Sink {
            outlet,
            cut,
            discarded: None,
        }
    }

    /// Returns whether the worker turns its port after an entry of this index.
    pub fn wants_turn(&self, index: usize) -> bool
        ensures { (result ≡ true) ↔ (self.now.cut ≤ index + 1) }
    {
        index >= (self.cut as usize).saturating_sub(1)
    }

    // Keeps the entries of a chapter until they are freed. Those that waited before are freed now.
    fn discard(&mut self, chapter: Chapter)
        ensures outlet { self.new.outlet ≡ self.old.outlet }
        ensures cut { self.new.cut ≡ self.old.cut }
        ensures discarded { discarded_entries self.new ≡ chapter.entries }
    {
        self.discarded = Some(chapter.into_entries());
    }

    /// Passes a chapter on: first lets the waiting one into the ring, then this one; if it finds no room, it waits, and
    /// if another one waits, or its number is not above those of all that came, it is dropped and counted.
    ///
    /// The entries of a chapter that is not passed on wait to be freed; those of an earlier one that still wait are
    /// freed now.
    pub fn pass(&mut self, chapter: Chapter)
        ensures passes { PassesOn self.old.outlet chapter self.new.outlet }
        ensures cut { self.new.cut ≡ self.old.cut }
        ensures discarded { Discards self.old chapter self.new }
    {
        match &mut self.outlet {
            None => self.discard(chapter),
            Some(outlet) => match outlet.pass(chapter) {
                None => {}
                Some(chapter) => self.discard(chapter),
            },
        }
    }

    /// Frees at most two of the entries that wait to be freed, the last ones. A worker that calls it at each of its
    /// posts frees a dropped chapter before the next one of as many entries is dropped.
    pub fn free_some(&mut self)
        ensures outlet { self.new.outlet ≡ self.old.outlet }
        ensures cut { self.new.cut ≡ self.old.cut }
        ensures frees { Frees self.old self.new }
    {
        let Some(mut entries) = self.discarded.take() else {
            return;
        };
        let kept = entries.len().saturating_sub(FREED_AT_ONCE);
        entries.truncate(kept);
        if kept > 0 {
            self.discarded = Some(entries);
        }
    }

    /// The number of dropped chapters, at most 2^64 - 1.
    pub fn dropped(&self) -> u64
        ensures { result ≡ dropped_of self.now.outlet }
    {
        match &self.outlet {
            None => 0,
            Some(outlet) => outlet.dropped,
        }
    }

    /// Takes the sink apart. `None` if it has no ring.
    pub fn into_rest(self) -> Option<Rest>
        ensures { MatchOption result (self.outlet ≡ None) (IsRest self.outlet) }
    {
        let Sink { outlet, .. } = self;
        let Outlet {
            ring,
            pending,
            newest: _,
            dropped,
        } = outlet?;
        Some(Rest {
            ring,
            pending,
            dropped,
        })
    }
}
