//! The entries of a port, one after another.

ghost use Rattle.std.specs.Prelude.{◌≡◌, ◌≢◌, ◌↔◌, ◌+◌, ◌<◌, ◌≤◌, ◌^◌, ◌∷◌, [], ◌++◌, flat_map, length, IsTrue, MatchBool, MatchOption, slice_get, Some};
ghost use Rattle.pon_desk.specs.Settling.{placed_in};
ghost use Rattle.pon_desk.specs.Walks.{chapters_left, left_of, left_after};

use crate::receipt::Placed;
use pon_port::{Chapter, Entry, Port};

// The entries that are not passed yet: those of the present chapter from an index on, of the later chapters, and of the
// kept one if it is not the present one.
#[derive(Clone, Copy)]
pub(crate) struct Walk<'a> {
    number: u64,
    entries: &'a [Entry],
    index: usize,
    later: &'a [Chapter],
    kept: Option<&'a Port>,
}

// Returns whether this is the entry at its place.
fn is_placed(placed: &Placed, chapter: u64, index: usize, entry: &Entry) -> bool
    ensures { IsTrue result
        ↔ (placed.now ≡ record { chapter = chapter; index = index; entry = entry.now }) }
{
    if placed.chapter != chapter {
        return false;
    }
    if placed.index != index {
        return false;
    }
    placed.entry.is_same(entry)
}

// Returns the entry at an index, if there is one.
fn entry_at(entries: &[Entry], index: usize) -> Option<&Entry>
    ensures entry { MatchOption result (length entries.now ≤ index)
        (λ e. slice_get entries.now index ≡ Some e.now) }
    ensures fits { index < length entries.now → index + 1 < 2 ^ 64 }
{
    entries.get(index)
}

impl<'a> Walk<'a> {
    // Begins at the first entry of these chapters and then the kept one.
    pub(crate) fn new(chapters: &'a [Chapter], kept: &'a Port) -> Walk<'a>
        ensures { left_of result ≡ flat_map placed_in (chapters.now ++ kept.now ∷ []) }
    {
        match chapters.split_first() {
            Some((first, later)) => Walk {
                number: first.number(),
                entries: first.entries(),
                index: 0,
                later,
                kept: Some(kept),
            },
            None => Walk {
                number: kept.chapter_number(),
                entries: kept.history(),
                index: 0,
                later: chapters,
                kept: None,
            },
        }
    }

    // Begins the next chapter, if there is one.
    fn next_chapter(&self) -> Option<Walk<'a>>
        ensures left { MatchOption result (left_after self.now ≡ [])
            (λ next. left_of next ≡ left_after self.now) }
        ensures fewer { MatchOption result (Unit {0})
            (λ next. chapters_left next < chapters_left self.now) }
    {
        if let Some((first, later)) = self.later.split_first() {
            return Some(Walk {
                number: first.number(),
                entries: first.entries(),
                index: 0,
                later,
                kept: self.kept,
            });
        }
        let kept = self.kept?;
        Some(Walk {
            number: kept.chapter_number(),
            entries: kept.history(),
            index: 0,
            later: self.later,
            kept: None,
        })
    }

    // Returns the next entry, at the place where the walk then is. `None` if no entry is left.
    fn entry(&mut self) -> Option<&'a Entry>
        ensures same { left_of self.new ≡ left_of self.old }
        ensures entry { MatchOption result (left_of self.new ≡ [])
            (λ e. slice_get self.new.entries.now self.new.index ≡ Some e.now) }
        ensures fits { self.new.index < length self.new.entries.now
            → self.new.index + 1 < 2 ^ 64 }
    {
        while self.index >= self.entries.len() {
            match self.next_chapter() {
                Some(next) => *self = next,
                None => return None,
            }
        }
        entry_at(self.entries, self.index)
    }

    // Passes the next entry if it is this one at its place, and returns whether it is.
    pub(crate) fn passes(&mut self, placed: &Placed) -> bool
        ensures { MatchBool result (left_of self.old ≡ placed.now ∷ left_of self.new)
            (slice_get (left_of self.old) 0 ≢ Some placed.now) }
    {
        let Some(entry) = self.entry() else {
            return false;
        };
        if !is_placed(placed, self.number, self.index, entry) {
            return false;
        }
        self.index += 1;
        true
    }

    // Returns whether all entries are passed.
    pub(crate) fn is_at_end(&mut self) -> bool
        ensures { MatchBool result (left_of self.old ≡ []) (left_of self.old ≢ []) }
    {
        let Some(_entry) = self.entry() else {
            return true;
        };
        false
    }
}
