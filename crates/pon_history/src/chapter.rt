use pon_state::{Entry, PortState};
use std::marker::Model;

/// A chapter that a port has returned: its number, the state that it opens with, and its entries, oldest first. By an
/// invariant of the type it is lawful, and its opening is in range, whoever passes it on.
#[derive(Drop)]
pub struct Chapter {
    number: u64,
    opening: PortState,
    entries: Vec<Entry>,
}

impl Model for Chapter {
    ghost use Rattle.pon_history.specs.Chapters.{Chapter, IsLawfulChapter};
    ghost use Rattle.pon_state.specs.Ranges.{IsStateInRange};

    ghost Value = { Chapter };

    ghost view = { λ c. record {
      number = c.number;
      opening = c.opening;
      entries = c.entries.items;
    } };

    ghost invariant = { λ c. IsLawfulChapter
        (record { number = c.number; opening = c.opening; entries = c.entries.items })
        × IsStateInRange c.opening };
}

impl Chapter {
    ghost use Rattle.std.specs.Prelude.{◌≡◌};
    ghost use Rattle.pon_history.specs.Chapters.{IsLawfulChapter, IsLawfulOpening};
    ghost use Rattle.pon_state.specs.Ranges.{IsStateInRange};
    ghost use Rattle.pon_history.specs.WordRuns.{RunsAreWhole};

    /// Makes a chapter of its number, counted from 0 in its port, the state that it opens with, and its entries, oldest
    /// first. The caller shows that it is lawful.
    pub fn new(number: u64, opening: PortState, entries: Vec<Entry>) -> Chapter
        requires lawful { IsLawfulChapter
            (record { number = number; opening = opening; entries = entries.items }) }
        requires in_range { IsStateInRange opening }
        ensures { result
            ≡ record { number = number; opening = opening; entries = entries.items } }
    {
        Chapter {
            number,
            opening,
            entries,
        }
    }

    /// The number of the chapter, counted from 0 in its port.
    pub fn number(&self) -> u64
        ensures { result ≡ self.now.number }
    {
        self.number
    }

    /// The state that the chapter opens with.
    pub fn opening(&self) -> &PortState
        ensures opening { result.now ≡ self.now.opening }
        ensures lawful { IsLawfulOpening self.now.number self.now.opening }
        ensures in_range { IsStateInRange self.now.opening }
    {
        &self.opening
    }

    /// The entries of the chapter, oldest first.
    pub fn entries(&self) -> &[Entry]
        ensures entries { result.now ≡ self.now.entries }
        ensures lawful { IsLawfulChapter self.now }
        ensures runs { RunsAreWhole self.now }
    {
        self.entries.as_slice()
    }

    /// Returns the entries of the chapter, oldest first. It allocates no memory.
    pub fn into_entries(self) -> Vec<Entry>
        ensures { result.items ≡ self.entries }
    {
        let Chapter { entries, .. } = self;
        entries
    }
}
