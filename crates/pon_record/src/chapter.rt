use crate::opening::Opening;
use pon_state::Entry;
use pon_units::PortNo;
use std::alloc::{AllocError, Global};
use std::marker::Model;

/// A recorded chapter of a port.
#[derive(Debug, Drop)]
pub struct RawChapter {
    /// The place of its first byte in the recording, from 0.
    pub at: usize,
    /// The port, 0 to 63.
    pub port: PortNo,
    /// The number of the chapter, counted from 0 in its port.
    pub number: u64,
    /// The state that it opens with.
    pub opening: Opening,
    /// Its entries, in order, at most 65,536.
    pub entries: Vec<Entry>,
}

impl Model for RawChapter {
    ghost use Rattle.pon_record.specs.Chapters.{PlacedChapter};

    ghost Value = { PlacedChapter };

    ghost view = { λ c. record {
      at = c.at;
      body = record {
        port = c.port;
        number = c.number;
        opening = c.opening;
        entries = c.entries.items;
      };
    } };
}

/// The chapters of a recording, in order. Contracts see it as the list of chapters.
#[derive(Debug, Drop)]
pub struct Recording {
    chapters: Vec<RawChapter>,
}

impl Model for Recording {
    ghost use Rattle.std.specs.Prelude.{List};
    ghost use Rattle.pon_record.specs.Chapters.{PlacedChapter};

    ghost Value = { List PlacedChapter };

    ghost view = { λ r. r.chapters.items };
}

impl Recording {
    ghost use Rattle.std.specs.Prelude.{◌≡◌, ◌∷◌, ◌++◌, [], OnOk};

    // Creates a recording without chapters.
    pub(crate) fn new(alloc: Global) -> Recording
        ensures { result ≡ [] }
    {
        Recording {
            chapters: Vec::new(alloc),
        }
    }

    // Appends a chapter. `Err` only if memory is refused.
    pub(crate) fn push(&mut self, chapter: RawChapter) -> Result<(), AllocError>
        ensures { OnOk result (self.new ≡ self.old ++ chapter ∷ []) }
    {
        Ok(self.chapters.push(chapter)?)
    }

    /// The chapters, in the order of the recording.
    pub fn chapters(&self) -> &[RawChapter]
        ensures { result.now ≡ self.now }
    {
        self.chapters.as_slice()
    }
}
