//! What the first maps of a part of the maps add to the runs of maps that began before it.

use pon_units::WORD_RATE;

/// The first maps of a part in a row, up to the first admission or removal of the Alloc-ID.
#[derive(Clone, Copy, Debug, PartialEq, Eq)]
pub(crate) struct Head {
    /// The sum of their guaranteed rates, in kbit/s.
    pub guaranteed: u64,
    /// The sum of their payload words of 4 bytes.
    pub words: u64,
    /// The most by which the guaranteed rates of the first of them are above their words, in kbit/s.
    pub peak: u64,
    /// The number of the first sold maps in a row that granted no word.
    pub run: u64,
    /// Whether each map up to now is one of them.
    pub is_open: bool,
    /// Whether each map up to now was sold and granted no word.
    pub is_waiting: bool,
}

impl Head {
    ghost use Rattle.std.specs.Prelude.{◌≡◌, IfSome};
    ghost use Rattle.pon_sold.specs.Watches.{closed, head_other, head_owed, head_sold};

    /// What is known before the first map.
    pub(crate) const NONE: Head = Head {
        guaranteed: 0,
        words: 0,
        peak: 0,
        run: 0,
        is_open: true,
        is_waiting: true,
    };

    /// No later map is one of the first ones in a row.
    pub(crate) fn close(&mut self)
        ensures { self.new ≡ closed self.old }
    {
        self.is_open = false;
        self.is_waiting = false;
    }

    /// Adds the guaranteed rate and the words of a map. `None` if a sum is 2^64 or more.
    pub(crate) fn add_owed(&mut self, guaranteed: u64, words: u64) -> Option<()>
        ensures { IfSome result (λ done. self.new ≡ head_owed guaranteed words self.old) }
    {
        if self.is_open {
            self.guaranteed = self.guaranteed.checked_add(guaranteed)?;
            self.words = self.words.checked_add(words)?;
            let granted = self.words.checked_mul(WORD_RATE)?;
            self.peak = self.peak.max(self.guaranteed.saturating_sub(granted));
        }
        Some(())
    }

    /// Notes a map that is sold and grants these words. `None` if there are 2^64 maps or more.
    pub(crate) fn note_sold(&mut self, words: u64) -> Option<()>
        ensures { IfSome result (λ done. self.new ≡ head_sold words self.old) }
    {
        self.is_waiting = self.is_waiting && words == 0;
        if self.is_waiting {
            self.run = self.run.checked_add(1)?;
        }
        Some(())
    }

    /// Notes a map that is not sold.
    pub(crate) fn note_other(&mut self)
        ensures { self.new ≡ head_other self.old }
    {
        self.is_waiting = false;
    }
}
