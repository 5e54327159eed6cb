ghost use Rattle.std.specs.Prelude.{◌≡◌};
ghost use Rattle.pon_admit.specs.Roster.{max_allocs, max_carry};

use crate::version::Version;
use pon_admit::Rule;
use pon_units::WORD_RATE;

/// What the fields of an opening depend on: the version of the recording, and the rule of the chapter.
#[derive(Clone, Copy, Debug, PartialEq, Eq)]
pub(crate) struct Layout {
    pub version: Version,
    pub rule: Rule,
}

impl Layout {
    /// Maximum number of rows of an opening, and of grants of a map of its window: 256 or 512.
    pub(crate) fn max_allocs(self) -> u16
        ensures { result ≡ max_allocs self.rule }
    {
        self.rule.max_allocs() as u16
    }

    /// Maximum carry of a row, in kbit/s: 0 or 255.
    pub(crate) fn max_carry(self) -> u8
        ensures { result ≡ max_carry self.rule }
    {
        match self.rule {
            Rule::DropRemainders => 0,
            Rule::CarryRemainders => (WORD_RATE - 1) as u8,
        }
    }
}
