// The overhead and the limit of Alloc-IDs of each rule.
ghost use Rattle.std.specs.Prelude.{◌≡◌, ◌*◌, ◌≤◌};
ghost use Rattle.pon_admit.specs.Roster.{left_over, max_allocs, overhead_words};

use pon_units::{MAX_STRUCTURES, WORD_RATE};

/// Maximum number of Alloc-IDs of a port under [`Rule::DropRemainders`] (this project's choice).
const MAX_ALLOCS: usize = 256;

/// The overhead words of each Alloc-ID, the maximum number of Alloc-IDs of a port, and whether what whole words leave of
/// a rate is carried to the next map, by version of the product. A roster keeps the rule that it was opened with.
#[derive(Clone, Copy, Debug, PartialEq, Eq)]
pub enum Rule {
    /// At most 256 Alloc-IDs on a port, and one word of overhead for each: its report. Nothing is carried.
    DropRemainders,
    /// At most 512 Alloc-IDs on a port, and two words of overhead for each: its report, and the word that carries may
    /// add.
    CarryRemainders,
}

impl Rule {
    /// Maximum number of Alloc-IDs of a port: 256 or 512.
    pub fn max_allocs(self) -> usize
        ensures value { result ≡ max_allocs self }
        ensures range { result ≤ MAX_STRUCTURES }
    {
        match self {
            Rule::DropRemainders => MAX_ALLOCS,
            Rule::CarryRemainders => MAX_STRUCTURES,
        }
    }

    /// Returns what is left of a number of kbit/s after whole words, and is carried to the next map: 0 under
    /// [`Rule::DropRemainders`], 0 to 255 under [`Rule::CarryRemainders`].
    pub fn left_over(self, owed: u64) -> u8
        ensures { result ≡ left_over self owed }
    {
        match self {
            Rule::DropRemainders => 0,
            Rule::CarryRemainders => (owed % WORD_RATE) as u8,
        }
    }

    /// Computes the overhead of a number of Alloc-IDs, in words of a frame, 0 to 1,024.
    pub(crate) fn overhead(self, allocs: usize) -> usize
        requires { allocs ≤ max_allocs self }
        ensures value { result ≡ overhead_words self * allocs }
        ensures range { result ≤ 1024 }
    {
        match self {
            Rule::DropRemainders => allocs,
            Rule::CarryRemainders => 2 * allocs,
        }
    }
}
