// The sums that decide whether a set fits a frame.
ghost use Rattle.std.specs.Prelude.{◌≡◌, ◌≤◌};
ghost use Rattle.pon_admit.specs.Roster.{max_allocs, overhead_of, sums_fit};

use crate::rule::Rule;
use pon_units::{FRAME_WORDS, Gap, Kbps, MAX_ONUS, MAX_RATE, WORD_RATE, Words};

/// Computes the words of a frame that gaps, headers, trailers and reports take: for each ONU the gap, a header and a
/// trailer, and for each Alloc-ID the overhead of the rule.
pub(crate) fn overhead(rule: Rule, gap: Gap, onus: usize, allocs: usize) -> usize
    requires onus { onus ≤ MAX_ONUS }
    requires allocs { allocs ≤ max_allocs rule }
    ensures { result ≡ overhead_of rule gap onus allocs }
{
    (usize::from(gap.get()) + 2) * onus + rule.overhead(allocs)
}

/// Returns whether the overhead fits a frame, and the promised rates fit the remaining words.
pub(crate) fn fits(rule: Rule, gap: Gap, onus: usize, allocs: usize, promised: Kbps) -> bool
    requires onus { onus ≤ MAX_ONUS }
    requires allocs { allocs ≤ max_allocs rule }
    ensures { result ≡ sums_fit rule gap onus allocs promised }
{
    let frame = usize::from(FRAME_WORDS);
    let taken = overhead(rule, gap, onus, allocs);
    taken <= frame && u64::from(promised.get()) <= WORD_RATE * (frame - taken) as u64
}

/// Converts a number of kbit/s to a rate.
pub(crate) fn rate(n: u32) -> Kbps
    requires { n ≤ MAX_RATE }
    ensures { result ≡ n }
{
    Kbps::new(n).unwrap()
}

/// Converts a number of words of a frame.
pub(crate) fn words(n: usize) -> Words
    requires { n ≤ FRAME_WORDS }
    ensures { result ≡ n }
{
    Words::new(n as u16).unwrap()
}
