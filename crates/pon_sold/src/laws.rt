//! Laws of what was sold, and of what was got of it.

ghost use Rattle.std.specs.Prelude.{ℕ, ◌≡◌, ◌≤◌, List, None};
ghost use Rattle.pon_admit.specs.declared.rule.Rule.{Rule};
ghost use Rattle.pon_history.specs.Chapters.{Chapter, IsLawfulChapter};
ghost use Rattle.pon_sold.specs.Chapters.{AreOfPort, GotAllSold, watch_all, watch_over};
ghost use Rattle.pon_sold.specs.Watches.{Agree, joined, nothing, stopped};
ghost use Rattle.pon_sold.specs.declared.watch.Watch.{Watch};

/// Over a lawful chapter, in any range of frames and up to any entry, no run of maps misses a word of the guaranteed rates
/// of an Alloc-ID, and no wait for a word is above its bound, if that holds of the chapters before it.
pub fn lawful_chapters_grant_what_was_sold()
    ensures { (first last : ℕ) (c : Chapter) → IsLawfulChapter c → (i n : ℕ) (w : Watch)
        → GotAllSold w.sold → GotAllSold (watch_over first last i c (stopped w) n).sold }
{}

/// So it is over the chapters of a port, in any range of frames, also for runs of maps that go on from chapter to chapter.
pub fn chapters_of_a_port_grant_what_was_sold()
    ensures { (first last : ℕ) (cs : List Chapter) → AreOfPort cs → (i : ℕ)
        → GotAllSold (watch_all first last i None cs nothing).sold }
{}

/// To sum up a chapter apart and to join it to the sums of those before it is the same as to sum it up after them.
pub fn chapters_are_summed_up_in_any_parts()
    ensures { (first last : ℕ) (c : Chapter) (i n : ℕ) (w : Watch)
        → w.debt ≤ w.sold.shortfall
        → Agree (joined w (watch_over first last i c nothing n)) (watch_over first last i c w n) }
{}
