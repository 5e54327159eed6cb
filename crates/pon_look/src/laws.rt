//! Laws of the sums.

ghost use Rattle.std.specs.Prelude.{ℕ, ◌≡◌, List, None};
ghost use Rattle.pon_state.specs.State.{State};
ghost use Rattle.pon_state.specs.Legal.{IsMade};
ghost use Rattle.pon_state.specs.declared.reply.MadeMap.{MadeMap};
ghost use Rattle.pon_history.specs.Chapters.{Chapter, IsLawfulChapter};
ghost use Rattle.pon_audit.specs.Verdicts.{IsVerdict};
ghost use Rattle.pon_audit.specs.declared.verdict.Verdict.TheVariants.{Good};
ghost use Rattle.pon_sold.specs.Chapters.{GotAllSold, watch_all};
ghost use Rattle.pon_sold.specs.Watches.{nothing};
ghost use Rattle.pon_why.specs.Rates.{rates_of};
ghost use Rattle.pon_why.specs.Sums.{amounts_in};
ghost use Rattle.pon_look.specs.Sold.{chapters_of};
ghost use Rattle.pon_look.specs.Sums.{sums_of};
ghost use Rattle.pon_look.specs.declared.frame_range.FrameRange.{FrameRange};

/// A map that follows from a state grants each Alloc-ID the whole words of its guaranteed rate: none is below.
pub fn maps_that_follow_grant_what_is_owed()
    ensures { (s : State) (m : MadeMap) → IsMade s m → (i : ℕ)
        → (amounts_in i (rates_of s m.cert) m.map).below ≡ 0 }
{}

/// In a lawful chapter no map grants an Alloc-ID fewer words than the whole ones of its guaranteed rate, in any range of
/// frames and up to any entry.
pub fn lawful_chapters_are_never_below()
    ensures { (range : FrameRange) (c : Chapter) → IsLawfulChapter c → (i n : ℕ)
        → (sums_of range i c n).below ≡ 0 }
{}

/// If the verdict on a recording is `good`, no run of maps of a port misses a word of the guaranteed rates of an Alloc-ID, and
/// no wait for a word is above its bound, in any range of frames, also for runs that go on from chapter to chapter.
pub fn good_recordings_grant_what_was_sold()
    ensures { (bytes : List ℕ) (maps : ℕ) (v : IsVerdict bytes (Good maps)) (port first last i : ℕ)
        → GotAllSold (watch_all first last i None (chapters_of port v.0) nothing).sold }
{}
