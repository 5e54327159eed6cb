//! The laws, over the definitions alone.

ghost use Rattle.std.specs.Prelude.{◌≡◌, ℕ, Bool, List, Option, [], map};
ghost use Rattle.pon_lists.specs.Bytes.{AreBytes};
ghost use Rattle.pon_history.specs.Chapters.{Chapter, IsLawfulChapter};
ghost use Rattle.pon_record.specs.declared.version.Version.{Version};
ghost use Rattle.pon_record.specs.Recordings.{recording_bytes};
ghost use Rattle.pon_record.specs.Bodies.{chapter_body};
ghost use Rattle.pon_record.specs.Recorders.{Records};
ghost use Rattle.pon_audit.specs.Openings.{chapter_of};
ghost use Rattle.pon_audit.specs.Verdicts.{IsVerdict};
ghost use Rattle.pon_audit.specs.declared.verdict.Verdict.{Verdict};
ghost use Rattle.pon_record_tests.specs.Histories.{AreHistories, PortChapter, body_of, map_count};

/// The audit replays a recorded chapter as the chapter that was written: with its number, its opening and its entries.
pub fn chapters_are_audited_as_written()
    ensures { (port : ℕ) (c : Chapter) → IsLawfulChapter c
        → chapter_of (chapter_body port c) ≡ c }
{}

/// A recording of lawful chapters is good, with all their maps, if the chapters of each port are written in order. That is
/// its only verdict.
pub fn recordings_of_histories_are_good()
    ensures good { (chapters : List PortChapter) → AreHistories chapters →
        IsVerdict (recording_bytes Version.Two (map body_of chapters))
        (Verdict.Good (map_count chapters)) }
    ensures only { (chapters : List PortChapter) (verdict : Verdict) → AreHistories chapters →
        IsVerdict (recording_bytes Version.Two (map body_of chapters)) verdict →
        verdict ≡ Verdict.Good (map_count chapters) }
    ensures written { (before now : Option (List ℕ)) (chapters : List PortChapter) →
        AreHistories chapters → (w : Records before now [] (map body_of chapters)) →
        IsVerdict w.sent (Verdict.Good (map_count chapters)) }
{}

/// No bytes are without a verdict. With `pon_audit::laws::one_verdict`: bytes have exactly one.
pub fn each_list_of_bytes_has_a_verdict()
    ensures { (bytes : List ℕ) → AreBytes bytes
        → ¬ ((verdict : Verdict) → ¬ IsVerdict bytes verdict) }
{}
