//! Laws of verdicts, over the definitions alone.

ghost use Rattle.std.specs.Prelude.{◌≡◌, ℕ, List};
ghost use Rattle.pon_record.specs.Chapters.{PlacedChapter};
ghost use Rattle.pon_audit.specs.Verdicts.{AreGood, IsFirstFault, IsVerdict};
ghost use Rattle.pon_audit.specs.declared.verdict.Verdict.{Verdict};
ghost use Rattle.pon_audit.specs.declared.verdict.AuditReason.{AuditReason};

/// Good chapters have no fault.
pub fn good_chapters_have_no_fault()
    ensures { (chapters : List PlacedChapter) (port number index : ℕ) (why : AuditReason) → AreGood chapters
        → IsFirstFault chapters port number index why → ⊥ }
{}

/// Chapters have at most one first fault.
pub fn one_first_fault()
    ensures { (chapters : List PlacedChapter) (port number index : ℕ) (why : AuditReason)
        (other_port other_number other_index : ℕ) (other_why : AuditReason)
        → IsFirstFault chapters port number index why
        → IsFirstFault chapters other_port other_number other_index other_why
        → (port ≡ other_port) × (number ≡ other_number) × (index ≡ other_index)
        × (why ≡ other_why) }
{}

/// Bytes have at most one verdict.
pub fn one_verdict()
    ensures { (bytes : List ℕ) (verdict other : Verdict) → IsVerdict bytes verdict
        → IsVerdict bytes other → verdict ≡ other }
{}
