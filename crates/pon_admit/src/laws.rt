//! Laws of admission, over the definitions alone.

ghost use Rattle.std.specs.Prelude.{List, Some, None, true, ℕ, ◌≡◌};
ghost use Rattle.pon_descr.specs.Descriptor.{Descriptor, IsLawful};
ghost use Rattle.pon_descr.specs.declared.refusal.Refusal.{Refusal};
ghost use Rattle.pon_admit.specs.Roster.{IsAdmitted, IsInRange, Row, Rule, has_alloc, refuses_admit, refuses_change, with_descriptor, with_row, without};

/// An admitted set stays admitted when a row that no check refuses is added, when a descriptor is replaced by one that
/// no check refuses, and when an Alloc-ID is removed. This holds for each rule and any gap.
pub fn checks_keep_admitted_sets()
    ensures admit { (rule : Rule) (gap : ℕ) (rows : List Row) (r : Row) →
        refuses_admit rule gap rows r ≡ None → IsInRange r → IsAdmitted rule gap rows
        → IsAdmitted rule gap (with_row r rows) }
    ensures change { (rule : Rule) (gap : ℕ) (rows : List Row) (i : ℕ) (d : Descriptor) →
        refuses_change rule gap rows i d ≡ None → IsLawful d → IsAdmitted rule gap rows
        → IsAdmitted rule gap (with_descriptor i d rows) }
    ensures remove { (rule : Rule) (gap : ℕ) (rows : List Row) (i : ℕ) →
        IsAdmitted rule gap rows → IsAdmitted rule gap (without i rows) }
{}

/// The set after a refused admission, or after a refused change of an admitted Alloc-ID, would not be admitted. So such
/// a step is accepted exactly when the set after it is admitted.
pub fn refused_sets_are_not_admitted()
    ensures admit { (rule : Rule) (gap : ℕ) (rows : List Row) (r : Row) (why : Refusal) →
        IsAdmitted rule gap rows → refuses_admit rule gap rows r ≡ Some why
        → IsAdmitted rule gap (with_row r rows) → ⊥ }
    ensures change { (rule : Rule) (gap : ℕ) (rows : List Row) (i : ℕ) (d : Descriptor)
        (why : Refusal) →
        has_alloc i rows ≡ true → refuses_change rule gap rows i d ≡ Some why
        → IsAdmitted rule gap (with_descriptor i d rows) → ⊥ }
{}
