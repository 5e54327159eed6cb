ghost use Rattle.std.specs.Prelude.{◌≡◌, ◌↔◌, IsTrue};
ghost use Rattle.pon_audit.specs.Answers.{is_good};
ghost use Rattle.pon_look.specs.declared.extent.Extent.{Extent};

use pon_audit::Verdict;

/// How much of a recording is summed up.
#[derive(Clone, Copy, Debug, PartialEq, Eq)]
pub(crate) enum Extent {
    /// All of a recording that is good.
    Whole,
    /// What could be summed up of one that is not.
    Partial,
}

impl Extent {
    /// The extent of the sums of a recording with this verdict.
    pub(crate) fn of(verdict: &Verdict) -> Extent
        ensures { (result ≡ Extent.Whole) ↔ IsTrue (is_good verdict.now) }
    {
        if verdict.is_good() {
            Extent::Whole
        } else {
            Extent::Partial
        }
    }
}
