//! Two class problems that differ in one item, which does not get a lower weight or a lower cap.

ghost use Rattle.std.specs.Prelude.{List, length, ℕ, ◌++◌, ◌∷◌};
ghost use Rattle.pon_cert.specs.declared.cert.ClassCert.{ClassCert};
ghost use Rattle.pon_cert.specs.declared.problem.Item.{Item};
ghost use Rattle.pon_cert.specs.Certificate.{IsCertificate};
ghost use Rattle.pon_cert.specs.Problem.{AreWeighted};
ghost use Rattle.pon_laws.specs.Growth.{Grows, IsLevelUpTo, IsUpTo, rate_at};

/// A greater cap or a greater weight, all else equal, never lowers the rate of an item.
pub fn more_never_gives_less()
    ensures { (before after : List Item) (old new : Item) (surplus : ℕ) (c d : ClassCert)
        → AreWeighted (before ++ old ∷ after) → Grows old new
        → IsCertificate (before ++ old ∷ after) surplus c
        → IsCertificate (before ++ new ∷ after) surplus d
        → IsUpTo (rate_at (before ++ old ∷ after) c (length before)) (rate_at (before ++ new ∷ after) d (length before)) }
{}

/// It never raises the level of its class, to which all other items are served.
pub fn more_never_raises_the_level()
    ensures { (before after : List Item) (old new : Item) (surplus : ℕ) (c d : ClassCert)
        → AreWeighted (before ++ old ∷ after) → Grows old new
        → IsCertificate (before ++ old ∷ after) surplus c
        → IsCertificate (before ++ new ∷ after) surplus d → IsLevelUpTo d.level c.level }
{}
