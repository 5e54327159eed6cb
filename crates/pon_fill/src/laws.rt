//! The law that each problem has a certificate.

ghost use Rattle.std.specs.Prelude.{ℕ, List};
ghost use Rattle.pon_cert.specs.declared.problem.Item.{Item};
ghost use Rattle.pon_cert.specs.declared.cert.ClassCert.{ClassCert};
ghost use Rattle.pon_cert.specs.Problem.{AreWeighted};
ghost use Rattle.pon_cert.specs.Certificate.{IsCertificate};

/// A surplus of any size has a certificate for any number of items with a weight above 0; that it has no other is a law
/// of `pon_cert`.
#[tactic(auto, using(crate::proofs::EachProblem::each_problem))]
pub fn each_problem_has_a_certificate()
    ensures { (items : List Item) (surplus : ℕ) → AreWeighted items →
        (cert : ClassCert) × IsCertificate items surplus cert }
{}
