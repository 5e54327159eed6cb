//! Laws of certificates, over the definitions alone.

ghost use Rattle.std.specs.Prelude.{◌≡◌, ◌+◌, ◌*◌, ℕ, List, ◌++◌, length, sum, take};
ghost use Rattle.pon_lists.specs.Bytes.{AreBytes};
ghost use Rattle.pon_cert.specs.declared.problem.Item.{Item};
ghost use Rattle.pon_cert.specs.declared.cert.ClassCert.{ClassCert};
ghost use Rattle.pon_cert.specs.Problem.{AreWeighted, IsFairest};
ghost use Rattle.pon_cert.specs.declared.cert.MapCert.{MapCert};
ghost use Rattle.pon_cert.specs.Certificate.{IsCertificate, denominator, left_surplus, spelled};
ghost use Rattle.pon_cert.specs.Spelling.{cert_bytes};
ghost use Rattle.pon_cert.specs.Reading.{ReadsCert};
ghost use Rattle.pon_cert.specs.Texts.{FitsCert};

/// The assignment of a certificate is feasible, no feasible assignment is better, and each other one is worse.
pub fn certified_is_fairest()
    ensures { (items : List Item) (surplus : ℕ) (cert : ClassCert) → AreWeighted items →
        IsCertificate items surplus cert → IsFairest items surplus (spelled items cert) }
{}

/// A class problem has at most one certificate.
pub fn one_certificate()
    ensures { (items : List Item) (surplus : ℕ) (a b : ClassCert) → AreWeighted items →
        IsCertificate items surplus a → IsCertificate items surplus b → a ≡ b }
{}

/// The surplus that a class leaves is its surplus less the rates of its certificate, over their denominator.
pub fn left_is_the_rest()
    ensures { (items : List Item) (surplus : ℕ) (cert : ClassCert) →
        IsCertificate items surplus cert →
        sum (spelled items cert).amounts
        + denominator cert.level * left_surplus cert.level items surplus
        ≡ denominator cert.level * surplus }
{}

/// The bytes of a certificate, followed by any others, read as that certificate, and the other bytes are not used.
pub fn reads_back()
    ensures { (cert : MapCert) (rest : List ℕ) → FitsCert cert →
        ReadsCert (cert_bytes cert ++ rest) cert (length (cert_bytes cert)) }
{}

/// Bytes that read as a certificate are exactly the bytes of that certificate, whatever bytes follow.
pub fn only_its_bytes()
    ensures { (bytes : List ℕ) (cert : MapCert) (used : ℕ) → AreBytes bytes →
        ReadsCert bytes cert used → FitsCert cert × (take used bytes ≡ cert_bytes cert) }
{}
