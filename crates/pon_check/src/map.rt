// The check of both classes of a map.
ghost use Rattle.std.specs.Prelude.{◌≡◌, ◌↔◌, IsOk, IfErr, OnOk};
ghost use Rattle.pon_cert.specs.declared.cert.MapCert.{MapCert};
ghost use Rattle.pon_cert.specs.Problem.{IsProblem, IsFairest};
ghost use Rattle.pon_cert.specs.Certificate.{IsMapCertificate, left_surplus, spelled};
ghost use Rattle.pon_check.specs.Faults.{IsFirstMapCertFault};

use crate::class::check_class;
use crate::fault::MapCertFault;
use pon_cert::{Item, MapCert, left_surplus};

/// Checks that `cert` is the certificate of a map with these items of the two classes and this surplus. The best-effort
/// class is checked against what the non-assured class leaves: 0 if its level is a fraction, otherwise the surplus less
/// its caps. On `Ok`, the assignment of each class is the fairest, and no other certificate of a map is accepted for
/// these items and this surplus.
///
/// Each class must meet the requirements of [`check_class`]. It allocates no memory.
///
/// # Errors
///
/// The first fault, the non-assured class first, if `cert` is not their certificate.
pub fn check_map(na: &[Item], be: &[Item], surplus: u64, cert: &MapCert) -> Result<(), MapCertFault>
    requires non_assured { IsProblem na.now surplus }
    requires best_effort { IsProblem be.now surplus }
    ensures accepted { IsOk result ↔ IsMapCertificate na.now be.now surplus cert.now }
    ensures fault { IfErr result (IsFirstMapCertFault na.now be.now surplus cert.now) }
    ensures fairest_non_assured { OnOk result
        (IsFairest na.now surplus (spelled na.now cert.now.na)) }
    ensures fairest_best_effort { OnOk result
        (IsFairest be.now (left_surplus cert.now.na.level na.now surplus)
        (spelled be.now cert.now.be)) }
    ensures only { OnOk result ((other : MapCert) → IsMapCertificate na.now be.now surplus other
        → other ≡ cert.now) }
{
    if let Err(fault) = check_class(na, surplus, &cert.na) {
        return Err(MapCertFault::NonAssured(fault));
    }
    let left = left_surplus(&cert.na.level, na, surplus);
    if let Err(fault) = check_class(be, left, &cert.be) {
        return Err(MapCertFault::BestEffort(fault));
    }
    Ok(())
}
