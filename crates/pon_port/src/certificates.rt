//! The certificate of a map: the fairest share of each class, found by filling.

ghost use Rattle.std.specs.Prelude.{IfOk};
ghost use Rattle.pon_cert.specs.Problem.{IsProblem};
ghost use Rattle.pon_cert.specs.Certificate.{IsCertificate, IsMapCertificate};

use pon_cert::{ClassCert, Item, MapCert, Sat, left_surplus};
use pon_fill::fill;
use std::alloc::{AllocError, Global};

// Computes the certificate of a class. `Err` only if memory is refused.
fn class_cert(alloc: Global, items: &[Item], surplus: u64) -> Result<ClassCert, AllocError>
    requires { IsProblem items.now surplus }
    ensures { IfOk result (λ cert. IsCertificate items.now surplus cert) }
{
    let mut scratch = Vec::from_elem(alloc, 0, items.len())?;
    let mut saturated = Vec::from_elem(alloc, false, items.len())?;
    let level = fill(
        items,
        surplus,
        scratch.as_mut_slice(),
        saturated.as_mut_slice(),
    );
    Ok(ClassCert {
        level,
        saturated: Sat::new(saturated),
    })
}

/// Computes the certificate of a map: it shares the surplus among the non-assured items, and what they leave among
/// those of best effort. `Err` only if memory is refused.
pub(crate) fn map_cert(
    alloc: Global,
    na: &[Item],
    be: &[Item],
    surplus: u64,
) -> Result<MapCert, AllocError>
    requires non_assured { IsProblem na.now surplus }
    requires best_effort { IsProblem be.now surplus }
    ensures { IfOk result (λ cert. IsMapCertificate na.now be.now surplus cert) }
{
    let na_cert = class_cert(alloc, na, surplus)?;
    let left = left_surplus(&na_cert.level, na, surplus);
    let be_cert = class_cert(alloc, be, left)?;
    Ok(MapCert {
        na: na_cert,
        be: be_cert,
    })
}
