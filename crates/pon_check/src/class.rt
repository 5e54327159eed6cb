// The check of one class: a level and its saturated items, against items and surplus.
ghost use Rattle.std.specs.Prelude.{◌≡◌, ◌<◌, ◌≤◌, ◌↔◌, All, Bool, if◌then◌else◌, length, IsTrue, IsOk, IfErr, OnOk, IfSome, IfNone};
ghost use Rattle.std.specs.List.{AllZip};
ghost use Rattle.pon_cert.specs.declared.cert.ClassCert.{ClassCert};
ghost use Rattle.pon_cert.specs.Problem.{IsItem, IsProblem, IsFairest};
ghost use Rattle.pon_cert.specs.Certificate.{IsCertificate, RuleHolds, DenominatorHolds, SumHolds, spelled};
ghost use Rattle.pon_check.specs.declared.fault.CertFault.TheVariants.{Saturated, Unsaturated};
ghost use Rattle.pon_check.specs.Faults.{IsFirstClassFault, IsSumFault, FailsFirst};

use crate::fault::CertFault;
use crate::sums::{total_of, weight_left};
use pon_cert::{ClassCert, Item, Level, MAX_ITEMS};

// Returns whether an item keeps the rule of its flag: at a fraction, a saturated item's cap is at most its share at the
// level, and the cap of any other item is above it; at a level of all each item is saturated.
fn rule_holds(level: &Level, item: Item, saturated: bool) -> bool
    requires { IsItem item }
    ensures { IsTrue result ↔ RuleHolds level.now item saturated }
{
    match level {
        Level::All => saturated,
        Level::At(f) => {
            let cap = u128::from(item.cap) * u128::from(f.den());
            let share = u128::from(item.weight) * u128::from(f.num());
            if saturated { cap <= share } else { share < cap }
        }
    }
}

// Finds the first item that breaks its rule.
fn first_failing(level: &Level, items: &[Item], saturated: &[bool]) -> Option<usize>
    requires lengths { length items.now ≡ length saturated.now }
    requires each { All IsItem items.now }
    ensures none { IfNone result (AllZip (RuleHolds level.now) items.now saturated.now) }
    ensures some { IfSome result (λ i. (i < length items.now) × (flag : Bool)
        × FailsFirst level.now items.now saturated.now i flag) }
{
    for i in 0..items.len() {
        if !rule_holds(level, items[i], saturated[i]) {
            return Some(i);
        }
    }
    None
}

// Returns whether the denominator of a fraction is the weight of the unsaturated items, and above 0.
fn denominator_holds(level: &Level, items: &[Item], saturated: &[bool]) -> bool
    requires lengths { length items.now ≡ length saturated.now }
    requires count { length items.now ≤ MAX_ITEMS }
    requires each { All IsItem items.now }
    ensures { IsTrue result ↔ DenominatorHolds level.now items.now saturated.now }
{
    match level {
        Level::All => true,
        Level::At(f) => f.den() == weight_left(items, saturated),
    }
}

// Returns the fault of an item that breaks its rule.
fn item_fault(i: usize, saturated: bool) -> CertFault
    ensures { result ≡ (if saturated then Saturated i else Unsaturated i) }
{
    if saturated {
        CertFault::Saturated { i }
    } else {
        CertFault::Unsaturated { i }
    }
}

// Checks the sum of the rates: at most the surplus at a level of all, exactly the surplus at a fraction.
fn check_sum(level: &Level, total: u128, surplus: u64) -> Result<(), CertFault>
    ensures ok { IsOk result ↔ SumHolds level.now total surplus }
    ensures fault { IfErr result (IsSumFault level.now total surplus) }
{
    let (whole, has_fraction) = match level {
        Level::All => (u128::from(surplus), false),
        Level::At(f) => (u128::from(f.den()) * u128::from(surplus), true),
    };
    if total > whole {
        return Err(CertFault::Overspent);
    }
    if has_fraction && total < whole {
        return Err(CertFault::NotExhausted);
    }
    Ok(())
}

/// Checks that `cert` is the certificate of these items and this surplus.
///
/// Requires at most 512 items, each weight 1 to 2,488,320, each cap and the surplus 0 to 2,488,320 kbit/s. The numbers
/// of the certificate may be any: products are of 128 bits. On `Ok`, the assignment of the certificate is within
/// surplus and caps, no other such assignment is fairer, and each other one is less fair. No other certificate is then
/// accepted for these items and this surplus. It allocates no memory.
///
/// # Errors
///
/// The first fault, if `cert` is not their certificate.
pub fn check_class(items: &[Item], surplus: u64, cert: &ClassCert) -> Result<(), CertFault>
    requires { IsProblem items.now surplus }
    ensures accepted { IsOk result ↔ IsCertificate items.now surplus cert.now }
    ensures fault { IfErr result (IsFirstClassFault items.now surplus cert.now) }
    ensures fairest { OnOk result (IsFairest items.now surplus (spelled items.now cert.now)) }
    ensures only { OnOk result ((other : ClassCert) → IsCertificate items.now surplus other
        → other ≡ cert.now) }
{
    let saturated = cert.saturated.as_slice();
    if items.len() != saturated.len() {
        return Err(CertFault::Length);
    }
    if !denominator_holds(&cert.level, items, saturated) {
        return Err(CertFault::Denominator);
    }
    if let Some(i) = first_failing(&cert.level, items, saturated) {
        return Err(item_fault(i, saturated[i]));
    }
    let total = total_of(&cert.level, items, saturated);
    check_sum(&cert.level, total, surplus)
}
