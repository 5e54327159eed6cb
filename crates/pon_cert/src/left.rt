// The surplus that a class leaves.
ghost use Rattle.std.specs.Prelude.{◌≡◌, ◌+◌, ◌≤◌, All, length, sum_by};
ghost use Rattle.pon_cert.specs.Problem.{IsItem, IsProblem};
ghost use Rattle.pon_cert.specs.Certificate.{left_surplus};

use crate::cert::Level;
use crate::problem::{Item, MAX_ITEMS};

// Computes the sum of the caps of the items.
fn caps_sum(items: &[Item]) -> u64
    requires few { length items.now ≤ MAX_ITEMS }
    requires each { All IsItem items.now }
    ensures { result ≡ sum_by (λ item. item.cap) items.now }
{
    let mut sum = 0;
    for item in items {
        sum += item.cap;
    }
    sum
}

/// Computes the surplus that a class at this level leaves to the next class, in kbit/s: 0 if the level is a fraction,
/// otherwise the surplus less the caps, and never below 0.
///
/// Requires at most 512 items, each weight 1 to 2,488,320, each cap and the surplus 0 to 2,488,320 kbit/s. It allocates
/// no memory.
pub fn left_surplus(level: &Level, items: &[Item], surplus: u64) -> u64
    requires { IsProblem items.now surplus }
    ensures value { result ≡ left_surplus level.now items.now surplus }
    ensures within { result ≤ surplus }
{
    match level {
        Level::All => surplus.saturating_sub(caps_sum(items)),
        Level::At(_) => 0,
    }
}
