ghost use Rattle.std.specs.Prelude.{◌≡◌, ℕ, ◌+◌, ◌*◌, ◌<◌, ◌≤◌, false, true, All, length, slice_index_or, slice_set};
ghost use Rattle.pon_cert.specs.declared.problem.Item.{Item};
ghost use Rattle.pon_cert.specs.Problem.{IsItem, IsProblem};
ghost use Rattle.pon_cert.specs.Certificate.{IsCertificate};
ghost use Rattle.pon_fill.specs.Filling.{IsFilled, IsFilling, IsInRange, saturated_caps};
ghost use Rattle.pon_fill.specs.Order.{IsOrder};

use crate::order::order;
use crate::rest::Rest;
use pon_cert::{Item, Level};

// Saturates item `i`, whose cap is met at the level of `rest`. Returns what it leaves: its level is no lower, so all caps
// that are met at the level of `rest` are met there.
#[inline]
fn saturate(items: &[Item], i: usize, rest: Rest, saturated: &mut [bool]) -> Rest
    requires each { All IsItem items.now }
    requires inside { i < length items.now }
    requires out { slice_index_or saturated.old i false ≡ false }
    requires met { (d : Item) → (slice_index_or items.now i d).cap * rest.weight
        ≤ (slice_index_or items.now i d).weight * rest.surplus }
    requires range { IsInRange rest }
    requires filling { IsFilling items.now rest saturated.old }
    ensures range { IsInRange result }
    ensures less { result.weight < rest.weight }
    ensures higher { (cap weight : ℕ) → cap * rest.weight ≤ weight * rest.surplus
        → cap * result.weight ≤ weight * result.surplus }
    ensures filling { IsFilling items.now result saturated.new }
    ensures spent { result.surplus + saturated_caps items.now saturated.new
        ≡ rest.surplus + saturated_caps items.now saturated.old }
    ensures flags { saturated.new ≡ slice_set saturated.old i true }
{
    saturated[i] = true;
    rest.without(items[i])
}

// Makes one round: saturates every item whose cap is met at the level of `rest`. Returns what they leave; if that is
// the same weight, no other cap is met.
fn saturate_met(items: &[Item], rest: Rest, saturated: &mut [bool]) -> Rest
    requires each { All IsItem items.now }
    requires range { IsInRange rest }
    requires filling { IsFilling items.now rest saturated.old }
    ensures range { IsInRange result }
    ensures filling { IsFilling items.now result saturated.new }
    ensures spent { result.surplus + saturated_caps items.now saturated.new
        ≡ rest.surplus + saturated_caps items.now saturated.old }
    ensures filled { result.weight ≡ rest.weight → IsFilled items.now result saturated.new }
{
    let mut left = rest;
    for (i, item) in items.iter().enumerate() {
        if !saturated[i] && rest.meets(*item) {
            left = saturate(items, i, left, saturated);
        }
    }
    left
}

// Saturates the items in the order in which their caps are met, up to the first whose cap is not met. Returns what they
// leave.
fn saturate_sorted(items: &[Item], numbers: &[u16], rest: Rest, saturated: &mut [bool]) -> Rest
    requires each { All IsItem items.now }
    requires order { IsOrder items.now numbers.now }
    requires range { IsInRange rest }
    requires filling { IsFilling items.now rest saturated.old }
    ensures filling { IsFilling items.now result saturated.new }
    ensures spent { result.surplus + saturated_caps items.now saturated.new
        ≡ rest.surplus + saturated_caps items.now saturated.old }
    ensures filled { IsFilled items.now result saturated.new }
{
    let mut left = rest;
    for number in numbers {
        let i = usize::from(*number);
        if !saturated[i] {
            let item = items[i];
            if !left.meets(item) {
                return left;
            }
            left = saturate(items, i, left, saturated);
        }
    }
    left
}

// Maximum number of rounds before the items are sorted.
const MAX_ROUNDS: u32 = 4;

/// Shares the surplus among the items in proportion to their weights, none above its cap: writes to `saturated` which
/// items are, and returns the level, the rate of an unsaturated item for each unit of its weight. Both together are the
/// only certificate of the problem: the fairest share.
///
/// Requires `items`, `scratch` and `saturated` of one length, at most 512; each weight 1 to 2,488,320, each cap and the
/// surplus 0 to 2,488,320 kbit/s. It always succeeds and allocates no memory: `saturated` is overwritten, and `scratch`
/// is working space.
///
/// Sharing in proportion to weight until saturated is the rate-proportional reference model of ITU-T G.987.3. Filling
/// in rounds, and sorting the items by the level that meets their caps if a few rounds do not suffice, is this crate's
/// own method.
pub fn fill(items: &[Item], surplus: u64, scratch: &mut [u16], saturated: &mut [bool]) -> Level
    requires problem { IsProblem items.now surplus }
    requires flags { length saturated.old ≡ length items.now }
    requires scratch { length scratch.old ≡ length items.now }
    ensures { IsCertificate items.now surplus record { level = result; saturated = saturated.new } }
{
    saturated.fill(false);
    let mut rest = Rest::of(items, surplus);
    for _round in 0..MAX_ROUNDS {
        let left = saturate_met(items, rest, saturated);
        if left.weight == 0 || left.weight == rest.weight {
            return left.level();
        }
        rest = left;
    }
    order(items, scratch);
    saturate_sorted(items, scratch, rest, saturated).level()
}
