// Items in the order in which their caps are met as the level increases.
ghost use Rattle.std.specs.Prelude.{◌≡◌, ◌≤◌, ◌*◌, ◌/◌, All, length};
ghost use Rattle.pon_cert.specs.Problem.{IsItem};
ghost use Rattle.pon_fill.specs.Order.{IsOrder};

use pon_cert::{Item, MAX_ITEMS};
use pon_units::LINE_RATE;

// The square of the maximum weight. Fractions with denominators up to that weight are equal or differ by 1 / PARTS or
// more.
const PARTS: u64 = LINE_RATE * LINE_RATE;

// Writes the indexes of the items, sorted by cap over weight.
pub(crate) fn order(items: &[Item], numbers: &mut [u16])
    requires each { All IsItem items.now }
    requires count { length items.now ≤ MAX_ITEMS }
    requires lengths { length numbers.old ≡ length items.now }
    ensures { IsOrder items.now numbers.new }
{
    let mut keys = [0; MAX_ITEMS];
    for (i, item) in items.iter().enumerate() {
        keys[i] = met_at(item);
        numbers[i] = i as u16;
    }
    numbers.sort_unstable_by_key(|i| keys[usize::from(*i & 511)]);
}

// Computes the level at which the item's cap is met, in units of 1 / PARTS, rounded down: different levels have
// different values.
fn met_at(item: &Item) -> u64
    requires { IsItem item.now }
    ensures { result ≡ item.now.cap * 6191736422400 / item.now.weight }
{
    item.cap * PARTS / item.weight
}
