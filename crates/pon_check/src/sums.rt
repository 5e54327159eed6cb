// Sums over a class: the weight of its unsaturated items, and the rates of its certificate.
ghost use Rattle.std.specs.Prelude.{◌≡◌, ◌+◌, ◌*◌, ◌^◌, ◌<◌, ◌≤◌, All, length, map, sum};
ghost use Rattle.std.specs.List.{zip};
ghost use Rattle.pon_cert.specs.Problem.{IsItem};
ghost use Rattle.pon_cert.specs.Certificate.{amount, unsaturated_weight};

use pon_cert::{Item, Level, MAX_ITEMS};

// Computes the sum of the weights of the unsaturated items.
pub fn weight_left(items: &[Item], saturated: &[bool]) -> u64
    requires lengths { length items.now ≡ length saturated.now }
    requires count { length items.now ≤ MAX_ITEMS }
    requires each { All IsItem items.now }
    ensures { result ≡ unsaturated_weight items.now saturated.now }
{
    let mut total = 0;
    for i in 0..items.len() {
        if !saturated[i] {
            total += items[i].weight;
        }
    }
    total
}

// Computes the rate of an item, times the denominator.
fn amount_of(level: &Level, item: Item, saturated: bool) -> u128
    requires { IsItem item }
    ensures value { result ≡ amount level.now item saturated }
    ensures small { result < 2 ^ 86 }
{
    match level {
        Level::All => u128::from(item.cap),
        Level::At(f) => {
            if saturated {
                u128::from(item.cap) * u128::from(f.den())
            } else {
                u128::from(item.weight) * u128::from(f.num())
            }
        }
    }
}

// Computes the sum of the rates of all items, times the denominator.
pub fn total_of(level: &Level, items: &[Item], saturated: &[bool]) -> u128
    requires lengths { length items.now ≡ length saturated.now }
    requires count { length items.now ≤ MAX_ITEMS }
    requires each { All IsItem items.now }
    ensures { result ≡ sum (map (λ p. amount level.now p.0 p.1) (zip items.now saturated.now)) }
{
    let mut total = 0;
    for i in 0..items.len() {
        total += amount_of(level, items[i], saturated[i]);
    }
    total
}
