// What is left of a surplus while items are saturated.
ghost use Rattle.std.specs.Prelude.{◌≡◌, ◌*◌, ◌-◌, ◌≤◌, nat_le, length, All, sum_by};
ghost use Rattle.pon_cert.specs.Problem.{IsItem};
ghost use Rattle.pon_fill.specs.Filling.{IsInRange, IsLevel};

use pon_cert::{Item, Level, MAX_ITEMS};
use pon_units::{Frac, LINE_RATE};

// The surplus that saturated items leave, and the weight of the other items. The level is their ratio.
#[derive(Clone, Copy)]
pub(crate) struct Rest {
    pub(crate) surplus: u64,
    pub(crate) weight: u64,
}

impl Rest {
    // The whole surplus, for all items.
    pub(crate) fn of(items: &[Item], surplus: u64) -> Self
        requires count { length items.now ≤ MAX_ITEMS }
        requires each { All IsItem items.now }
        ensures surplus { result.surplus ≡ surplus }
        ensures weight { result.weight ≡ sum_by (λ item. item.weight) items.now }
        ensures small { result.weight ≤ MAX_ITEMS * LINE_RATE }
    {
        let mut weight = 0;
        for item in items {
            weight += item.weight;
        }
        Rest { surplus, weight }
    }

    // Returns whether the item's cap is met at the level.
    pub(crate) fn meets(self, item: Item) -> bool
        requires item { IsItem item }
        requires range { IsInRange self }
        ensures { result ≡ nat_le (item.cap * self.weight) (item.weight * self.surplus) }
    {
        item.cap * self.weight <= item.weight * self.surplus
    }

    // Returns what is left once the item is saturated.
    pub(crate) fn without(self, item: Item) -> Self
        requires surplus { item.cap ≤ self.surplus }
        requires weight { item.weight ≤ self.weight }
        ensures { result
            ≡ record { surplus = self.surplus - item.cap; weight = self.weight - item.weight } }
    {
        Rest {
            surplus: self.surplus - item.cap,
            weight: self.weight - item.weight,
        }
    }

    // The level: the rate of an unsaturated item for each unit of its weight.
    pub(crate) fn level(self) -> Level
        ensures { IsLevel self result }
    {
        if self.weight == 0 {
            Level::All
        } else {
            Level::At(Frac::new(self.surplus, self.weight))
        }
    }
}
