ghost use Rattle.std.specs.Prelude.{◌↔◌, IsTrue};
ghost use Rattle.pon_cert.specs.Problem.{IsItem, IsProblem};

use pon_units::LINE_RATE;

/// Maximum number of items of a class problem (this project's choice).
pub const MAX_ITEMS: usize = 512;

/// An item of a class problem. Its weight and its cap are at most 2,488,320, the rate of the line, in a problem that is
/// filled or checked.
#[derive(Clone, Copy, Debug, PartialEq, Eq)]
pub struct Item {
    /// The weight, above 0.
    pub weight: u64,
    /// The cap in kbit/s: the most surplus that the item can use.
    pub cap: u64,
}

fn is_item(item: Item) -> bool
    ensures { IsTrue result ↔ IsItem item }
{
    0 < item.weight && item.weight <= LINE_RATE && item.cap <= LINE_RATE
}

/// Returns whether items and a surplus in kbit/s are a class problem: at most 512 items, each weight 1 to 2,488,320,
/// each cap and the surplus 0 to 2,488,320. Filling and checking require this of their caller.
pub fn is_problem(items: &[Item], surplus: u64) -> bool
    ensures { IsTrue result ↔ IsProblem items.now surplus }
{
    items.len() <= MAX_ITEMS && surplus <= LINE_RATE && items.iter().all(|item| is_item(*item))
}
