ghost use Rattle.std.specs.Prelude.{◌≡◌, [], MatchOption, None, Some};
ghost use Rattle.pon_lists.specs.Kept.{AddsTo, kept_items};

use std::alloc::Global;
use std::mem;

/// Items that are kept one after another, if any are to be kept.
#[derive(Drop)]
pub enum Kept<T> {
    /// None are to be kept.
    Nothing,
    /// Those that were added, oldest first.
    Items(Vec<T>),
    /// Memory was refused for one, and all are dropped.
    Lost,
}

impl<T: Drop> Kept<T> {
    /// Keeps the items that are added from now on.
    pub fn open(alloc: Global) -> Self
        ensures { kept_items result ≡ Some [] }
    {
        Kept::Items(Vec::new(alloc))
    }

    /// Keeps one more item, if any are to be kept; otherwise it is dropped. If memory is refused, all are dropped, and no
    /// further ones are kept.
    pub fn add(&mut self, item: T)
        ensures { AddsTo (kept_items self.old) item (kept_items self.new) }
    {
        let Kept::Items(items) = self else {
            return;
        };
        if items.push(item).is_err() {
            *self = Kept::Lost;
        }
    }

    /// Takes the items out, oldest first, and keeps no further ones. `None` if none were to be kept, or memory was refused
    /// for one.
    pub fn take(&mut self) -> Option<Vec<T>>
        ensures taken { MatchOption result (kept_items self.old ≡ None)
            (λ items. kept_items self.old ≡ Some items.items) }
        ensures none { kept_items self.new ≡ None }
    {
        match mem::replace(self, Kept::Nothing) {
            Kept::Items(items) => Some(items),
            Kept::Nothing | Kept::Lost => None,
        }
    }
}
