ghost use Rattle.std.specs.Prelude.{◌≡◌, IfOk, IfSome};
ghost use Rattle.std.specs.Option.{option_copied};
ghost use Rattle.pon_units.specs.Granted.{AreInMapOrder};
ghost use Rattle.pon_why.specs.RowViews.{granted_by, granted_in, last_of, row_view, row_views};

use pon_admit::Row;
use pon_guar::{Counted, Loads, WindowMap};
use pon_state::PortState;
use pon_units::Words;
use std::alloc::{AllocError, Global};

/// What is shown of an admitted Alloc-ID: values that the state of its port keeps.
#[derive(Clone, Copy, Debug, PartialEq, Eq)]
pub struct RowView {
    /// The ONU, the Alloc-ID and its descriptor.
    pub row: Row,
    /// The counted report: its frame, and its words of 4 bytes that were not granted since; `None` if no report counts.
    pub counted: Option<Counted>,
    /// The payload words that the last map of the window granted it at its ONU; `None` if the window is empty, or that
    /// map has no grant for it there.
    pub granted: Option<Words>,
}

// Returns the payload words that a map grants a row, by a search of the grants to its ONU.
fn granted_in(map: &WindowMap, row: &Row) -> Option<Words>
    requires { AreInMapOrder map.now.grants }
    ensures { result ≡ granted_in map.now row.now }
{
    let own = map.series(0, row.onu).grants;
    for granted in own {
        if granted.alloc_id == row.alloc_id {
            return Some(granted.words);
        }
    }
    None
}

// Returns the payload words that the last map grants a row, if there is a last map.
fn granted_by(map: Option<&WindowMap>, row: &Row) -> Option<Words>
    requires { IfSome map (λ m. AreInMapOrder m.now.grants) }
    ensures { result ≡ granted_by (option_copied map.entry) row.now }
{
    match map {
        None => None,
        Some(map) => granted_in(map, row),
    }
}

// Returns the last map of the window; `None` if it is empty.
fn last_of(loads: &Loads) -> Option<&WindowMap>
    ensures map { option_copied result ≡ last_of loads.now.window }
    ensures map_order { IfSome result (λ m. AreInMapOrder m.now.grants) }
{
    let maps = loads.window().maps();
    let count = maps.len();
    if count == 0 {
        return None;
    }
    maps.get(count - 1)
}

/// Makes the view of each admitted Alloc-ID of a state, in map order: ONUs ascending, and the Alloc-IDs of an ONU
/// ascending. Each needs a search of the report book and one of the last map.
///
/// # Errors
///
/// `AllocError` only if memory is refused.
pub fn row_views(alloc: Global, state: &PortState) -> Result<Vec<RowView>, AllocError>
    ensures { IfOk result (λ views. views.items ≡ row_views state.now) }
{
    let loads = state.loads();
    let last = last_of(loads);
    let rows = state.roster().rows();
    let mut views = Vec::with_capacity(alloc, rows.len())?;
    for row in rows {
        views.push_reserved(RowView {
            row: *row,
            counted: loads.counted(row.alloc_id),
            granted: granted_by(last, row),
        });
    }
    Ok(views)
}
