//! What is said of best effort without a floor, when settings are read.

use pon_settings::{Settings, rows_without_floor};
use std::alloc::{AllocError, Global};

/// Prints a line to standard error for each port of which best-effort Alloc-IDs have no floor. `Err` only if memory is
/// refused.
pub(crate) fn tell_floors(
    rt: &impl Eprint,
    alloc: Global,
    settings: &Settings,
) -> Result<(), AllocError> {
    for (port, found) in settings.ports().iter().enumerate() {
        let rows = rows_without_floor(alloc, found)?;
        if let Some(first) = rows.first() {
            let (count, alloc_id) = (rows.len(), first.alloc_id.get());
            let _ = eprintln!(rt;
                "olt: port {port}: {count} best-effort Alloc-IDs without a floor, the first is {alloc_id}"
            );
        }
    }
    Ok(())
}
