//! Chapters that a recording lacks.

use crate::context::RunContext;
use pon_worker::Gate;

/// Says on standard error how many chapters of each port the recording of a run lacks. Returns whether it lacks one.
pub(crate) fn print_lack<G: Gate, R: Eprint>(run: &RunContext<'_, G, R>, dropped: &[u64]) -> bool {
    let Some(name) = run.args.record else {
        return false;
    };
    let mut lacks = false;
    for (port, count) in dropped.iter().enumerate() {
        if *count > 0 {
            let _ = eprintln!(run.rt;
                "olt: recording {name} lacks {count} chapters of port {port}, which were dropped"
            );
            lacks = true;
        }
    }
    lacks
}
