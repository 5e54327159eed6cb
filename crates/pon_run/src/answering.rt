//! The simulated units of a port in a run.

use crate::arguments::UnitsPlace;
use crate::context::RunContext;
use pon_desk::Desk;
use pon_link::{Admitted, UnitsFault};
use pon_port::Port;
use pon_sockets::{UnitsPart, answer, answer_growing};
use pon_units::{AllocId, OnuId, PortNo};
use pon_worker::Gate;
use std::sync::Wait;
use std::sync::ledger::Ledger;

/// The Alloc-IDs that a port at a desk has admitted.
#[derive(Drop)]
struct AtPort<'a, L: Ledger, M: Ledger, R> {
    rt: &'a R,
    desk: &'a Desk<L, M>,
    port: PortNo,
}

impl<'a, L: Ledger, M: Ledger, R: Wait> Admitted for AtPort<'a, L, M, R> {
    fn onu_of(&self, alloc_id: AllocId) -> Option<OnuId> {
        let find = |port: &Port| {
            let roster = port.state().roster();
            let place = roster.place_of(alloc_id)?;
            Some(roster.rows()[place].onu)
        };
        self.desk.inspect(self.rt, self.port, find).ok()?
    }
}

/// Answers the maps of a port with its simulated units until the port closes the connection. If units grow, an Alloc-ID that
/// is admitted during the run gets an empty queue at the unit of its ONU.
///
/// # Errors
///
/// As those of [`serve_units`](pon_link::serve_units).
pub(crate) fn answer_units<L: Ledger, M: Ledger, G: Gate, R: Wait>(
    run: &RunContext<'_, G, R>,
    desk: &Desk<L, M>,
    port: PortNo,
    part: UnitsPart,
) -> Result<(), UnitsFault> {
    match run.args.units {
        UnitsPlace::Here { grow: true } => {
            let admitted = AtPort {
                rt: run.rt,
                desk,
                port,
            };
            answer_growing(run.alloc, part, &admitted)
        }
        _ => answer(run.alloc, part),
    }
}
