//! What serves a port in all its connections.

use crate::context::RunContext;
use pon_desk::Desk;
use pon_units::PortNo;
use pon_worker::Gate;
use std::sync::ledger::Ledger;

/// What serves a port in all its connections: the run, the desk, and the number of the port.
#[derive(Drop)]
pub(crate) struct PortServer<'a, L: Ledger, M: Ledger, G: Gate, R> {
    pub(crate) run: &'a RunContext<'a, G, R>,
    pub(crate) desk: &'a Desk<L, M>,
    pub(crate) port: PortNo,
}

impl<'a, L: Ledger, M: Ledger, G: Gate, R> PortServer<'a, L, M, G, R> {
    /// Returns whether the run is stopped.
    pub(crate) fn is_stopped(&self) -> bool {
        self.run.watch.is_stopped()
    }
}
