use crate::receipt::Receipt;
use crate::settling::settle_port;
use crate::unsettled::Unsettled;
use pon_port::{Chapter, Port, PortCfg};
use pon_units::{FrameNo, PortNo};
use std::marker::Model;

/// The ports of a closed desk, in the order of their numbers, with the configuration and the first frame with which each
/// was to be opened; a desk whose ports took entries before has no such list.
///
/// Contracts see the chapters that the ports keep, and these.
#[derive(Drop)]
pub struct Closed {
    pub(crate) ports: Vec<Port>,
    pub(crate) opened: Vec<(PortCfg, FrameNo)>,
}

impl Model for Closed {
    ghost use Rattle.pon_desk.specs.Counts.{ClosedPorts};

    ghost Value = { ClosedPorts };

    ghost view = { λ c. record { ports = c.ports.items; opened = c.opened.items } };
}

impl Closed {
    ghost use Rattle.std.specs.Prelude.{◌≡◌, ◌≤◌, Err, length, MatchOption, MatchResult, Some, slice_get};
    ghost use Rattle.pon_history.specs.Chapters.{Chapter};
    ghost use Rattle.pon_desk.specs.Settling.{IsSettled, TellsUnsettled, history_at};

    /// Port of a number, or `None` exactly when the desk had no such port.
    pub fn port(&self, port: PortNo) -> Option<&Port>
        ensures { MatchOption result (length self.now.ports ≤ port)
            (λ p. slice_get self.now.ports port ≡ Some p.now) }
    {
        self.ports.get(usize::from(port.get()))
    }

    /// Returns all ports, in the order of their numbers.
    pub fn into_ports(self) -> Vec<Port>
        ensures { result.items ≡ self.ports }
    {
        self.ports
    }

    /// Compares the entries of a port, those of the chapters that it returned and of the chapter that it keeps, with
    /// receipts in the order of their places. It allocates no memory.
    ///
    /// `Ok` exactly when each of the following holds. The chapters are numbered from 0 up to the kept one. The first of
    /// them opens as the port was to be opened, and each later one (also the kept one) counts the entries up to the end
    /// of the one before it. The receipts are of all entries: the k-th has this port, and the place, the event and the
    /// reply of the k-th entry, and names the number of earlier receipts of its seat. There are as many receipts as
    /// entries, and the port took as many.
    ///
    /// # Errors
    ///
    /// `Chapter` 0 if it is not known how the port was to be opened. Otherwise `Chapter` for the first chapter that is not right, or else `Receipt` for the first receipt that is not, or else
    /// `Count`.
    pub fn settle(
        &self,
        port: PortNo,
        chapters: &[Chapter],
        receipts: &[Receipt],
    ) -> Result<(), Unsettled>
        ensures { MatchOption (history_at self.now port chapters.now)
            (result ≡ Err (Unsettled.Chapter 0))
            (λ h. MatchResult result (λ _. IsSettled h port receipts.now)
            (λ why. TellsUnsettled h port receipts.now why)) }
    {
        let place = usize::from(port.get());
        match (self.opened.get(place), self.ports.get(place)) {
            (Some(opened), Some(kept)) => settle_port(opened, port, kept, chapters, receipts),
            _ => Err(Unsettled::Chapter { k: 0 }),
        }
    }
}
