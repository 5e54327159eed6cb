//! The ports that a recording has.

use crate::query::{Answer, Missing};
use pon_units::PortNo;

/// The least and the greatest port of the chapters.
#[derive(Clone, Copy)]
pub(crate) struct Ports {
    pub first: PortNo,
    pub last: PortNo,
}

/// Returns the ports with one more.
pub(crate) fn with_port(ports: Option<Ports>, port: PortNo) -> Ports {
    match ports {
        Some(ports) => Ports {
            first: ports.first.min(port),
            last: ports.last.max(port),
        },
        None => Ports {
            first: port,
            last: port,
        },
    }
}

/// Returns what is missing if no chapter is of a port; of any port if it is `None`.
pub(crate) fn missing_port(ports: Option<Ports>, port: Option<PortNo>) -> Missing {
    match (ports, port) {
        (Some(Ports { first, last }), Some(port)) => Missing::Port { port, first, last },
        _ => Missing::Chapters,
    }
}

/// The ports of the chapters so far, and whether one is of the port that is shown, or of any port if it is `None`.
#[derive(Clone, Copy)]
pub(crate) struct SeenPorts {
    port: Option<PortNo>,
    ports: Option<Ports>,
    is_met: bool,
}

impl SeenPorts {
    /// Before the first chapter.
    pub(crate) fn new(port: Option<PortNo>) -> SeenPorts {
        SeenPorts {
            port,
            ports: None,
            is_met: false,
        }
    }

    /// Notes a chapter of a port. Returns whether it is shown.
    pub(crate) fn sees(&mut self, port: PortNo) -> bool {
        self.ports = Some(with_port(self.ports, port));
        let is_shown = self.port.is_none() || self.port == Some(port);
        self.is_met = self.is_met || is_shown;
        is_shown
    }

    /// Returns what is missing if no chapter was shown.
    pub(crate) fn answer(&self) -> Answer {
        if self.is_met {
            Answer::Shown
        } else {
            Answer::NotFound(missing_port(self.ports, self.port))
        }
    }
}
