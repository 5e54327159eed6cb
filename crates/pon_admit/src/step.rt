use crate::event::Event;
use pon_units::PortNo;

/// An event at a port.
#[derive(Drop)]
pub struct Step {
    /// The port, 0 to 63.
    pub port: PortNo,
    /// The event.
    pub event: Event,
}
