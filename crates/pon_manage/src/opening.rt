use pon_plant::Step;
use pon_port::PortCfg;
use pon_units::FrameNo;

/// What the ports of a plant begin with.
#[derive(Drop)]
pub struct Opening {
    /// The configuration and the first frame of each port, 1 to 64, numbered from 0 in this order.
    pub ports: Vec<(PortCfg, FrameNo)>,
    /// The steps of the settings, to be taken in this order before the first line.
    pub steps: Vec<Step>,
}
