use pon_units::{Gap, Profile};

/// The configuration of a port.
#[derive(Clone, Copy, Debug, PartialEq, Eq)]
pub struct PortCfg {
    /// The gap before each burst, 1 to 256 words of 4 bytes.
    pub gap: Gap,
    /// The burst profile, 0 to 3.
    pub profile: Profile,
}
