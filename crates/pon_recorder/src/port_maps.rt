//! The maps of a port in the present device of a recording.

ghost use Rattle.std.specs.Prelude.{◌≡◌};
ghost use Rattle.pon_recorder.specs.PortMaps.{maps_after};

/// The number of maps of a port in one of the devices of a recording.
#[derive(Clone, Copy, Debug, PartialEq, Eq)]
pub(crate) struct PortMaps {
    // The number of devices before this one.
    device: u64,
    // At most 2^64 - 1.
    maps: u64,
}

impl PortMaps {
    ghost use Rattle.pon_recorder.specs.PortMaps.{are_most};

    /// No maps in the first device.
    pub(crate) fn none() -> Self
        ensures { result ≡ record { device = 0; maps = 0 } }
    {
        PortMaps { device: 0, maps: 0 }
    }

    /// Adds maps to those in the device that has this number of devices before it. In another device it counts anew.
    pub(crate) fn add(&mut self, device: u64, maps: u64)
        ensures { self.new ≡ maps_after self.old device maps }
    {
        let before = if self.device == device { self.maps } else { 0 };
        *self = PortMaps {
            device,
            maps: before.saturating_add(maps),
        };
    }

    /// Returns whether there are at least `most` maps in the device that has this number of devices before it.
    pub(crate) fn are_most(&self, device: u64, most: u64) -> bool
        ensures { result ≡ are_most device most self.now }
    {
        self.device == device && most <= self.maps
    }
}
