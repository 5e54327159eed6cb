// Identifiers: the ONUs of a line, their Alloc-IDs, and the ports of the terminal.
ghost use Rattle.std.specs.Prelude.{◌≡◌, ◌<◌, ◌≤◌};
ghost use Rattle.std.specs.Option.{SomeIff};

use crate::limits::{MAX_ALLOC_ID, MAX_ONU_ID, MAX_PORTS, MIN_ALLOC_ID};
use std::marker::Model;

/// An ONU-ID, 0 to 1022: the number of an optical network unit on its line (ITU-T G.987.3, ONU-ID).
#[derive(Clone, Copy, Debug, PartialEq, Eq, PartialOrd, Ord)]
pub struct OnuId {
    onu: u16,
}

impl Model for OnuId {
    ghost use Rattle.std.specs.Prelude.{ℕ, ◌≤◌};
    ghost use Rattle.pon_units.specs.declared.limits.TheConstants.{MAX_ONU_ID};

    ghost Value = { ℕ };

    ghost view = { λ a. a.onu };

    ghost invariant = { λ a. a.onu ≤ MAX_ONU_ID };

    ghost inverse = { λ n. record { onu = n } };
}

impl OnuId {
    /// Returns `None` above [`MAX_ONU_ID`].
    pub fn new(n: u16) -> Option<Self>
        ensures { SomeIff result (n ≤ MAX_ONU_ID) n }
    {
        if n <= MAX_ONU_ID {
            Some(OnuId { onu: n })
        } else {
            None
        }
    }

    /// Number of the ONU, 0 to 1022.
    pub fn get(self) -> u16
        ensures value { result ≡ self }
        ensures range { self ≤ MAX_ONU_ID }
    {
        self.onu
    }
}

/// A managed Alloc-ID, 1024 to 16383: the number of one bearer of upstream traffic (ITU-T G.987.3,
/// Alloc-ID). The default Alloc-IDs below 1024, which equal ONU-IDs, are not managed.
#[derive(Clone, Copy, Debug, PartialEq, Eq, PartialOrd, Ord)]
pub struct AllocId {
    alloc_id: u16,
}

impl Model for AllocId {
    ghost use Rattle.std.specs.Prelude.{ℕ, ◌≤◌};
    ghost use Rattle.pon_units.specs.declared.limits.TheConstants.{MAX_ALLOC_ID, MIN_ALLOC_ID};

    ghost Value = { ℕ };

    ghost view = { λ a. a.alloc_id };

    ghost invariant = { λ a. (MIN_ALLOC_ID ≤ a.alloc_id) × (a.alloc_id ≤ MAX_ALLOC_ID) };

    ghost inverse = { λ n. record { alloc_id = n } };
}

impl AllocId {
    /// Returns `None` outside [`MIN_ALLOC_ID`] to [`MAX_ALLOC_ID`].
    pub fn new(n: u16) -> Option<Self>
        ensures { SomeIff result ((MIN_ALLOC_ID ≤ n) × (n ≤ MAX_ALLOC_ID)) n }
    {
        if n >= MIN_ALLOC_ID && n <= MAX_ALLOC_ID {
            Some(AllocId { alloc_id: n })
        } else {
            None
        }
    }

    /// Number of the Alloc-ID, 1024 to 16383.
    pub fn get(self) -> u16
        ensures value { result ≡ self }
        ensures range { (MIN_ALLOC_ID ≤ self) × (self ≤ MAX_ALLOC_ID) }
    {
        self.alloc_id
    }
}

/// The least Alloc-ID.
impl Default for AllocId {
    ghost use Rattle.std.specs.Prelude.{◌≡◌};
    ghost use Rattle.pon_units.specs.declared.limits.TheConstants.{MIN_ALLOC_ID};

    ghost is_default = { λ a. a ≡ MIN_ALLOC_ID };

    fn default() -> Self {
        AllocId {
            alloc_id: MIN_ALLOC_ID,
        }
    }
}

/// The number of a port of the line terminal, 0 to 63: its index in the list of ports.
#[derive(Clone, Copy, Debug, PartialEq, Eq, PartialOrd, Ord)]
pub struct PortNo {
    port: u8,
}

impl Model for PortNo {
    ghost use Rattle.std.specs.Prelude.{ℕ, ◌<◌};
    ghost use Rattle.pon_units.specs.declared.limits.TheConstants.{MAX_PORTS};

    ghost Value = { ℕ };

    ghost view = { λ a. a.port };

    ghost invariant = { λ a. a.port < MAX_PORTS };

    ghost inverse = { λ n. record { port = n } };
}

impl PortNo {
    /// Returns `None` from [`MAX_PORTS`] on.
    pub fn new(n: u8) -> Option<Self>
        ensures { SomeIff result (n < MAX_PORTS) n }
    {
        if usize::from(n) < MAX_PORTS {
            Some(PortNo { port: n })
        } else {
            None
        }
    }

    /// Returns the number of the port at an index of a list of ports. The index must be below [`MAX_PORTS`].
    pub fn at(place: usize) -> Self
        requires { place < MAX_PORTS }
        ensures { result ≡ place }
    {
        PortNo { port: place as u8 }
    }

    /// Number of the port, 0 to 63.
    pub fn get(self) -> u8
        ensures value { result ≡ self }
        ensures range { self < MAX_PORTS }
    {
        self.port
    }
}
