ghost use Rattle.std.specs.Prelude.{◌≡◌, IfOk};

use pon_bwmap::Map;
use pon_cert::MapCert;
use pon_units::FrameNo;
use std::alloc::{AllocError, Global};

/// A map that was made.
#[derive(Debug, PartialEq, Eq, Drop)]
pub struct MadeMap {
    /// Its frame, of 125 µs.
    pub frame: FrameNo,
    /// The map.
    pub map: Map,
    /// Its certificate of how the surplus is shared.
    pub cert: MapCert,
}

impl MadeMap {
    /// Makes an equal map.
    ///
    /// # Errors
    ///
    /// `AllocError` only if memory is refused.
    pub fn try_copy(&self, alloc: Global) -> Result<MadeMap, AllocError>
        ensures { IfOk result (λ made. made ≡ self.now) }
    {
        Ok(MadeMap {
            frame: self.frame,
            map: self.map.try_copy(alloc)?,
            cert: self.cert.try_copy(alloc)?,
        })
    }
}

/// The reply of a port to an event that it takes.
#[derive(Debug, PartialEq, Eq, Drop)]
pub enum Reply {
    Taken,
    Map(MadeMap),
}
