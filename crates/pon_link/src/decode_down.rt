// Decoding of whole downstream records.
ghost use Rattle.std.specs.Prelude.{◌≡◌, ◌≢◌, ◌⊎◌, IfOk, IfErr};
ghost use Rattle.pon_link.specs.DownRecords.{IsDownRecord, KeepsDown};
ghost use Rattle.pon_link.specs.Reading.{IsWholeRecord};

use crate::decode::frame_in;
use crate::direction::Direction;
use crate::fault::{DownFault, LinkFault};
use crate::record::DownRecord;
use pon_bwmap::{MapFault, decode_map};
use std::alloc::Global;

// Decodes the bytes of a whole record.
pub(crate) fn decode_down(alloc: Global, bytes: &[u8]) -> Result<DownRecord, DownFault>
    requires { IsWholeRecord Direction.Down bytes.now }
    ensures ok { IfOk result (IsDownRecord bytes.now) }
    ensures err { IfErr result (KeepsDown bytes.now) }
{
    match decode_map(alloc, &bytes[9..]) {
        Ok((map, _, _)) => Ok(DownRecord {
            frame: frame_in(&bytes[1..9]),
            map,
        }),
        Err(fault) => Err(down_fault(fault)),
    }
}

// Returns the fault of a record whose map has this fault.
fn down_fault(fault: MapFault) -> DownFault
    ensures { ((fault ≡ MapFault.Memory) × (result ≡ DownFault.Memory))
        ⊎ ((fault ≢ MapFault.Memory) × (result ≡ DownFault.Link LinkFault.BadMap)) }
{
    match fault {
        MapFault::Memory => DownFault::Memory,
        _ => DownFault::Link(LinkFault::BadMap),
    }
}
