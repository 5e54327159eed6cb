ghost use Rattle.std.specs.Prelude.{◌≡◌, ◌^◌, ◌<◌, ◌≤◌, [], ◌∷◌, ◌++◌, length, slice_range, All, IsSome, IfSome};
ghost use Rattle.std.specs.Int.{w64, to_be_bytes};
ghost use Rattle.pon_xgtc.specs.Header.{header_bytes};
ghost use Rattle.pon_xgtc.specs.BurstHead.{FitsBurstHead, burst_head_payload};
ghost use Rattle.pon_link.specs.UpRecords.{IsRecord};

use crate::buffer::append;
use crate::form::UP_TAG;
use crate::record::UpRecord;
use arrayvec::ArrayVec;
use pon_units::{FrameNo, MAX_SERIES};
use pon_xgtc::BurstHead;

/// Encodes a record that has a burst header and 1 to 16 occupancies, none of them garbled, in 18 to 78 bytes. The
/// header is written without bit errors.
pub fn encode_up(burst: &UpRecord) -> ArrayVec<u8, 78>
    requires head { IsSome burst.now.head }
    requires some { 1 ≤ length burst.now.occ }
    requires limit { length burst.now.occ ≤ MAX_SERIES }
    requires reports { All IsSome burst.now.occ }
    ensures reads { IsRecord result.items burst.now }
    ensures sealed { IfSome burst.now.head (λ h. slice_range result.items 9 13
        ≡ header_bytes (burst_head_payload h)) }
{
    let reports = burst.occ.as_slice();
    let Some(head) = burst.head else {
        unreachable!()
    };
    let mut bytes = front(burst.frame, &head, reports.len());
    for report in reports {
        match report {
            Some(occupancy) => append(&mut bytes, &pon_dbru::encode(*occupancy)),
            None => unreachable!(),
        }
    }
    bytes
}

// Encodes the bytes of a record before its reports.
fn front(frame: FrameNo, head: &BurstHead, count: usize) -> ArrayVec<u8, 78>
    requires { count ≤ MAX_SERIES }
    ensures frame { frame < 2 ^ 64 }
    ensures head { FitsBurstHead head.now }
    ensures spelled { result.items ≡ 0x55 ∷ (to_be_bytes w64 frame
        ++ header_bytes (burst_head_payload head.now) ++ count ∷ []) }
{
    prove!(head.onu_raw() <= 1023 && head.ind() <= 511);
    let mut bytes = ArrayVec::new();
    bytes.push(UP_TAG);
    append(&mut bytes, &frame.get().to_be_bytes());
    append(&mut bytes, &head.encode());
    bytes.push(count as u8);
    bytes
}
