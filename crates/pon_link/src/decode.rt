// Decoding of whole upstream records.
ghost use Rattle.std.specs.Prelude.{◌≡◌, ◌*◌, ◌≤◌, length};
ghost use Rattle.std.specs.Int.{w64, from_be_bytes};
ghost use Rattle.pon_link.specs.UpRecords.{IsRecord, ReadsHead, ReadsReport, ReadsReports};
ghost use Rattle.pon_link.specs.Reading.{IsWholeRecord};

use crate::direction::Direction;
use crate::record::UpRecord;
use pon_dbru::{Garbled, Occupancies};
use pon_units::{BufOcc, FrameNo, MAX_SERIES};
use pon_xgtc::BurstHead;

// Decodes the bytes of a whole record.
pub(crate) fn decode_up(bytes: &[u8]) -> UpRecord
    requires { IsWholeRecord Direction.Up bytes.now }
    ensures { IsRecord bytes.now result }
{
    UpRecord {
        frame: frame_in(&bytes[1..9]),
        head: head_in(&bytes[9..13]),
        occ: occupancies_in(&bytes[14..], usize::from(bytes[13])),
    }
}

// Decodes a frame of 8 bytes, the most significant first.
pub(crate) fn frame_in(bytes: &[u8]) -> FrameNo
    requires { length bytes.now ≡ 8 }
    ensures { from_be_bytes w64 bytes.now ≡ result }
{
    let number = bytes.first_chunk::<8>().unwrap();
    FrameNo::new(u64::from_be_bytes(*number))
}

// Decodes the burst header of 4 bytes; `None` if its HEC is refused.
fn head_in(bytes: &[u8]) -> Option<BurstHead>
    requires { length bytes.now ≡ 4 }
    ensures { ReadsHead bytes.now result }
{
    match BurstHead::decode(bytes) {
        Ok((head, _)) => Some(head),
        Err(_) => None,
    }
}

// Decodes the occupancies of `count` reports.
fn occupancies_in(bytes: &[u8], count: usize) -> Occupancies
    requires size { length bytes.now ≡ 4 * count }
    requires limit { count ≤ MAX_SERIES }
    ensures count { length result ≡ count }
    ensures reports { ReadsReports bytes.now result }
{
    let mut occupancies = Occupancies::new();
    for i in 0..count {
        occupancies.push(report_in(&bytes[4 * i..4 * i + 4]));
    }
    occupancies
}

// Decodes the occupancy of a report of 4 bytes; `None` if they are garbled.
fn report_in(bytes: &[u8]) -> Option<BufOcc>
    requires { length bytes.now ≡ 4 }
    ensures { ReadsReport bytes.now result }
{
    let Some(report) = bytes.first_chunk::<4>() else {
        unreachable!()
    };
    match pon_dbru::decode(*report) {
        Ok(occupancy) => Some(occupancy),
        Err(Garbled) => None,
    }
}
