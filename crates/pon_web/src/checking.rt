//! Check files.

ghost use Rattle.std.specs.Prelude.{◌≡◌, ◌≢◌};
ghost use Rattle.pon_web.specs.Handing.{HandsNothing};
ghost use Rattle.pon_web.specs.Checking.{TellsCheck};
ghost use Rattle.pon_web.specs.declared.status.TheConstants.{MEMORY};

use crate::handing::hand_out;
use crate::status::{BAD, GOOD, MEMORY};
use pon_check_file::check_file;
use pon_device::{MemWrite, StdRead};
use std::alloc::Global;

/// Judges the certificate of a check file. The answer is the line that `olt check` prints. Returns `GOOD` if the
/// certificate is accepted, `BAD` if it is refused, or `MEMORY`.
#[unsafe(no_mangle)]
pub extern "C" fn pon_web_check(
    alloc: Global,
    file: &[u8],
    room: &mut [u8],
    length: &mut usize,
) -> u8
    ensures told { result ≢ MEMORY → TellsCheck file.now result room.old room.new length.new }
    ensures memory { result ≡ MEMORY → HandsNothing room.old room.new length.old length.new }
{
    let mut reader = StdRead::new(file);
    let mut writer = MemWrite::new(alloc, usize::MAX, Vec::new(alloc));
    match check_file(alloc, &mut reader, &mut writer) {
        Ok(accepted) => {
            hand_out(writer.bytes(), room, length);
            if accepted { GOOD } else { BAD }
        }
        Err(_) => MEMORY,
    }
}
