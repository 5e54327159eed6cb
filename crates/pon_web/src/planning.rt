//! Management lines.

ghost use Rattle.std.specs.Prelude.{◌≡◌, ◌≢◌};
ghost use Rattle.pon_web.specs.Handing.{HandsNothing};
ghost use Rattle.pon_web.specs.Planning.{TellsReplies, only_port};
ghost use Rattle.pon_web.specs.declared.status.TheConstants.{MEMORY};

use crate::handing::hand_out;
use crate::status::{GOOD, MEMORY};
use pon_device::{MemWrite, StdRead};
use pon_manage::{LineRefusal, Notes, plan};
use pon_plant::Plant;
use pon_port::PortCfg;
use pon_units::{FrameNo, Gap, Profile};
use std::alloc::Global;

/// The gap before each burst of the port, in words of 4 bytes.
pub const GAP: u16 = 16;

/// The burst profile of the port.
pub const PROFILE: u8 = 0;

/// The first frame of the port.
pub const FIRST_FRAME: u64 = 0;

// Notes whether a line was refused, and nothing else of it.
#[derive(Clone, Copy)]
struct Refusals {
    any: bool,
}

impl Notes for Refusals {
    ghost noted = { λ refusals. refusals.any };

    fn note(&mut self, _number: u64, _plant: &Plant, _line: &[u8], _refusal: LineRefusal) {
        self.any = true;
    }
}

// Returns the port of `olt plan` without settings.
fn only_port() -> (PortCfg, FrameNo)
    ensures { result ≡ only_port }
{
    let gap = Gap::new(GAP).unwrap();
    let profile = Profile::new(PROFILE).unwrap();
    (PortCfg { gap, profile }, FrameNo::new(FIRST_FRAME))
}

/// Answers management lines at one port without Alloc-IDs. The answer is the text that `olt plan` prints without
/// settings. Returns `GOOD`, or `MEMORY`.
#[unsafe(no_mangle)]
pub extern "C" fn pon_web_plan(
    alloc: Global,
    lines: &[u8],
    room: &mut [u8],
    length: &mut usize,
) -> u8
    ensures told { result ≢ MEMORY → TellsReplies lines.now result room.old room.new length.new }
    ensures memory { result ≡ MEMORY → HandsNothing room.old room.new length.old length.new }
{
    let mut reader = StdRead::new(lines);
    let mut writer = MemWrite::new(alloc, usize::MAX, Vec::new(alloc));
    let mut refusals = Refusals { any: false };
    let ports = [only_port()];
    match plan(
        alloc,
        &ports,
        Vec::new(alloc),
        &mut refusals,
        &mut reader,
        &mut writer,
    ) {
        Ok(_) => {
            hand_out(writer.bytes(), room, length);
            GOOD
        }
        Err(_) => MEMORY,
    }
}
