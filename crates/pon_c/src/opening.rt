// Ports are opened and closed.
ghost use Rattle.std.specs.Prelude.{◌≡◌, ◌≢◌, ◌≤◌, IsSome, IsNone, Some, None};
ghost use Rattle.pon_c.specs.Answers.{opened_chapter};
ghost use Rattle.pon_c.specs.Arguments.{IsGap};

use crate::handle::PortHandle;
use crate::numbers::{BAD_GAP, BAD_PROFILE, CLOSED, IS_OPEN, OUT_OF_MEMORY};
use pon_admit::PortCfg;
use pon_port::Port;
use pon_units::{FrameNo, Gap, MAX_PROFILE, Profile};
use std::alloc::Global;

/// Opens a port in a closed handle: no Alloc-ID, the line up, and `first` as its next frame. Returns 0, or the first of:
/// `IS_OPEN` for an open handle, `BAD_GAP` for a gap outside 1 to 256, `BAD_PROFILE` for a profile above 3, and
/// `OUT_OF_MEMORY`. Then the handle is unchanged.
#[unsafe(no_mangle)]
pub extern "C" fn sez_open(
    alloc: Global,
    port: &mut PortHandle,
    gap: u16,
    profile: u8,
    first: u64,
) -> u32
    ensures ok { result ≡ 0 → port.new.owned.port ≡ Some (opened_chapter gap profile first) }
    ensures err { result ≢ 0 → port.new.owned.port ≡ port.old.owned.port }
    ensures is_open { IsSome port.old.owned.port → result ≡ IS_OPEN }
    ensures gap { IsNone port.old.owned.port → (IsGap gap → ⊥) → result ≡ BAD_GAP }
    ensures profile { IsNone port.old.owned.port → IsGap gap → (profile ≤ MAX_PROFILE → ⊥)
        → result ≡ BAD_PROFILE }
    ensures memory { IsNone port.old.owned.port → IsGap gap → profile ≤ MAX_PROFILE → result ≢ 0
        → result ≡ OUT_OF_MEMORY }
{
    if port.is_open() {
        return IS_OPEN;
    }
    let Some(gap) = Gap::new(gap) else {
        return BAD_GAP;
    };
    let Some(profile) = Profile::new(profile) else {
        return BAD_PROFILE;
    };
    let Ok(opened) = Port::open(alloc, PortCfg { gap, profile }, FrameNo::new(first)) else {
        return OUT_OF_MEMORY;
    };
    match Box::new(alloc, opened) {
        Ok(opened) => {
            *port = PortHandle::of(opened);
            0
        }
        Err(_) => OUT_OF_MEMORY,
    }
}

/// Closes an open handle, and frees the memory of its port. Returns 0, or `CLOSED` if the handle is closed already.
#[unsafe(no_mangle)]
pub extern "C" fn sez_close(alloc: Global, port: &mut PortHandle) -> u32
    ensures closed { port.new.owned.port ≡ None }
    ensures was_open { IsSome port.old.owned.port → result ≡ 0 }
    ensures was_closed { IsNone port.old.owned.port → result ≡ CLOSED }
{
    match port.take(alloc) {
        Some(open) => {
            drop(open);
            0
        }
        None => CLOSED,
    }
}
