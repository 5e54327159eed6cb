//! Reports for the maps of a window: the checks that refuse a report, and the note that an ONU reported.

ghost use Rattle.std.specs.Prelude.{◌≡◌, ◌≤◌, ℕ, None, Some, All, IfOk, IfErr, OnOk, OnErr, drop, length, map};
ghost use Rattle.pon_guar.specs.Window.{IsLawfulMap, IsPlaceOf, AreConsecutive, frame_after};
ghost use Rattle.pon_guar.specs.AcceptedReports.{IsAccepted};
ghost use Rattle.pon_guar.specs.ReportChecks.{refuses_report, with_report};

use crate::map::WindowMap;
use crate::place::place_of;
use pon_descr::Refusal;
use pon_units::{FrameNo, OnuId};
use std::alloc::AllocError;

/// A report that no check refuses.
#[derive(Clone, Copy, Debug)]
pub struct Accepted {
    /// The frame of the map that it is for, of 125 µs.
    pub frame: FrameNo,
    /// The ONU that reports, 0 to 1022.
    pub onu: OnuId,
    /// Index of the map in the window, the oldest first, 0 to 63.
    pub map: usize,
    /// Index in the map of the first grant to the ONU, 0 to 511: a hint, since no clause states it.
    pub first: usize,
}

/// Accepts a report of `count` occupancies, or returns the first check that refuses it. The hint is the index at which
/// the grants to the ONU may begin.
pub(crate) fn accept_report(
    window: &[WindowMap],
    hint: usize,
    frame: FrameNo,
    onu: OnuId,
    count: usize,
) -> Result<Accepted, Refusal>
    requires frames { AreConsecutive (frame_after window.now) window.now }
    requires maps { All IsLawfulMap window.now }
    ensures ok { IfOk result (IsAccepted window.now frame onu count) }
    ensures refused { IfErr result (λ refusal. refuses_report window.now frame onu count
        ≡ Some refusal) }
{
    let Some(place) = place_of(window, frame) else {
        return Err(Refusal::StaleFrame);
    };
    let map = &window[place];
    let series = map.series(hint, onu);
    let polled = series.grants.len();
    if polled == 0 {
        return Err(Refusal::NotPolled);
    }
    if count != polled {
        return Err(Refusal::ReportCount);
    }
    if map.has_reported(onu) {
        return Err(Refusal::AlreadyReported);
    }
    Ok(Accepted {
        frame,
        onu,
        map: place,
        first: series.first,
    })
}

/// Notes an ONU's report for the map of a frame, which is at an index of the window; the window begins at an index of
/// the kept maps. `Err` only if memory is refused, and then nothing changes.
pub(crate) fn note_report(
    kept: &mut [WindowMap],
    past: usize,
    place: usize,
    frame: FrameNo,
    onu: OnuId,
) -> Result<(), AllocError>
    requires within { past ≤ length kept.old }
    requires frames { AreConsecutive (frame_after (drop past kept.old)) (drop past kept.old) }
    requires maps { All IsLawfulMap (drop past kept.old) }
    requires accepted { (count : ℕ)
        × (refuses_report (drop past kept.old) frame onu count ≡ None) }
    requires there { IsPlaceOf frame (drop past kept.old) place }
    ensures ok { OnOk result (drop past kept.new
        ≡ map (with_report frame onu) (drop past kept.old)) }
    ensures err { OnErr result (kept.new ≡ kept.old) }
{
    kept[past + place].note(onu)?;
    Ok(())
}
