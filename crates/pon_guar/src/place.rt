//! The frames of a window, which are consecutive.

ghost use Rattle.std.specs.Prelude.{◌≡◌, false, None, IfSome};
ghost use Rattle.std.specs.List.{list_any};
ghost use Rattle.pon_guar.specs.Window.{IsPlaceOf, AreConsecutive, frame_after, is_of};

use crate::map::WindowMap;
use pon_units::FrameNo;

/// Returns the index of the map of a frame, by its distance from the first; `None` if no map is of it.
pub(crate) fn place_of(window: &[WindowMap], frame: FrameNo) -> Option<usize>
    requires { AreConsecutive (frame_after window.now) window.now }
    ensures none { result ≡ None → list_any (is_of frame) window.now ≡ false }
    ensures some { IfSome result (IsPlaceOf frame window.now) }
{
    let first = window.first()?;
    let place = usize::try_from(frame.get().checked_sub(first.frame.get())?).ok()?;
    if place < window.len() {
        Some(place)
    } else {
        None
    }
}
