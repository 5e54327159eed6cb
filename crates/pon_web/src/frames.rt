//! The frame of a map.

ghost use Rattle.std.specs.Prelude.{◌≡◌};
ghost use Rattle.pon_web.specs.Frames.{frame_of};

use pon_state::{Entry, EntryRef};
use pon_units::FrameNo;

/// Returns the frame of the map of an entry.
pub(crate) fn frame_of(entry: &Entry) -> Option<FrameNo>
    ensures { result ≡ frame_of entry.now.reply }
{
    match entry.as_ref() {
        EntryRef::Map(made) => Some(made.frame),
        EntryRef::Taken(_) => None,
    }
}
