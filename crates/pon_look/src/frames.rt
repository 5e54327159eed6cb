//! The frames of the maps of a list of entries.

ghost use Rattle.std.specs.Prelude.{◌≡◌};
ghost use Rattle.pon_look.specs.Counts.{first_frame, frame_in, last_frame};

use pon_state::{Entry, EntryRef};
use pon_units::FrameNo;

// Returns the frame of the map of an entry.
fn frame_in(entry: &Entry) -> Option<FrameNo>
    ensures { result ≡ frame_in entry.now.reply }
{
    match entry.as_ref() {
        EntryRef::Map(made) => Some(made.frame),
        EntryRef::Taken(_) => None,
    }
}

/// Returns the frame of the first map, of 125 µs; `None` without a map.
pub fn first_frame(entries: &[Entry]) -> Option<FrameNo>
    ensures { result ≡ first_frame entries.now }
{
    for entry in entries {
        if let Some(frame) = frame_in(entry) {
            return Some(frame);
        }
    }
    None
}

/// Returns the frame of the last map, of 125 µs; `None` without a map.
#[tactic(auto, using(crate::proofs::LastFrames::or_else_assoc))]
pub fn last_frame(entries: &[Entry]) -> Option<FrameNo>
    ensures { result ≡ last_frame entries.now }
{
    let mut last = None;
    for entry in entries {
        if let Some(frame) = frame_in(entry) {
            last = Some(frame);
        }
    }
    last
}
