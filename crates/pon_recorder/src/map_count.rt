//! The number of maps of a chapter.

ghost use Rattle.std.specs.Prelude.{◌≡◌};
ghost use Rattle.pon_recorder.specs.PortMaps.{map_count};

use pon_port::{Chapter, EntryRef};

/// Returns the number of maps of a chapter: the frames from that of its opening to that of its last map. It reads the
/// entries after the last map alone.
pub(crate) fn map_count(chapter: &Chapter) -> u64
    ensures { result ≡ map_count chapter.now.entries }
{
    let first = chapter.opening().next_frame().get();
    let entries = chapter.entries();
    let mut end = entries.len();
    while end > 0 {
        end -= 1;
        if let EntryRef::Map(made) = entries[end].as_ref() {
            return made.frame.get() - first + 1;
        }
    }
    0
}
