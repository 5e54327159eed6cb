ghost use Rattle.std.specs.Prelude.{◌≡◌, List, length};
ghost use Rattle.pon_record.specs.Chapters.{PlacedChapter};
ghost use Rattle.pon_record.specs.Recordings.{IsRecording};

use crate::chapters::body_of;
use crate::limits::{HEAD_BYTES, MAGIC_BYTES};

/// Returns the number of chapters of a recording of either version, from the length in the head of each to the next. It
/// reads no body, and allocates no memory. Of bytes that are no recording it returns the number of heads up to the first
/// that is none.
pub fn chapter_count(bytes: &[u8]) -> usize
    ensures { (chapters : List PlacedChapter) → IsRecording bytes.now chapters
        → result ≡ length chapters }
{
    if bytes.len() < MAGIC_BYTES {
        return 0;
    }
    let mut count = 0;
    let mut rest = &bytes[MAGIC_BYTES..];
    while !rest.is_empty() {
        let Ok(body) = body_of(rest) else {
            return count;
        };
        let (_, after) = rest.split_at(HEAD_BYTES + body.len());
        rest = after;
        count += 1;
    }
    count
}
