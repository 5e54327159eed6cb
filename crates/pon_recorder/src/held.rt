//! What a device has of a recording.

ghost use Rattle.std.specs.Prelude.{◌≡◌};
ghost use Rattle.pon_recorder.specs.Held.{nothing_held, one_more_held};

use pon_record::MAGIC_BYTES;

/// The whole chapters that a device has of a recording.
#[derive(Clone, Copy, Debug, PartialEq, Eq)]
pub struct Held {
    /// Number of the chapters, at most 2^64 - 1.
    pub chapters: u64,
    /// Number of bytes from the first magic byte to the end of the last of these chapters, at most 2^64 - 1.
    pub bytes: u64,
}

impl Held {
    /// What a device has of a recording without a chapter: the magic bytes.
    pub fn nothing() -> Self
        ensures { result ≡ nothing_held }
    {
        Held {
            chapters: 0,
            bytes: MAGIC_BYTES as u64,
        }
    }

    /// Adds a chapter with this number of bytes.
    pub(crate) fn add(&mut self, bytes: usize)
        ensures { self.new ≡ one_more_held self.old bytes }
    {
        self.chapters = self.chapters.saturating_add(1);
        self.bytes = self.bytes.saturating_add(bytes as u64);
    }
}
