/// Number of the first bytes of a recording, which tell its version.
pub const MAGIC_BYTES: usize = 8;

/// The first bytes of a version one recording.
pub(crate) const MAGIC_ONE: [u8; MAGIC_BYTES] = *b"PONREC01";

/// The first bytes of a version two recording.
pub(crate) const MAGIC_TWO: [u8; MAGIC_BYTES] = *b"PONREC02";

/// The first byte of a chapter.
pub const CHAPTER_TAG: u8 = 0x43;

/// Number of bytes before the body of a chapter: its tag, and the length of the body in 4 bytes.
pub(crate) const HEAD_BYTES: usize = 5;

/// Maximum number of ONUs that reported for a map of a recorded window: the largest count in one byte.
pub(crate) const MAX_REPORTED: u8 = 255;
