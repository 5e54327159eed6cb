//! How a call ended.

/// The recording is good, the certificate is accepted, the lines are answered, or what was asked for is shown.
pub const GOOD: u8 = 0;

/// The recording is not good, or the certificate is refused. The answer says so.
pub const BAD: u8 = 1;

/// The recording has not what was asked for. The answer is a line about that; for a picture there is none.
pub const MISSING: u8 = 2;

/// Memory was refused. There is no answer.
pub const MEMORY: u8 = 3;

/// No Alloc-ID has the number that the host gave. There is no answer.
pub const NO_ALLOC: u8 = 4;
