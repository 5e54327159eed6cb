// The limits of an upstream line, and of this terminal.

/// Words of 4 bytes in an upstream frame: 38,880 bytes in 125 µs at 2.48832 Gbit/s (ITU-T G.987.3, upstream frame).
pub const FRAME_WORDS: u16 = 9720;

/// The rate of one word of 4 bytes in each frame of 125 µs, in kbit/s.
pub const WORD_RATE: u64 = 256;

/// The rate of an upstream line, in kbit/s: [`FRAME_WORDS`] in each frame.
pub const LINE_RATE: u64 = 2_488_320;

/// The greatest ONU-ID: 1023 identifies no unit (ITU-T G.987.3, ONU-ID).
pub const MAX_ONU_ID: u16 = 1022;

/// The least Alloc-ID that is assigned by management (ITU-T G.987.3, Alloc-ID).
pub const MIN_ALLOC_ID: u16 = 1024;

/// The greatest number in the 14 bits of an Alloc-ID (ITU-T G.987.3, Alloc-ID).
pub const MAX_ALLOC_ID: u16 = 16_383;

/// The greatest occupancy in the 24 bits of a report, in words of 4 bytes (ITU-T G.987.3, BufOcc).
pub const MAX_OCCUPANCY: u32 = 16_777_215;

/// The greatest rate, in kbit/s: that of [`MAX_OCCUPANCY`] words sent in every frame.
pub const MAX_RATE: u32 = 4_294_967_040;

/// The shortest gap before a burst, in words of 4 bytes, so that bursts never touch (this project's choice).
pub const MIN_GAP: u16 = 1;

/// The longest gap before a burst, in words of 4 bytes (this project's choice).
pub const MAX_GAP: u16 = 256;

/// The greatest number in the 2 bits of a burst profile (ITU-T G.987.3, BurstProfile).
pub const MAX_PROFILE: u8 = 3;

/// Maximum number of allocation structures of a bandwidth map (this project's choice).
pub const MAX_STRUCTURES: usize = 512;

/// Maximum number of allocation structures of a burst, and so of Alloc-IDs of an ONU (this project's choice).
pub const MAX_SERIES: usize = 16;

/// Maximum number of ONUs of a port (this project's choice).
pub const MAX_ONUS: usize = 128;

/// Maximum number of ports of a line terminal (this project's choice).
pub const MAX_PORTS: usize = 64;
