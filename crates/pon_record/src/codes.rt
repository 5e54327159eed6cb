//! The numbers that stand for values in a recording: one table for what reads a recording and what writes one.

// The events of a chapter: the first byte of an entry.

/// An Alloc-ID is admitted.
pub(crate) const ADMIT: u8 = 1;

/// The descriptor of an Alloc-ID is changed.
pub(crate) const CHANGE: u8 = 2;

/// An Alloc-ID is removed.
pub(crate) const REMOVE: u8 = 3;

/// An ONU reports.
pub(crate) const REPORT: u8 = 4;

/// A map is made.
pub(crate) const MAKE_MAP: u8 = 5;

/// The port fails.
pub(crate) const FAIL: u8 = 6;

/// The port is restored.
pub(crate) const RESTORE: u8 = 7;

// The class of a descriptor.

/// No share of the surplus.
pub(crate) const PLAIN: u8 = 0;

/// Non-assured bandwidth.
pub(crate) const NON_ASSURED: u8 = 1;

/// Best effort bandwidth.
pub(crate) const BEST_EFFORT: u8 = 2;

// The rule of a chapter.

/// Rule one: each map drops the remainders of its rates.
pub(crate) const DROP_REMAINDERS: u8 = 1;

/// Rule two: remainders are carried over to the next map.
pub(crate) const CARRY_REMAINDERS: u8 = 2;

// Values that may be absent.

/// The cause of a port that is up.
pub(crate) const UP: u8 = 0;

/// No report of a row counts.
pub(crate) const NOT_COUNTED: u8 = 0;

/// A report of a row counts.
pub(crate) const COUNTED: u8 = 1;

/// The occupancy of a garbled report.
pub(crate) const GARBLED: u32 = 0xffff_ffff;
