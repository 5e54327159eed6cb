//! A watch of the chapters that a recorder takes, which says when it is to stop.

use pon_units::PortNo;

/// Sees the chapters that a recorder takes out of the rings, and stops it.
pub trait ChapterWatch {
    /// Sees that a chapter of this port was taken. `dropped` of those taken so far were dropped.
    fn took(&self, port: PortNo, dropped: u64);

    /// Whether the recorder is to stop; it may be asked at any time.
    fn is_over(&self) -> bool;
}
