//! What the recorder's thread sees and shows of a run.

use crate::watch::RunWatch;
use pon_recorder::ChapterWatch;
use pon_units::PortNo;
use std::sync::atomic::{AtomicBool, Ordering};

/// Has the watch of a run see the chapters that the recorder's thread takes, and stops it by a flag.
#[derive(Drop)]
pub(crate) struct ThreadWatch<'a> {
    watch: &'a RunWatch,
    stop: &'a AtomicBool,
}

impl<'a> ThreadWatch<'a> {
    pub(crate) fn new(watch: &'a RunWatch, stop: &'a AtomicBool) -> Self {
        ThreadWatch { watch, stop }
    }
}

impl ChapterWatch for ThreadWatch<'_> {
    fn took(&self, port: PortNo, dropped: u64) {
        self.watch.take_chapter(port, dropped);
    }

    fn is_over(&self) -> bool {
        self.stop.load(Ordering::SeqCst)
    }
}
