//! The maps of consecutive frames that grant an Alloc-ID nothing.

use pon_units::FrameNo;

/// The runs of maps of consecutive frames that granted an Alloc-ID no payload words, over one map or more.
#[derive(Clone, Copy, Debug, PartialEq, Eq)]
pub(crate) struct Idle {
    // The frames of the first and of the last map.
    first: FrameNo,
    last: FrameNo,
    // The length of the run that begins with the first map, of the run that ends with the last map, and of the longest.
    head: u64,
    tail: u64,
    longest: u64,
    // Whether one run has all maps.
    is_one_run: bool,
}

impl Idle {
    /// The run of the map of a frame that grants these payload words.
    pub(crate) fn of_map(frame: FrameNo, words: u64) -> Idle {
        let is_one_run = words == 0;
        let run = u64::from(is_one_run);
        Idle {
            first: frame,
            last: frame,
            head: run,
            tail: run,
            longest: run,
            is_one_run,
        }
    }

    /// The length of the longest run.
    pub(crate) fn longest(&self) -> u64 {
        self.longest
    }

    // Returns whether the frame of the first of other maps is the one after the last.
    fn goes_on(&self, others: &Idle) -> bool {
        self.last.get().checked_add(1) == Some(others.first.get())
    }

    /// Adds the map of a later frame that grants these payload words.
    #[inline(always)]
    pub(crate) fn add_map(&mut self, frame: FrameNo, words: u64) {
        if words > 0 {
            self.tail = 0;
            self.is_one_run = false;
            self.last = frame;
        } else {
            self.add(&Idle::of_map(frame, words));
        }
    }

    /// Adds the runs of later maps.
    pub(crate) fn add(&mut self, others: &Idle) {
        let goes_on = self.goes_on(others);
        let before = if goes_on { self.tail } else { 0 };
        let across = before.saturating_add(others.head);
        if self.is_one_run && goes_on {
            self.head = across;
        }
        self.tail = if others.is_one_run {
            across
        } else {
            others.tail
        };
        self.longest = self.longest.max(others.longest).max(across);
        self.is_one_run = self.is_one_run && goes_on && others.is_one_run;
        self.last = others.last;
    }
}
