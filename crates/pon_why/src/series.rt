//! What the maps give an Alloc-ID along the frames, in steps of equally many frames.

use crate::followed::FollowedMap;
use crate::sums::Sums;
use std::alloc::{AllocError, Global};

// The greatest number of steps of a series.
const MAX_STEPS: usize = 60;

/// The sums of an Alloc-ID in at most 60 steps of equally many frames, from the first frame that is added.
#[derive(Debug, Drop)]
pub struct Series {
    steps: Vec<Sums>,
    first: Option<u64>,
    last: u64,
    frames: u64,
}

// Joins each two sums. `Err` if memory is refused or a sum is 2^64 or more.
fn joined(alloc: Global, steps: &[Sums]) -> Result<Vec<Sums>, AllocError> {
    let mut joined = Vec::new(alloc);
    for pair in steps.chunks(2) {
        let mut sums = Sums::NONE;
        for step in pair {
            if !sums.add(step) {
                return Err(AllocError);
            }
        }
        joined.push(sums)?;
    }
    Ok(joined)
}

impl Series {
    /// Makes the series of no maps.
    pub fn new(alloc: Global) -> Series {
        Series {
            steps: Vec::new(alloc),
            first: None,
            last: 0,
            frames: 1,
        }
    }

    /// The steps. One without a map has the sums of none.
    pub fn steps(&self) -> &[Sums] {
        self.steps.as_slice()
    }

    /// The first and the last frame of a map; `None` without a map.
    pub fn range(&self) -> Option<(u64, u64)> {
        Some((self.first?, self.last))
    }

    /// The number of frames of a step.
    pub fn frames(&self) -> u64 {
        self.frames
    }

    /// The first frame of a step, counted from 0.
    pub fn first_of(&self, step: usize) -> u64 {
        let first = self.first.unwrap_or(0);
        first.saturating_add(self.frames.saturating_mul(step as u64))
    }

    // Joins each two steps, so that a step has twice as many frames.
    fn join_steps(&mut self) -> Result<(), AllocError> {
        self.steps = joined(*self.steps.allocator(), &self.steps)?;
        self.frames = self.frames.saturating_mul(2);
        Ok(())
    }

    // Returns the step of a frame, after steps are joined until there is one for it.
    fn step_of(&mut self, frame: u64) -> Result<usize, AllocError> {
        let first = self.first.unwrap_or(frame);
        self.first = Some(first);
        for _doubling in 0..u64::BITS {
            let step = frame.saturating_sub(first) / self.frames.max(1);
            if step < MAX_STEPS as u64 {
                return Ok(step as usize);
            }
            self.join_steps()?;
        }
        Err(AllocError)
    }

    // Adds a map. `Err` if memory is refused or a sum is 2^64 or more.
    fn add_map(&mut self, map: &FollowedMap) -> Result<(), AllocError> {
        let frame = map.frame.get();
        let step = self.step_of(frame)?;
        for _missing in self.steps.len()..=step {
            self.steps.push(Sums::NONE)?;
        }
        if let Some(sums) = self.steps.get_mut(step) {
            if !sums.add(&map.sums) {
                return Err(AllocError);
            }
        }
        self.last = self.last.max(frame);
        Ok(())
    }

    /// Adds maps, in their order.
    ///
    /// # Errors
    ///
    /// `AllocError` if memory is refused or a sum is 2^64 or more.
    pub fn add_maps(&mut self, maps: &[FollowedMap]) -> Result<(), AllocError> {
        for map in maps {
            self.add_map(map)?;
        }
        Ok(())
    }
}
