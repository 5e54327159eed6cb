//! Chapters that a recording does not have.

ghost use Rattle.std.specs.Prelude.{◌≡◌, ◌≤◌, MatchOption};
ghost use Rattle.pon_look.specs.Gaps.{IsGapBefore, next_number};

use pon_record::RawChapter;
use pon_units::{MAX_PORTS, PortNo};
use std::alloc::{AllocError, Global};

/// Chapters of a port that a recording does not have, before one that it has.
#[derive(Clone, Copy, Debug, PartialEq, Eq)]
pub struct Gap {
    /// The port, 0 to 63.
    pub port: PortNo,
    /// The number of the first chapter that is missing.
    pub first: u64,
    /// The number of the last chapter that is missing.
    pub last: u64,
}

/// Returns the chapters that are missing before the chapter of a number, after the last one of its port; `None` if none
/// is, or the number does not ascend.
pub fn gap_before(port: PortNo, last: Option<u64>, number: u64) -> Option<Gap>
    ensures { MatchOption result (number ≤ next_number last) (IsGapBefore port last number) }
{
    let first = match last {
        Some(last) if last >= number => return None,
        Some(last) => last + 1,
        None => 0,
    };
    if number <= first {
        return None;
    }
    let last = number - 1;
    Some(Gap { port, first, last })
}

/// The gaps in the chapters so far, in their order.
#[derive(Drop)]
pub(crate) struct Gaps {
    // The number of the last chapter of each port, if there was one.
    last: Vec<Option<u64>>,
    gaps: Vec<Gap>,
}

impl Gaps {
    /// Before the first chapter. `Err` only if memory is refused.
    pub(crate) fn new(alloc: Global) -> Result<Gaps, AllocError> {
        let mut last = Vec::new(alloc);
        for _port in 0..MAX_PORTS {
            last.push(None)?;
        }
        let gaps = Vec::new(alloc);
        Ok(Gaps { last, gaps })
    }

    /// Notes the next chapter. `Err` only if memory is refused.
    pub(crate) fn note(&mut self, chapter: &RawChapter) -> Result<(), AllocError> {
        let Some(last) = self.last.get_mut(usize::from(chapter.port.get())) else {
            return Ok(());
        };
        if let Some(gap) = gap_before(chapter.port, *last, chapter.number) {
            self.gaps.push(gap)?;
        }
        *last = Some(chapter.number);
        Ok(())
    }

    /// The gaps.
    pub(crate) fn as_slice(&self) -> &[Gap]
        ensures { result.now ≡ self.now.gaps.items }
    {
        self.gaps.as_slice()
    }

    /// Returns whether the port of a number has a chapter.
    pub(crate) fn has_port(&self, port: usize) -> bool {
        match self.last.get(port) {
            Some(last) => last.is_some(),
            None => false,
        }
    }
}
