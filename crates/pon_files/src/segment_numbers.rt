//! The numbers of the segments of a recording.

ghost use Rattle.std.specs.Prelude.{◌≤◌};
ghost use Rattle.pon_files.specs.declared.segment_numbers.TheConstants.{MAX_SEGMENT};

/// The greatest number of a segment.
pub(crate) const MAX_SEGMENT: u32 = 999_999;

/// The number of a segment that is being written, and the first number that no segment with a chapter has.
#[derive(Clone, Copy, Debug, PartialEq, Eq)]
pub(crate) struct SegmentNumbers {
    /// The number of the segment.
    pub(crate) present: u32,
    // The first number after those of all segments before it.
    pub(crate) free: u32,
    ghost limit: { present ≤ MAX_SEGMENT },
    ghost above: { free ≤ present },
}

impl SegmentNumbers {
    ghost use Rattle.std.specs.Prelude.{◌≡◌, ◌<◌, ◌≤◌, ◌≢◌, IfNone, IfSome, Some};
    ghost use Rattle.pon_files.specs.SegmentNumbers.{number_after, next_free, next_present};

    // Returns the numbers of a segment. `None` if its number is too great.
    fn of(present: u32, free: u32) -> Option<Self>
        requires above { free ≤ present }
        ensures some { IfSome result (λ n. (n.present ≡ present) × (n.free ≡ free)) }
        ensures none { IfNone result (MAX_SEGMENT < present) }
    {
        if present > MAX_SEGMENT {
            return None;
        }
        Some(SegmentNumbers { present, free })
    }

    /// Returns the numbers of the first segment after those of which this is the greatest number, if there are any. `None`
    /// if that is the last number.
    pub(crate) fn after(greatest: Option<u32>) -> Option<Self>
        ensures some { IfSome result (λ n. (n.present ≡ number_after greatest) × (n.free ≡ number_after greatest)) }
        ensures none { IfNone result (MAX_SEGMENT < number_after greatest) }
    {
        let free = match greatest {
            Some(greatest) if greatest >= MAX_SEGMENT => return None,
            Some(greatest) => greatest + 1,
            None => 0,
        };
        SegmentNumbers::of(free, free)
    }

    /// Returns the numbers of the segment after this one, which has a chapter or will not be kept. Its number is another one,
    /// and the lesser free one if this segment will not be kept. `None` if that is too great.
    pub(crate) fn next(self, has_chapters: bool) -> Option<Self>
        ensures some { IfSome result (λ n. (n.present ≡ next_present self has_chapters)
            × (n.free ≡ next_free self has_chapters)) }
        ensures other { IfSome result (λ n. n.present ≢ self.present) }
        ensures none { IfNone result (MAX_SEGMENT < next_present self has_chapters) }
    {
        if has_chapters {
            return SegmentNumbers::of(self.present + 1, self.present + 1);
        }
        if self.present == self.free {
            return SegmentNumbers::of(self.free + 1, self.free);
        }
        SegmentNumbers::of(self.free, self.free)
    }
}
