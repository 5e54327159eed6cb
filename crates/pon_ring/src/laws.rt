//! Laws of sinks, over the definitions alone.

ghost use Rattle.pon_ring.specs.Passing.{LosesNone};

/// Of the chapters that are passed to a sink over a ring, those that are not dropped follow in order those passed
/// before; each of the others is counted, as long as the count is below 2^64 - 1.
pub fn no_chapter_is_lost_without_a_count()
    ensures { LosesNone }
{}
