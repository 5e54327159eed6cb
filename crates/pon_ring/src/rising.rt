ghost use Rattle.pon_ring.specs.Numbers.{ComesAfter};

use pon_history::Chapter;
use rtrb::Protocol;

/// The protocol of the ring: each chapter has a greater number than those before it.
#[derive(Clone, Copy)]
pub struct Rising;

impl Protocol<Chapter> for Rising {
    ghost allows = { λ before chapter. ComesAfter before chapter };
}
