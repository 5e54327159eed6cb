ghost use Rattle.std.specs.Prelude.{◌≡◌, [], IfOk};
ghost use Rattle.pon_ring.specs.Rings.{AreEnds, known_chapters, received_chapters, sent_chapters};

use crate::ring_in::RingIn;
use crate::ring_out::RingOut;
use crate::rising::Rising;
use pon_history::Chapter;
use rtrb::RingBuffer;
use std::alloc::{AllocError, Global};

/// Makes a ring with room for one chapter.
///
/// # Errors
///
/// `AllocError` only if memory is refused.
pub fn ring(alloc: Global) -> Result<(RingIn, RingOut), AllocError>
    ensures ends { IfOk result (λ r. AreEnds r.0 r.1) }
    ensures sent { IfOk result (λ r. sent_chapters r.0 ≡ []) }
    ensures received { IfOk result (λ r. (received_chapters r.1 ≡ []) × (known_chapters r.1 ≡ [])) }
{
    let (producer, consumer) = RingBuffer::<Chapter>::with_protocol::<Global, Rising>(alloc, 1)?;
    let last = None;
    Ok((RingIn { producer, last }, RingOut { consumer }))
}
