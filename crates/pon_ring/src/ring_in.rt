ghost use Rattle.std.specs.Prelude.{◌≡◌};
ghost use Rattle.rtrb.specs.Ring.{sent};
ghost use Rattle.pon_ring.specs.Numbers.{AreBelow, last_number, next_number};

use crate::rising::Rising;
use pon_history::Chapter;
use rtrb::{Finished, Producer, PushError};
use std::alloc::Global;

/// The end of a ring that a worker pushes chapters into. It may move to another thread.
#[derive(Drop)]
pub struct RingIn {
    pub(crate) producer: Producer<Chapter, Global, Rising>,
    pub(crate) last: Option<u64>,
    ghost last_sent: { last ≡ last_number (sent producer) },
    ghost rising: { AreBelow (next_number last) (sent producer) },
}

/// Shows all chapters that were pushed, once no more can be. It owns no memory.
#[derive(Drop)]
pub struct RingEnd {
    pub(crate) finished: Finished<Chapter, Global, Rising>,
}

impl RingIn {
    ghost use Rattle.std.specs.Prelude.{◌≡◌, ◌++◌, ◌∷◌, [], IfErr, IfSome, OnOk};
    ghost use Rattle.pon_ring.specs.Numbers.{ComesAfter};
    ghost use Rattle.pon_ring.specs.Rings.{Finishes, SameIn, sent_chapters};

    /// The number of the chapter that was pushed last; `None` before the first. A chapter of a greater number may be
    /// pushed.
    pub fn last(&self) -> Option<u64>
        ensures value { result ≡ last_number (sent_chapters self.now) }
        ensures above { AreBelow (next_number result) (sent_chapters self.now) }
    {
        self.last
    }

    /// Pushes a chapter. Its number must be above the numbers of all chapters pushed before.
    ///
    /// # Errors
    ///
    /// The chapter itself, if the ring is full.
    pub fn push(&mut self, chapter: Chapter) -> Result<(), Chapter>
        requires { ComesAfter (sent_chapters self.old) chapter }
        ensures ring { SameIn self.old self.new }
        ensures ok { OnOk result (sent_chapters self.new ≡ sent_chapters self.old ++ chapter ∷ []) }
        ensures full { IfErr result (λ back. (back ≡ chapter)
            × (sent_chapters self.new ≡ sent_chapters self.old)) }
    {
        let number = chapter.number();
        match self.producer.push(chapter) {
            Ok(()) => {
                self.last = Some(number);
                Ok(())
            }
            Err(PushError::Full(back)) => Err(back),
        }
    }

    /// Ends the pushing, and shows what was pushed. `None` if the other end was dropped before.
    pub fn finish(self) -> Option<RingEnd>
        ensures { IfSome result (λ end. Finishes self end) }
    {
        let RingIn { producer, last: _ } = self;
        match producer.finish() {
            Some(finished) => Some(RingEnd { finished }),
            None => None,
        }
    }
}
