use crate::ring_in::{RingEnd, RingIn};
use crate::rising::Rising;
use pon_history::Chapter;
use rtrb::Consumer;
use std::alloc::Global;

/// The end of a ring that the recorder pops chapters from. It may move to another thread.
#[derive(Drop)]
pub struct RingOut {
    pub(crate) consumer: Consumer<Chapter, Global, Rising>,
}

impl RingOut {
    ghost use Rattle.std.specs.Prelude.{◌≡◌, ◌<◌, ◌++◌, ◌∷◌, [], IfNone, IfSome, IsSome, length, option_to_list};
    ghost use mathlib.Core.List.{IsPrefix};
    ghost use Rattle.pon_ring.specs.Numbers.{ComesAfter};
    ghost use Rattle.pon_ring.specs.Rings.{AreEnds, IsEndOf, SameIn, SameOut, all_chapters, known_chapters, received_chapters, sent_chapters};

    /// Pops the oldest chapter, or returns `None` if the ring is empty. Its number is above those of all chapters popped
    /// before.
    pub fn pop(&mut self) -> Option<Chapter>
        ensures ring { SameOut self.old self.new }
        ensures popped { received_chapters self.new
            ≡ received_chapters self.old ++ option_to_list result }
        ensures some { IfSome result (λ chapter.
            IsPrefix (known_chapters self.old) (chapter ∷ known_chapters self.new)
            × ComesAfter (received_chapters self.old) chapter) }
        ensures none { IfNone result (known_chapters self.new ≡ []) }
        ensures known { 0 < length (known_chapters self.old) → IsSome result }
    {
        match self.consumer.pop() {
            Ok(chapter) => Some(chapter),
            Err(_) => None,
        }
    }

    /// The number of chapters in the ring, in a thread that has both ends: those that were received and those in the ring
    /// are exactly those that were sent, in order.
    pub fn slots_beside(&mut self, ring: &mut RingIn) -> usize
        requires { AreEnds ring.old self.old }
        ensures ends { AreEnds ring.new self.new }
        ensures same { SameIn ring.old ring.new × (sent_chapters ring.new ≡ sent_chapters ring.old) }
        ensures received { SameOut self.old self.new
            × (received_chapters self.new ≡ received_chapters self.old) }
        ensures value { result ≡ length (known_chapters self.new) }
        ensures fifo { received_chapters self.new ++ known_chapters self.new
            ≡ sent_chapters ring.new }
    {
        self.consumer.slots_beside(&mut ring.producer)
    }

    /// Pops the oldest chapter, in a thread that has both ends. Returns `None` only if all chapters that were sent are
    /// received.
    pub fn pop_beside(&mut self, ring: &mut RingIn) -> Option<Chapter>
        requires { AreEnds ring.old self.old }
        ensures ends { AreEnds ring.new self.new }
        ensures same { SameIn ring.old ring.new × (sent_chapters ring.new ≡ sent_chapters ring.old) }
        ensures ring { SameOut self.old self.new }
        ensures popped { received_chapters self.new
            ≡ received_chapters self.old ++ option_to_list result }
        ensures fifo { received_chapters self.new ++ known_chapters self.new
            ≡ sent_chapters ring.new }
        ensures all { IfNone result (received_chapters self.new ≡ sent_chapters ring.new) }
    {
        let waiting = self.slots_beside(ring);
        if waiting == 0 {
            return None;
        }
        Some(self.consumer.pop_known())
    }

    /// The number of chapters in the ring, after its worker has ended the pushing: those that were received and those in
    /// the ring are exactly those that were ever sent, in order.
    pub fn slots_after(&mut self, end: &mut RingEnd) -> usize
        requires { IsEndOf end.old self.old }
        ensures end { IsEndOf end.new self.new × (all_chapters end.new ≡ all_chapters end.old) }
        ensures received { SameOut self.old self.new
            × (received_chapters self.new ≡ received_chapters self.old) }
        ensures value { result ≡ length (known_chapters self.new) }
        ensures fifo { received_chapters self.new ++ known_chapters self.new
            ≡ all_chapters end.old }
    {
        self.consumer.slots_after(&mut end.finished)
    }
}
