//! A law of histories, over the definitions alone. It rests on the filling of a class, which finds a certificate.

ghost use Rattle.std.specs.Prelude.{None, length, ◌≡◌};
ghost use Rattle.pon_state.specs.Events.{IsEvent};
ghost use Rattle.pon_state.specs.Legal.{MayFollow};
ghost use Rattle.pon_history.specs.Chapters.{Chapter, IsLawfulChapter, present_state};
ghost use Rattle.pon_history.specs.Taking.{Takes, refusal_of};
ghost use Rattle.pon_admit.specs.declared.event.Event.{Event};
ghost use Rattle.pon_state.specs.declared.reply.Reply.{Reply};

/// A lawful chapter has a reply to each event whose numbers are in range and that no check refuses, and a next chapter
/// with that entry: for a map there is always a certificate.
pub fn each_accepted_event_has_a_reply()
    ensures reply { (c : Chapter) (v : Event) → IsLawfulChapter c → IsEvent v
        → refusal_of c v ≡ None
        → (reply : Reply) × MayFollow (length c.entries) (present_state c)
        (record { event = v; reply = reply }) }
    ensures next { (c : Chapter) (v : Event) → IsLawfulChapter c → IsEvent v → refusal_of c v ≡ None
        → (reply : Reply) × (next : Chapter) × Takes c v reply next }
{}
