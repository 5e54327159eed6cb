ghost use Rattle.std.specs.Prelude.{◌≡◌, ℕ, ◌+◌, ◌<◌, ◌≤◌, ◌==◌, if◌then◌else◌, List, [], length, slice_index_or, take, Some, None};
ghost use Rattle.std.specs.Option.{option_eq};
ghost use Rattle.pon_units.specs.declared.Granted.{Granted};
ghost use Rattle.pon_units.specs.Granted.{AreInMapOrder};
ghost use Rattle.pon_burst.specs.Layout.{IsAfter};
ghost use Rattle.pon_burst.specs.Maps.{structure_of};

use pon_bwmap::Alloc;
use pon_units::{FRAME_WORDS, Gap, Granted, OnuId, Profile};

// Where the next burst may start, and the ONU of the grant before.
#[derive(Drop)]
pub(crate) struct Layout {
    end: u16,
    last: Option<OnuId>,
}

impl Layout {
    // The layout before any grant.
    pub(crate) fn new(gap: Gap) -> Self
        ensures { IsAfter gap [] result }
    {
        Layout {
            end: gap.get(),
            last: None,
        }
    }

    // Begins a burst, unless the grant before is of the same ONU. Returns the start of the burst.
    #[inline]
    fn begin(&mut self, gap: Gap, onu: OnuId) -> Option<u16>
        requires { self.old.end ≤ gap + FRAME_WORDS }
        ensures start { result
            ≡ (if option_eq (λ a b. a == b) self.old.last (Some onu) then None else Some self.old.end) }
        ensures end { self.new.end
            ≡ self.old.end + (if option_eq (λ a b. a == b) self.old.last (Some onu) then 0 else gap + 2) }
        ensures last { self.new.last ≡ Some onu }
    {
        if self.last == Some(onu) {
            return None;
        }
        let start = self.end;
        self.end += gap.get() + 2;
        self.last = Some(onu);
        Some(start)
    }

    // Returns the structure of the next grant of a map; the layout is then the one after this grant.
    #[inline]
    pub(crate) fn structure(&mut self, gap: Gap, profile: Profile, granted: &Granted) -> Alloc
        requires { self.old.end ≤ gap + FRAME_WORDS }
        ensures { (grants : List Granted) (k : ℕ) → AreInMapOrder grants → k < length grants
            → granted.now ≡ slice_index_or grants k granted.now → IsAfter gap (take k grants) self.old
            → (result ≡ structure_of gap profile grants granted.now)
            × IsAfter gap (take (k + 1) grants) self.new }
    {
        let start = self.begin(gap, granted.onu);
        let grant = 1 + granted.words.get();
        self.end += grant;
        Alloc::polled(granted.alloc_id.get(), start, grant, profile.get())
    }
}
