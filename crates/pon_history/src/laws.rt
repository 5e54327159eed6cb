//! Laws of histories, over the definitions alone.

ghost use Rattle.std.specs.Prelude.{Bool, List, [], false, length, true, if◌then◌else◌, None, Some, drop, slice_get, ℕ, ◌++◌, ◌+◌, ◌*◌, ◌/◌, ◌<◌, ◌≡◌, ◌≢◌, ◌≤◌};
ghost use Rattle.pon_descr.specs.declared.refusal.Refusal.{Refusal};
ghost use Rattle.pon_admit.specs.Roster.{IsAdmitted, has_alloc, max_carry};
ghost use Rattle.pon_admit.specs.declared.row.Row.{Row};
ghost use Rattle.pon_state.specs.State.{State};
ghost use Rattle.std.specs.List.{list_any};
ghost use Rattle.pon_units.specs.Frac.{Frac};
ghost use Rattle.pon_units.specs.declared.limits.TheConstants.{WORD_RATE};
ghost use Rattle.pon_guar.specs.Book.{AreRising, alloc_ids, load_of, load_of_counted};
ghost use Rattle.pon_guar.specs.declared.account.Counted.{Counted};
ghost use Rattle.pon_history.specs.Parts.{frame_at_last, next_of};
ghost use Rattle.pon_history.specs.Reports.{counted_of};
ghost use Rattle.pon_state.specs.History.{replay};
ghost use Rattle.pon_state.specs.After.{after_entry};
ghost use Rattle.pon_state.specs.Legal.{MayFollow};
ghost use Rattle.pon_cert.specs.declared.cert.MapCert.{MapCert};
ghost use Rattle.pon_demand.specs.Input.{Input};
ghost use Rattle.pon_demand.specs.Sharing.{IsCertified, surplus_rate};
ghost use Rattle.pon_demand.specs.Maps.{map_of};
ghost use Rattle.pon_demand.specs.Rates.{guaranteed_rate, payload, whole_rate};
ghost use Rattle.pon_burst.specs.Bursts.{AreSound};
ghost use Rattle.pon_history.specs.ClosedForm.{closed_form};
ghost use Rattle.pon_history.specs.Chapters.{Chapter, IsLawfulChapter, IsLawfulOpening, IsLegal, cut_at, present_state, state_before};
ghost use Rattle.pon_history.specs.CountedReports.{Counts, IsReport};
ghost use Rattle.pon_history.specs.FairMaps.{TellsFairMap};
ghost use Rattle.pon_history.specs.LastEntries.{before_last};
ghost use Rattle.pon_history.specs.WordRuns.{RunsAreWhole};
ghost use Rattle.pon_history.specs.Taking.{Takes, refusal_of, with_entry};
ghost use Rattle.pon_admit.specs.declared.event.Event.{Event};
ghost use Rattle.pon_state.specs.Entry.{Entry};
ghost use Rattle.pon_state.specs.declared.reply.Reply.{Reply};

/// A history may be split anywhere: the second part, opened with the replay of the first, has the same replay as the
/// whole, and is legal as the next chapter if the whole is legal.
pub fn cutting()
    ensures state { (o : State) (xs ys : List Entry)
        → replay o (xs ++ ys) ≡ replay (replay o xs) ys }
    ensures rest { (n : ℕ) (o : State) (xs ys : List Entry) →
        IsLegal (record { number = n; opening = o; entries = xs ++ ys }) →
        IsLegal (record { number = n + 1; opening = replay o xs; entries = ys }) }
{}

/// Before each entry of a lawful chapter and after the last, the roster is an admitted set.
pub fn lawful_chapters_hold_admitted_sets()
    ensures before { (c : Chapter) → IsLawfulChapter c → (k : ℕ)
        → IsAdmitted (state_before c k).rule (state_before c k).gap (state_before c k).roster }
    ensures present { (c : Chapter) → IsLawfulChapter c
        → IsAdmitted (present_state c).rule (present_state c).gap (present_state c).roster }
{}

/// The map of an admitted set has sound bursts under each accepted certificate and carries in range, for each rule, any
/// burst profile and any number of ONUs and Alloc-IDs: each burst is within the frame and no two overlap.
pub fn maps_of_admitted_sets_are_sound()
    ensures { (s : Input) (cert : MapCert) (carry : Row → ℕ) (profile : ℕ) →
        IsAdmitted s.rule s.gap s.roster → IsCertified s cert →
        ((r : Row) → carry r ≤ max_carry s.rule) →
        AreSound s.gap (map_of profile s (surplus_rate s cert) carry) }
{}

/// Each map of a lawful chapter is fair for the state before it: certified, the fairest, in whole words, and without
/// overlap.
pub fn maps_of_lawful_chapters_are_fair()
    ensures { (c : Chapter) → IsLawfulChapter c → (k : ℕ) (e : Entry)
        → slice_get c.entries k ≡ Some e → TellsFairMap (state_before c k) e.reply }
{}

/// Under the rule that carries what whole words leave, an Alloc-ID is granted the whole part of the sum of its rates over
/// each run of maps from its admission on; over a run from the opening on, of the opening's carry and these rates.
pub fn words_over_runs_are_whole_parts()
    ensures { (c : Chapter) → IsLawfulChapter c → RunsAreWhole c }
{}

/// The state before any entry of a lawful chapter, and the state after the last, may open a later chapter.
pub fn lawful_chapters_open_later_ones()
    ensures before { (c : Chapter) → IsLawfulChapter c → (n k : ℕ) → 0 < n
        → IsLawfulOpening n (state_before c k) }
    ensures present { (c : Chapter) → IsLawfulChapter c → (n : ℕ) → 0 < n
        → IsLawfulOpening n (present_state c) }
{}

/// A lawful chapter that is split anywhere gives two lawful chapters: the first entries under its own number and
/// opening, and the remaining entries under a later number, opened with the state after the first ones. The second has
/// the same end as the whole.
pub fn cuts_of_lawful_chapters_are_lawful()
    ensures front { (c : Chapter) → IsLawfulChapter c → (k : ℕ) → IsLawfulChapter (cut_at c k) }
    ensures rest { (c : Chapter) → IsLawfulChapter c → (k n : ℕ) → 0 < n →
        IsLawfulChapter (record {
          number = n;
          opening = state_before c k;
          entries = drop k c.entries;
        }) }
    ensures same_end { (c : Chapter) → IsLawfulChapter c → (k n : ℕ) →
        present_state (record {
          number = n;
          opening = state_before c k;
          entries = drop k c.entries;
        }) ≡ present_state c }
{}

/// A lawful chapter has at most one reply to an event, so one certificate for a map, and is lawful with that entry.
pub fn lawful_chapters_give_one_reply()
    ensures one { (c d e : Chapter) → IsLawfulChapter c → (v : Event) (a b : Reply) → Takes c v a d
        → Takes c v b e → (a ≡ b) × (d ≡ e) }
    ensures lawful { (c d : Chapter) → IsLawfulChapter c → (v : Event) (a : Reply) → Takes c v a d
        → IsLawfulChapter d }
{}

/// The state after a history of one more entry is the state after that entry.
pub fn replay_goes_entry_by_entry()
    ensures { (c : Chapter) (e : Entry)
        → present_state (with_entry c e.event e.reply) ≡ after_entry (present_state c) e }
{}

/// The replay of a lawful chapter, which goes entry by entry, is its closed form: each part of the state is the function of
/// the opening and of all entries that defines it.
pub fn replays_have_a_closed_form()
    ensures { (c : Chapter) → IsLawfulChapter c → present_state c ≡ closed_form c.opening c.entries }
{}

/// Legality goes entry by entry: no entries are legal, and a chapter with one more entry is legal exactly when the
/// chapter is and the entry may follow in the state after it.
pub fn legality_goes_entry_by_entry()
    ensures none { (n : ℕ) (s : State)
        → IsLegal (record { number = n; opening = s; entries = [] }) }
    ensures one_more { (c : Chapter) (e : Entry) → IsLegal c
        → MayFollow (length c.entries) (present_state c) e
        → IsLegal (with_entry c e.event e.reply) }
    ensures one_less { (c : Chapter) (e : Entry) → IsLegal (with_entry c e.event e.reply)
        → IsLegal c × MayFollow (length c.entries) (present_state c) e }
{}

/// The load of an Alloc-ID depends on one report: an accepted one of a frame not below the since-frame, its words less
/// what was granted from that frame on, and no later one is accepted. If none counts, none is accepted.
pub fn the_last_accepted_report_counts()
    ensures some { (o : State) (es : List Entry) (i : ℕ) (c : Counted) → counted_of o es i ≡ Some c
        → Counts o es i c }
    ensures none { (o : State) (es : List Entry) (i : ℕ) → counted_of o es i ≡ None
        → (c : Counted) → IsReport o es i c → ⊥ }
{}

/// The load of an admitted Alloc-ID in the present state is of the report that counts in the history: 256 kbit/s for each
/// of its words that was not granted since. An Alloc-ID that is not admitted has no load. The accounts are in ascending
/// Alloc-ID.
pub fn loads_are_of_counted_reports()
    ensures admitted { (c : Chapter) → IsLawfulChapter c → (i : ℕ)
        → has_alloc i (present_state c).roster ≡ true
        → load_of (present_state c).book i ≡ load_of_counted (counted_of c.opening c.entries i) }
    ensures others { (c : Chapter) → IsLawfulChapter c → (i : ℕ)
        → has_alloc i (present_state c).roster ≡ false → load_of (present_state c).book i ≡ 0 }
    ensures rising { (c : Chapter) → IsLawfulChapter c → AreRising (alloc_ids (present_state c).book) }
{}

/// Guaranteed and surplus rate are made whole once in kbit/s and once in words, and both are one whole part: the words of
/// an Alloc-ID are the whole part of the exact sum of its carry and its rates.
pub fn words_are_one_whole_part()
    ensures kbits { (s : Input) (surplus : Row → Frac) (r : Row) → 0 < (surplus r).den
        → whole_rate s surplus r
        ≡ (guaranteed_rate s r * (surplus r).den + (surplus r).num) / (surplus r).den }
    ensures words { (s : Input) (surplus : Row → Frac) (carry : Row → ℕ) (r : Row)
        → 0 < (surplus r).den → payload s surplus carry r
        ≡ ((carry r + guaranteed_rate s r) * (surplus r).den + (surplus r).num)
        / ((surplus r).den * WORD_RATE) }
{}

/// The frame at the last entry of a kind is the next frame after the entries before it.
pub fn frames_of_last_entries()
    ensures { (test : Entry → Bool) (start first : ℕ) (es : List Entry)
        → frame_at_last test start first es
        ≡ (if list_any test es then next_of first (before_last test es) else start) }
{}

/// No check refuses an event as `OutOfMemory`: `Port::take` returns it only if no check refuses and memory is refused.
pub fn no_check_is_out_of_memory()
    ensures { (c : Chapter) (v : Event) → refusal_of c v ≢ Some Refusal.OutOfMemory }
{}
