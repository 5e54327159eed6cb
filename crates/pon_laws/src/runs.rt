//! Consecutive maps of a lawful chapter, under the rule that carries what whole words leave.

ghost use Rattle.std.specs.Prelude.{Some, true, ℕ, ◌≡◌, ◌+◌, ◌*◌, ◌/◌, ◌<◌, ◌≤◌};
ghost use Rattle.pon_units.specs.declared.limits.TheConstants.{WORD_RATE};
ghost use Rattle.pon_descr.specs.declared.class.Class.{Class};
ghost use Rattle.pon_descr.specs.Descriptor.{Descriptor, promised};
ghost use Rattle.pon_admit.specs.declared.rule.Rule.{Rule};
ghost use Rattle.pon_admit.specs.Roster.{has_alloc};
ghost use Rattle.pon_guar.specs.Book.{load_of};
ghost use Rattle.pon_demand.specs.Carries.{number_of};
ghost use Rattle.pon_history.specs.Chapters.{Chapter, IsLawfulChapter};
ghost use Rattle.pon_sure.specs.Sure.{longest_wait, maps_for_a_word};
ghost use Rattle.pon_laws.specs.Exact.{IsAtLeast, IsBelow, exact_over};
ghost use Rattle.pon_laws.specs.Runs.{BeforeEach, BeforeMaps, IsShortOfAWord, descriptor_of, guaranteed_of, maps_over, rates_over, run_of, words_over};

/// An Alloc-ID that keeps its descriptor over a run, and whose load is at least its fixed and assured rate together before
/// each map, is granted at least the whole words of that rate times the number of maps; at any load, of its fixed rate.
pub fn sold_rates_are_granted()
    ensures sold { (c : Chapter) → IsLawfulChapter c → c.opening.rule ≡ Rule.CarryRemainders
        → (from count i : ℕ) (d : Descriptor)
        → BeforeEach (λ s. descriptor_of s.roster i ≡ Some d) (run_of c from count)
        → BeforeMaps (λ s. promised d ≤ load_of s.book i) (run_of c from count)
        → (maps_over (run_of c from count) * promised d) / WORD_RATE ≤ words_over (run_of c from count) i }
    ensures fixed { (c : Chapter) → IsLawfulChapter c → c.opening.rule ≡ Rule.CarryRemainders
        → (from count i : ℕ) (d : Descriptor)
        → BeforeEach (λ s. descriptor_of s.roster i ≡ Some d) (run_of c from count)
        → (maps_over (run_of c from count) * d.fixed) / WORD_RATE ≤ words_over (run_of c from count) i }
{}

/// Without a class, and with a load of at least its fixed and assured rate together before each map, it is granted exactly
/// the whole words of its carry and of that rate times the number of maps.
pub fn sold_rates_alone_are_granted_exactly()
    ensures { (c : Chapter) → IsLawfulChapter c → c.opening.rule ≡ Rule.CarryRemainders
        → (from count i : ℕ) (d : Descriptor) → d.class ≡ Class.Plain
        → BeforeEach (λ s. descriptor_of s.roster i ≡ Some d) (run_of c from count)
        → BeforeMaps (λ s. promised d ≤ load_of s.book i) (run_of c from count)
        → words_over (run_of c from count) i
        ≡ (number_of (run_of c from count).opening.roster (run_of c from count).opening.carries i
        + maps_over (run_of c from count) * promised d) / WORD_RATE }
{}

/// With a guaranteed rate above 0 in each map of a run, and 256 / rate maps, rounded up, the run grants at least one word.
pub fn no_wait_is_longer_than_a_word()
    ensures maps { (c : Chapter) → IsLawfulChapter c → c.opening.rule ≡ Rule.CarryRemainders
        → (from count i rate : ℕ)
        → BeforeEach (λ s. has_alloc i s.roster ≡ true) (run_of c from count)
        → BeforeMaps (λ s. rate ≤ guaranteed_of s i) (run_of c from count)
        → 0 < rate → maps_for_a_word rate ≤ maps_over (run_of c from count)
        → 0 < words_over (run_of c from count) i }
    ensures rates { (c : Chapter) → IsLawfulChapter c → c.opening.rule ≡ Rule.CarryRemainders
        → (from count i rate : ℕ)
        → BeforeEach (λ s. has_alloc i s.roster ≡ true) (run_of c from count)
        → BeforeMaps (λ s. rate ≤ guaranteed_of s i) (run_of c from count)
        → WORD_RATE ≤ maps_over (run_of c from count) * rate
        → 0 < words_over (run_of c from count) i }
{}

/// The longest wait that `sure_of` of `pon_sure` gives holds for an Alloc-ID that keeps its descriptor over a run, and whose
/// load is at least its fixed and assured rate together before each map.
pub fn a_sure_wait_holds()
    ensures { (c : Chapter) → IsLawfulChapter c → c.opening.rule ≡ Rule.CarryRemainders
        → (from count i n : ℕ) (d : Descriptor)
        → BeforeEach (λ s. descriptor_of s.roster i ≡ Some d) (run_of c from count)
        → BeforeMaps (λ s. promised d ≤ load_of s.book i) (run_of c from count)
        → longest_wait (promised d) ≡ Some n → n ≤ maps_over (run_of c from count)
        → 0 < words_over (run_of c from count) i }
{}

/// Over a run the words of an Alloc-ID are the whole part of its carry and its rates together, so they differ from its
/// rates by less than a word.
pub fn rounding_is_less_than_a_word()
    ensures whole { (c : Chapter) → IsLawfulChapter c → c.opening.rule ≡ Rule.CarryRemainders
        → (from count i : ℕ)
        → BeforeEach (λ s. has_alloc i s.roster ≡ true) (run_of c from count)
        → words_over (run_of c from count) i
        ≡ (number_of (run_of c from count).opening.roster (run_of c from count).opening.carries i
        + rates_over (run_of c from count) i) / WORD_RATE }
    ensures below { (c : Chapter) → IsLawfulChapter c → c.opening.rule ≡ Rule.CarryRemainders
        → (from count i : ℕ)
        → BeforeEach (λ s. has_alloc i s.roster ≡ true) (run_of c from count)
        → rates_over (run_of c from count) i
        < words_over (run_of c from count) i * WORD_RATE + WORD_RATE }
    ensures above { (c : Chapter) → IsLawfulChapter c → c.opening.rule ≡ Rule.CarryRemainders
        → (from count i : ℕ)
        → BeforeEach (λ s. has_alloc i s.roster ≡ true) (run_of c from count)
        → words_over (run_of c from count) i * WORD_RATE
        < rates_over (run_of c from count) i + WORD_RATE }
{}

/// Fractions of a kbit/s included, the rates of the maps of a run are at most 255 kbit/s below its words at 256 kbit/s a
/// word, and above them by less than 255 kbit/s and 1 kbit/s for each map. The sum of the rates is a fraction.
pub fn fractions_lose_less_than_a_kbit_a_map()
    ensures fraction { (c : Chapter) → IsLawfulChapter c → c.opening.rule ≡ Rule.CarryRemainders
        → (from count i : ℕ) → 0 < (exact_over (run_of c from count) i).den }
    ensures below { (c : Chapter) → IsLawfulChapter c → c.opening.rule ≡ Rule.CarryRemainders
        → (from count i : ℕ)
        → BeforeEach (λ s. has_alloc i s.roster ≡ true) (run_of c from count)
        → 0 < maps_over (run_of c from count)
        → IsBelow (exact_over (run_of c from count) i)
        (words_over (run_of c from count) i * WORD_RATE + 255 + maps_over (run_of c from count)) }
    ensures above { (c : Chapter) → IsLawfulChapter c → c.opening.rule ≡ Rule.CarryRemainders
        → (from count i : ℕ)
        → BeforeEach (λ s. has_alloc i s.roster ≡ true) (run_of c from count)
        → IsAtLeast (exact_over (run_of c from count) i)
        (words_over (run_of c from count) i * WORD_RATE) 255 }
{}

/// These bounds are exact: there is a run of one map over which an Alloc-ID with a fixed rate of 255 kbit/s gets no word.
pub fn bounds_of_runs_are_exact()
    ensures { (c : Chapter) × (from i : ℕ) × (d : Descriptor) × IsShortOfAWord c from i d }
{}
