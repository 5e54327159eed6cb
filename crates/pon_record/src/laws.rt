//! Laws on the format of recordings, and on what is written and read again.

ghost use Rattle.std.specs.Prelude.{◌≡◌, ◌≢◌, ◌<◌, ◌^◌, ◌++◌, All, Bool, ℕ, List, Some};
ghost use Rattle.std.specs.List.{AllByRecursion};
ghost use Rattle.pon_lists.specs.Bytes.{AreBytes};
ghost use Rattle.pon_units.specs.declared.limits.TheConstants.{MAX_PORTS};
ghost use Rattle.pon_admit.specs.declared.rule.Rule.{Rule};
ghost use Rattle.pon_state.specs.Ranges.{IsStateInRange};
ghost use Rattle.pon_history.specs.Chapters.{Chapter, IsLawfulChapter};
ghost use Rattle.pon_record.specs.declared.limits.TheConstants.{CHAPTER_TAG, MAGIC_BYTES};
ghost use Rattle.pon_record.specs.declared.fault.ReadFault.{ReadFault};
ghost use Rattle.pon_record.specs.declared.version.Version.{Version};
ghost use Rattle.pon_record.specs.Bodies.{IsOfPort, chapter_body};
ghost use Rattle.pon_record.specs.Openings.{KeepsLimits};
ghost use Rattle.pon_record.specs.Chapters.{Body, FitsChapter, PlacedChapter, chapter_bytes, placed, tagged_body_in};
ghost use Rattle.pon_record.specs.Recordings.{IsBadFormatOf, IsRead, IsReadFault, IsReadFaultOf, IsRecording, IsRecordingIn, IsRecordingOf, IsTruncatedOf, recording_bytes};

/// A chapter is read back from its bytes in its version, whatever bytes follow. Bytes that are read as a chapter are
/// exactly the bytes of that chapter, so it has no second encoding in its version.
pub fn chapters_are_read_as_written()
    ensures again { (v : Version) (b : Body) (rest : List ℕ) → FitsChapter v b →
        (tagged_body_in v).read (chapter_bytes v b ++ rest) ≡ Some ((CHAPTER_TAG, b), rest) }
    ensures takes { (v : Version) (bytes : List ℕ) (b : Body) (rest : List ℕ) → AreBytes bytes →
        (tagged_body_in v).read bytes ≡ Some ((CHAPTER_TAG, b), rest) →
        FitsChapter v b × (bytes ≡ chapter_bytes v b ++ rest) }
{}

/// The bytes of chapters that fit a version are the recording of these chapters in it.
pub fn written_is_a_recording()
    ensures { (v : Version) (bodies : List Body) → AllByRecursion (FitsChapter v) bodies →
        IsRecordingIn v (recording_bytes v bodies) (placed v MAGIC_BYTES bodies) }
{}

/// Bytes are the recording of at most one list of chapters, whichever versions are accepted, and in at most one version.
pub fn recordings_have_one_reading()
    ensures chapters { (versions : Version → Bool) (bytes : List ℕ) (chapters others : List PlacedChapter) →
        IsRecordingOf versions bytes chapters → IsRecordingOf versions bytes others →
        chapters ≡ others }
    ensures version { (v w : Version) (bytes : List ℕ) (chapters others : List PlacedChapter) →
        IsRecordingIn v bytes chapters → IsRecordingIn w bytes others → v ≡ w }
{}

/// A recording is neither truncated nor of bad format.
pub fn recordings_have_no_fault()
    ensures truncated { (versions : Version → Bool) (bytes : List ℕ)
        (chapters whole : List PlacedChapter) (at : ℕ) → IsRecordingOf versions bytes chapters →
        IsTruncatedOf versions bytes at whole → ⊥ }
    ensures bad_format { (versions : Version → Bool) (bytes : List ℕ)
        (chapters : List PlacedChapter) (at : ℕ) → IsRecordingOf versions bytes chapters →
        IsBadFormatOf versions bytes at → ⊥ }
{}

/// Apart from `Memory`, bytes have at most one fault.
pub fn one_fault()
    ensures { (versions : Version → Bool) (bytes : List ℕ) (fault other : ReadFault) →
        IsReadFaultOf versions bytes fault → IsReadFaultOf versions bytes other →
        fault ≢ ReadFault.Memory → other ≢ ReadFault.Memory → fault ≡ other }
{}

/// A chapter of either version has at most as many rows and grants as its rule admits Alloc-IDs, and its carries are in the
/// range of the rule.
pub fn chapters_keep_the_limits_of_their_rule()
    ensures { (v : Version) (b : Body) → FitsChapter v b → KeepsLimits b.opening }
{}

/// A chapter that fits version one is under rule one, has carries of 0, and fits version two.
pub fn version_one_fits_version_two()
    ensures rule { (b : Body) → FitsChapter Version.One b → b.opening.rule ≡ Rule.DropRemainders }
    ensures carries { (b : Body) → FitsChapter Version.One b →
        All (λ r. r.carry ≡ 0) b.opening.rows }
    ensures fits { (b : Body) → FitsChapter Version.One b → FitsChapter Version.Two b }
{}

/// A lawful chapter of a port, from an opening in range, fits version two of the format: each field is in its range, and
/// the body is shorter than 2^32 bytes.
pub fn chapters_fit_the_format()
    ensures { (port : ℕ) (c : Chapter) → port < MAX_PORTS → IsLawfulChapter c
        → c.number < 2 ^ 64 → IsStateInRange c.opening → FitsChapter Version.Two (chapter_body port c) }
{}

/// The recording of chapters of ports is read back as these chapters, each at its place and in this order. It has no
/// fault, except that memory may be refused.
pub fn recordings_are_read_back()
    ensures whole { (bodies : List Body) → AllByRecursion IsOfPort bodies
        → IsRecordingIn Version.Two (recording_bytes Version.Two bodies)
        (placed Version.Two MAGIC_BYTES bodies) }
    ensures same { (bodies : List Body) (chapters : List PlacedChapter)
        → AllByRecursion IsOfPort bodies
        → IsRecording (recording_bytes Version.Two bodies) chapters
        → chapters ≡ placed Version.Two MAGIC_BYTES bodies }
    ensures fault { (bodies : List Body) (fault : ReadFault) → AllByRecursion IsOfPort bodies
        → IsReadFault (recording_bytes Version.Two bodies) fault → fault ≡ ReadFault.Memory }
{}

/// A body is that of at most one port and one lawful chapter.
pub fn bodies_have_one_chapter()
    ensures { (p q : ℕ) (c d : Chapter) → IsLawfulChapter c → IsLawfulChapter d
        → chapter_body p c ≡ chapter_body q d → (p ≡ q) × (c ≡ d) }
{}

/// Bytes are a recording of a version that is accepted, or have a fault other than refused memory.
pub fn bytes_are_read_or_have_a_fault()
    ensures { (versions : Version → Bool) (bytes : List ℕ) → AreBytes bytes
        → IsRead versions bytes }
{}
