//! Laws of readers of a link's records, over the definitions alone.

ghost use Rattle.std.specs.Prelude.{◌≡◌, ◌<◌, ◌^◌, ◌↔◌, ℕ, Bool, Option, List, ◌++◌, length, All};
ghost use Rattle.pon_bwmap.specs.Alloc.{Alloc};
ghost use Rattle.pon_bwmap.specs.MapRules.{IsMap};
ghost use Rattle.pon_bwmap.specs.MapReading.{FitsStructure};
ghost use Rattle.pon_link.specs.Reading.{ReaderState, empty, MayBecomeRecord, HasFault, IsOpen};
ghost use Rattle.pon_link.specs.UpRecords.{IsRecord, ReadsReport};
ghost use Rattle.pon_link.specs.DownRecords.{IsDownRecord, WantsMemory, down_bytes};
ghost use Rattle.pon_link.specs.Runs.{ReaderStep, Leads, bytes_taken, given, AreRecords, RunsOver};
ghost use Rattle.pon_lists.specs.Bytes.{AreBytes};
ghost use Rattle.pon_link.specs.declared.direction.Direction.{Direction};
ghost use Rattle.pon_link.specs.declared.record.UpRecord.{UpRecord};
ghost use Rattle.pon_link.specs.declared.record.DownRecord.{DownRecord};
ghost use Rattle.pon_link.specs.declared.fault.LinkFault.{LinkFault};

/// No byte is lost or added: the bytes of the returned records, followed by the held bytes, are the bytes that were
/// taken.
pub fn nothing_is_lost()
    ensures up { (steps : List (ReaderStep UpRecord)) (s : ReaderState)
        → Leads IsRecord (empty Direction.Up) steps s →
        AreRecords IsRecord (bytes_taken steps) (given steps) s.held }
    ensures down { (steps : List (ReaderStep DownRecord)) (s : ReaderState)
        → Leads IsDownRecord (empty Direction.Down) steps s →
        AreRecords IsDownRecord (bytes_taken steps) (given steps) s.held }
{}

/// For any split of a stream into pieces, and whether the input ends after it or not, a reader returns the same records
/// and finds the same fault, or none, and in that case holds the same bytes.
pub fn whatever_the_pieces()
    ensures up { (stream : List ℕ) (over : Bool) (steps others : List (ReaderStep UpRecord))
        (s t : ReaderState) (f g : Option LinkFault) → AreBytes stream
        → RunsOver IsRecord Direction.Up stream over steps s f
        → RunsOver IsRecord Direction.Up stream over others t g
        → (given steps ≡ given others) × (f ≡ g) × (f ≡ None → s.held ≡ t.held) }
    ensures down { (stream : List ℕ) (over : Bool) (steps others : List (ReaderStep DownRecord))
        (s t : ReaderState) (f g : Option LinkFault) → AreBytes stream
        → RunsOver IsDownRecord Direction.Down stream over steps s f
        → RunsOver IsDownRecord Direction.Down stream over others t g
        → (given steps ≡ given others) × (f ≡ g) × (f ≡ None → s.held ≡ t.held) }
{}

/// The outcome of a reader is unique: it holds a whole record, a prefix of one, or one fault. `Memory` is returned only
/// for a whole record.
pub fn one_outcome()
    ensures waits { (s : ReaderState) (r : UpRecord) → s.direction ≡ Direction.Up
        → IsRecord s.held r
        → IsOpen s → ⊥ }
    ensures sound { (s : ReaderState) (r : UpRecord) (f : LinkFault) → s.direction ≡ Direction.Up
        → IsRecord s.held r → HasFault s f → ⊥ }
    ensures down_waits { (s : ReaderState) (r : DownRecord) → s.direction ≡ Direction.Down
        → AreBytes s.held → IsDownRecord s.held r → IsOpen s → ⊥ }
    ensures down_sound { (s : ReaderState) (r : DownRecord) (f : LinkFault)
        → s.direction ≡ Direction.Down → AreBytes s.held → IsDownRecord s.held r → HasFault s f
        → ⊥ }
    ensures faultless { (s : ReaderState) (f : LinkFault)
        → (s.direction ≡ Direction.Down → AreBytes s.held) → IsOpen s → HasFault s f → ⊥ }
    ensures one_fault { (s : ReaderState) (f g : LinkFault)
        → (s.direction ≡ Direction.Down → AreBytes s.held) → HasFault s f → HasFault s g → f ≡ g }
    ensures memory_waits { (s : ReaderState) → s.direction ≡ Direction.Down → AreBytes s.held
        → WantsMemory s.held → IsOpen s → ⊥ }
    ensures memory_sound { (s : ReaderState) (f : LinkFault) → s.direction ≡ Direction.Down
        → AreBytes s.held → WantsMemory s.held → HasFault s f → ⊥ }
{}

/// A proper prefix of a record may become a record: no reader refuses it.
pub fn no_record_is_refused()
    ensures up { (bytes rest : List ℕ) (r : UpRecord) → 0 < length rest → IsRecord (bytes ++ rest) r
        → MayBecomeRecord Direction.Up bytes }
    ensures down { (bytes rest : List ℕ) (r : DownRecord) → 0 < length rest
        → IsDownRecord (bytes ++ rest) r → MayBecomeRecord Direction.Down bytes }
{}

/// Bytes are at most one record of a direction, so a written record reads back unchanged.
pub fn one_reading()
    ensures up { (bytes : List ℕ) (r s : UpRecord) → AreBytes bytes → IsRecord bytes r
        → IsRecord bytes s → r ≡ s }
    ensures down { (bytes : List ℕ) (r s : DownRecord) → AreBytes bytes → IsDownRecord bytes r
        → IsDownRecord bytes s → r ≡ s }
{}

/// The bytes written for a frame and its map are the record of these, and no other.
pub fn written_down()
    ensures { (frame : ℕ) (rows : List Alloc) (r : DownRecord) → frame < 2 ^ 64 → IsMap rows
        → All FitsStructure rows
        → (IsDownRecord (down_bytes frame rows) r ↔ (r ≡ record { frame = frame; map = rows })) }
{}

/// Four bytes report at most one number, and none if they are garbled.
pub fn one_report()
    ensures { (bytes : List ℕ) (words words2 : Option ℕ) → ReadsReport bytes words
        → ReadsReport bytes words2 → words ≡ words2 }
{}
