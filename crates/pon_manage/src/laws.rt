//! The laws of the output text, over the definitions alone.

ghost use Rattle.std.specs.Prelude.{◌≡◌, ℕ, List, All};
ghost use Rattle.pon_history.specs.Chapters.{Chapter, IsLawfulChapter};
ghost use Rattle.pon_device.specs.Streams.{IsBeginning};
ghost use Rattle.pon_manage.specs.Planning.{BeginsOutput};
ghost use Rattle.pon_manage.specs.Text.{IsOutput};

/// The output text is a relation between the input and the text written. At ports with lawful chapters, as each `Port`
/// has, an input has at most one output text.
pub fn one_output()
    ensures { (ports : List Chapter) (input text other : List ℕ) → All IsLawfulChapter ports
        → IsOutput ports input text → IsOutput ports input other → text ≡ other }
{}

/// At ports with lawful chapters each input has an output text, and a text that begins an output is a prefix of one.
pub fn each_input_has_an_output()
    ensures output { (ports : List Chapter) (input : List ℕ) → All IsLawfulChapter ports
        → (text : List ℕ) × IsOutput ports input text }
    ensures begun { (ports : List Chapter) (input written : List ℕ) → All IsLawfulChapter ports
        → BeginsOutput ports input written
        → (text : List ℕ) × IsOutput ports input text × IsBeginning written text }
{}
