ghost use Rattle.std.specs.Prelude.{ℕ, List, MatchResult, Option, option_map};
ghost use Rattle.pon_joined.specs.Files.{KeepsFiles, OpensFile};

use pon_device::{DevRead, Failed};

/// Files that are opened one after another.
pub trait NextFile<R: DevRead> {
    /// The bytes of the files that are not opened yet, if they are specified.
    ghost contents: { Self → Option (List (List ℕ)) };

    /// Opens the next file. `None` if there is none.
    ///
    /// # Errors
    ///
    /// `Failed` if the file cannot be opened; then it is still the next one.
    fn next_file(&mut self) -> Result<Option<R>, Failed>
        ensures { MatchResult result
            (λ file. OpensFile (contents self.old) (contents self.new) (option_map R.remaining file))
            (λ _. KeepsFiles (contents self.old) (contents self.new)) };
}
