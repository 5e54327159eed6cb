//! Laws of check files, over the definitions alone.

ghost use Rattle.std.specs.Prelude.{◌≡◌, ◌↔◌, ℕ, Bool, List, Some, Err};
ghost use Rattle.pon_check_file.specs.CheckLines.{WritesFlags, flags_from};
ghost use Rattle.pon_check_file.specs.CheckFiles.{file_of};
ghost use Rattle.pon_check_file.specs.Unfit.{IsFirstUnfit};

/// A set gives the items of a check file their flags exactly when its parts write, in order, the indexes of the
/// saturated items: so the indexes ascend, and each is that of an item.
pub fn sets_name_items()
    ensures { (n : ℕ) (parts : List (List ℕ)) (flags : List Bool)
        → (flags_from 0 n parts ≡ Some flags) ↔ WritesFlags n parts flags }
{}

/// A line is the first that does not fit exactly when the lines before it fit and it is not one that may follow them: a
/// surplus, an item or a level, a level after 512 items, a set of the items, or an empty line.
pub fn first_unfit_line()
    ensures { (ls : List (List ℕ)) (n : ℕ) → (file_of ls ≡ Err n) ↔ IsFirstUnfit ls n }
{}
