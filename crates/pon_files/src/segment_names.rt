//! The names of the segments of a recording: a number of six digits, and an ending.

ghost use Rattle.std.specs.Prelude.{◌≡◌, IfSome, Some, length};
ghost use Rattle.pon_text.specs.Lines.{number_of};

use std::alloc::{AllocError, Global};

/// The end of the name of a whole segment.
pub(crate) const WHOLE: &str = ".rec";

/// The end of the name of a segment that is not whole yet.
pub(crate) const UNFINISHED: &str = ".rec.part";

/// The number of digits in the name of a segment.
const DIGITS: usize = 6;

/// The byte between two names of a folder.
const BETWEEN: u8 = 0;

/// Returns the path of the segment of this number in a folder. `Err` only if memory is refused.
pub(crate) fn segment_path(alloc: Global, folder: &str, number: u32) -> Result<String, AllocError> {
    format!(in alloc; "{folder}/{number:06}{WHOLE}")
}

// Returns the number that these bytes spell. `None` if they are not six digits.
fn number_of_digits(bytes: &[u8]) -> Option<u32>
    ensures { IfSome result (λ n. (number_of bytes.now ≡ Some n) × (length bytes.now ≡ 6)) }
{
    if bytes.len() != DIGITS {
        return None;
    }
    u32::try_from(pon_text::number_of(bytes)?).ok()
}

// Returns the number of the segment that has this name, which ends so. `None` if it is no name of one.
fn number_of_name(name: &[u8], end: &str) -> Option<u32> {
    number_of_digits(name.strip_suffix(end.as_bytes())?)
}

/// Returns the numbers of all segments among the names of a folder that end so. `Err` only if memory is refused.
pub(crate) fn numbers_in(alloc: Global, names: &[u8], end: &str) -> Result<Vec<u32>, AllocError> {
    let mut numbers = Vec::new(alloc);
    for name in names.split(|byte| *byte == BETWEEN) {
        if let Some(number) = number_of_name(name, end) {
            numbers.push(number)?;
        }
    }
    Ok(numbers)
}
