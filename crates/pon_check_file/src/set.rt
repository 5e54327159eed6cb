//! The saturated items of a check file, by their indexes.

ghost use Rattle.std.specs.Prelude.{◌≡◌, ◌==◌, ◌∷◌, IfOk};
ghost use Rattle.std.specs.List.{slice_split};
ghost use Rattle.pon_check_file.specs.Parts.{left_of, parts_of, left_after};
ghost use Rattle.pon_text.specs.Lines.{number_of};
ghost use Rattle.pon_check_file.specs.CheckLines.{is_next, is_index, flags_from, flags_of};

use pon_cert::Sat;
use pon_text::{cut, follows, number_of};
use std::alloc::{AllocError, Global};

// The remaining indexes of a set.
#[derive(Drop)]
struct Indexes<'a> {
    left: Option<&'a [u8]>,
}

// Splits a text after its first index, at the comma.
fn first_index(text: &[u8]) -> (&[u8], Option<&[u8]>)
    ensures { slice_split (λ b. b == 44) text.now ≡ result.0.now ∷ left_of result.1 }
{
    match cut(text, b',') {
        Some((index, others)) => (index, Some(others)),
        None => (text, None),
    }
}

fn is_index(item: usize, index: &[u8]) -> bool
    ensures { result ≡ is_index item (number_of index.now) }
{
    match number_of(index) {
        Some(number) => number == item as u64,
        None => false,
    }
}

impl<'a> Indexes<'a> {
    fn of(set: &'a [u8]) -> Self
        ensures { left_of result.left ≡ parts_of set.now }
    {
        if set == b"-".as_slice() {
            return Indexes { left: None };
        }
        Indexes { left: Some(set) }
    }

    // Removes the first remaining index if it is that of this item, and returns whether it was.
    fn take(&mut self, item: usize) -> bool
        ensures named { result ≡ is_next item (left_of self.old.left) }
        ensures left { left_of self.new.left ≡ left_after result (left_of self.old.left) }
    {
        let Some(text) = self.left else {
            return false;
        };
        let (index, others) = first_index(text);
        let named = is_index(item, index);
        if named {
            self.left = others;
        }
        named
    }
}

// Parses a set into a flag for each of `count` items; `None` if its indexes do not ascend or one is not that of an
// item.
fn flags_from(alloc: Global, count: usize, set: &[u8]) -> Result<Option<Sat>, AllocError>
    ensures { IfOk result (λ r. r ≡ flags_from 0 count (parts_of set.now)) }
{
    let mut indexes = Indexes::of(set);
    let mut flags = Vec::new(alloc);
    for item in 0..count {
        let saturated = indexes.take(item);
        flags.push(saturated)?;
    }
    if indexes.left.is_some() {
        return Ok(None);
    }
    Ok(Some(Sat::new(flags)))
}

/// Parses a line `saturated -` or `saturated <i>,<j>,..` into a flag for each of `count` items: the indexes ascend, and
/// each is that of an item. `None` for any other line.
#[tactic(auto, unfolding(crate::specs::CheckLines::flags_of))]
pub(crate) fn flags_of(alloc: Global, count: usize, line: &[u8]) -> Result<Option<Sat>, AllocError>
    ensures { IfOk result (λ r. r ≡ flags_of count line.now) }
{
    match follows(b"saturated ", line) {
        Some(set) => flags_from(alloc, count, set),
        None => Ok(None),
    }
}
