//! The occupancies of a `report`.

ghost use Rattle.std.specs.Prelude.{◌≡◌, ◌≤◌, ◌<◌, ◌+◌, [], nat_lt, false, if◌then◌else◌, length, Ok, Err, IfErr, OnOk};
ghost use Rattle.std.specs.Option.{SomeIff};
ghost use Rattle.pon_text.specs.Lines.{words_of};
ghost use Rattle.pon_line.specs.Commands.{is_miscounted, occupancy_field, occupancy_fields};
ghost use Rattle.pon_line.specs.Parts.{FailsBy};

use crate::fault::{LineFault, LineRefusal};
use crate::field::Field;
use crate::fields::{FIRST, number_field};
use pon_dbru::Occupancies;
use pon_text::{count_words, first_word};
use pon_units::{BufOcc, MAX_OCCUPANCY, MAX_SERIES};

/// The index of the first occupancy of a report.
const OCCUPANCY: usize = FIRST + 2;

/// Why the occupancies of a report are refused.
#[derive(Clone, Copy)]
pub(crate) enum NoOccupancies {
    /// There are none, or more than 16.
    Count,
    /// A word writes none.
    Word(LineRefusal),
}

// Returns the occupancy of a number of words, or `None` above 16,777,215.
fn occupancy_of(number: u64) -> Option<BufOcc>
    ensures { SomeIff result (number ≤ MAX_OCCUPANCY) number }
{
    BufOcc::new(u32::try_from(number).ok()?)
}

// Returns the occupancy that the word at an index writes, `None` for `x` (garbled), or `BadField` if it writes neither.
#[tactic(auto, unfolding(crate::specs::Commands::occupancy_field))]
fn occupancy_field(index: usize, word: &[u8]) -> Result<Option<BufOcc>, LineRefusal>
    ensures { result ≡ occupancy_field index word.now }
{
    if word == b"x".as_slice() {
        return Ok(None);
    }
    match occupancy_of(number_field(index, Field::Occupancy, word)?) {
        Some(words) => Ok(Some(words)),
        None => Err(LineFault::BadField.at(index, Field::Occupancy)),
    }
}

// Returns why the occupancies of a report are refused if the one after the first `before` has this refusal: `Count` if there
// are more than 16 with those in `rest`, otherwise the refusal.
fn first_refusal(refusal: LineRefusal, before: usize, rest: &[u8]) -> NoOccupancies
    requires { before < MAX_SERIES }
    ensures { result ≡ (if nat_lt MAX_SERIES (before + 1 + length (words_of rest.now))
        then NoOccupancies.Count else NoOccupancies.Word refusal) }
{
    if count_words(rest) >= MAX_SERIES - before {
        NoOccupancies::Count
    } else {
        NoOccupancies::Word(refusal)
    }
}

/// Appends the occupancies that the words of a text write to the empty list, in one pass. After an error the list has those
/// before it.
pub(crate) fn occupancy_fields(
    text: &[u8],
    occupancies: &mut Occupancies,
) -> Result<(), NoOccupancies>
    requires empty { occupancies.old ≡ [] }
    ensures count { OnOk result (is_miscounted (words_of text.now) ≡ false) }
    ensures ok { OnOk result (occupancy_fields OCCUPANCY (words_of text.now) ≡ Ok occupancies.new) }
    ensures err { IfErr result (FailsBy (words_of text.now)) }
{
    let mut rest = text;
    let mut count = 0;
    while let Some(word) = first_word(rest) {
        if count == MAX_SERIES {
            return Err(NoOccupancies::Count);
        }
        match occupancy_field(OCCUPANCY + count, word.word) {
            Ok(occupancy) => occupancies.push(occupancy),
            Err(refusal) => return Err(first_refusal(refusal, count, word.rest)),
        }
        count += 1;
        rest = word.rest;
    }
    if count == 0 {
        return Err(NoOccupancies::Count);
    }
    Ok(())
}
