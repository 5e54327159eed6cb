//! Parsing of the lines of a check file.

ghost use Rattle.std.specs.Prelude.{◌≡◌, ◌≤◌, IfSome};
ghost use Rattle.pon_cert.specs.Problem.{IsItem};
ghost use Rattle.pon_check_file.specs.CheckLines.{number_within, surplus_of, item_on_line, fraction_of, level_on_line};

use pon_cert::{Item, Level};
use pon_text::{cut, follows, number_of};
use pon_units::{Frac, LINE_RATE};

// Parses a number from `least` to `most`.
#[tactic(auto, unfolding(crate::specs::CheckLines::number_within))]
fn number_within(least: u64, most: u64, word: &[u8]) -> Option<u64>
    ensures value { result ≡ number_within least most word.now }
    ensures range { IfSome result (λ n. (least ≤ n) × (n ≤ most)) }
{
    let number = number_of(word)?;
    if least <= number && number <= most {
        Some(number)
    } else {
        None
    }
}

/// Parses a line `surplus <S>`, 0 to 2,488,320 kbit/s.
#[tactic(auto, unfolding(crate::specs::CheckLines::surplus_of))]
pub(crate) fn surplus_of(line: &[u8]) -> Option<u64>
    ensures value { result ≡ surplus_of line.now }
    ensures range { IfSome result (λ n. n ≤ LINE_RATE) }
{
    number_within(0, LINE_RATE, follows(b"surplus ", line)?)
}

/// Parses a line `item <weight> <cap>`, weight 1 to 2,488,320 and cap 0 to 2,488,320 kbit/s.
#[tactic(auto, unfolding(crate::specs::CheckLines::item_on_line))]
pub(crate) fn item_on_line(line: &[u8]) -> Option<Item>
    ensures value { result ≡ item_on_line line.now }
    ensures lawful { IfSome result IsItem }
{
    let (weight, cap) = cut(follows(b"item ", line)?, b' ')?;
    let weight = number_within(1, LINE_RATE, weight)?;
    let cap = number_within(0, LINE_RATE, cap)?;
    Some(Item { weight, cap })
}

// Parses a fraction `<p>/<q>`, with q above 0, as a level.
#[tactic(auto, unfolding(crate::specs::CheckLines::fraction_of))]
fn fraction_of(word: &[u8]) -> Option<Level>
    ensures { result ≡ fraction_of word.now }
{
    let (num, den) = cut(word, b'/')?;
    let num = number_of(num)?;
    let den = number_of(den)?;
    if den > 0 {
        Some(Level::At(Frac::new(num, den)))
    } else {
        None
    }
}

/// Parses a line `level all` or `level <p>/<q>`.
#[tactic(auto, unfolding(crate::specs::CheckLines::level_on_line))]
pub(crate) fn level_on_line(line: &[u8]) -> Option<Level>
    ensures { result ≡ level_on_line line.now }
{
    let word = follows(b"level ", line)?;
    if word == b"all".as_slice() {
        Some(Level::All)
    } else {
        fraction_of(word)
    }
}
