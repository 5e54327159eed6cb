//! The fields of answers: each has a name and a value.

ghost use Rattle.std.specs.Prelude.{◌≡◌};
ghost use Rattle.pon_look.specs.Fields.{keyed, named, numbered, said, words_alone};

use crate::words::class_word;
use pon_audit::AuditReason;
use pon_cert::Level;
use pon_descr::Class;
use pon_draw::Mean;
use std::fmt::{self, Display, Formatter, Write};

/// The length of a frame, in microseconds.
const FRAME_MICROSECONDS: u64 = 125;

const MICROSECONDS_OF_SECOND: u64 = 1_000_000;

const MICROSECONDS_OF_MILLISECOND: u64 = 1_000;

/// The value of a field, with what it is in text and in JSON. A number and a word are the same in both.
#[derive(Clone, Copy)]
pub(crate) enum FieldValue {
    Number(u64),
    /// A number, or `-` and null.
    Maybe(Option<u64>),
    /// A number, or no field in text and null.
    End(Option<u64>),
    /// A number; there is no field if it is 0.
    Count(u64),
    /// The numbers of the first and of the last chapter that is missing; a list in JSON.
    Chapters(u64, u64),
    /// 1 or 0, and true or false.
    Bit(bool),
    /// The name alone or no field, and true or false.
    Mark(bool),
    /// `none`, `na` or `be`.
    Class(Class),
    /// `all` or a fraction as it is kept.
    Level(Level),
    /// Why an audit refuses a chapter.
    Reason(AuditReason),
    /// The line time of a number of maps, in seconds.
    Seconds(u64),
    /// The line time of a number of maps, in milliseconds, or `-`; no field in JSON.
    Milliseconds(Option<u64>),
    /// The mean of the rates of maps, in kbit/s, and their sum.
    Rates { sum: u64, maps: u64 },
    /// The mean rate of the words of maps, in kbit/s, and the sum of the words.
    Words { sum: u64, maps: u64 },
}

/// A field of an answer.
#[derive(Clone, Copy)]
pub(crate) struct Field<'a> {
    // Its name in text; the value alone is printed without one.
    words: &'a str,
    // Its key in JSON; empty if JSON has no such field.
    key: &'a str,
    value: FieldValue,
}

impl<'a> Field<'a> {
    /// A field with the same name in text and in JSON.
    pub(crate) fn new(name: &'a str, value: FieldValue) -> Field<'a>
        ensures { said result ≡ named name.now value }
    {
        Field::named(name, name, value)
    }

    /// A field with a name in text and one in JSON.
    pub(crate) fn named(words: &'a str, key: &'a str, value: FieldValue) -> Field<'a>
        ensures { said result ≡ keyed words.now key.now value }
    {
        Field { words, key, value }
    }

    /// A number with the same name in text and in JSON.
    pub(crate) fn number(name: &'a str, number: u64) -> Field<'a>
        ensures { said result ≡ numbered name.now number }
    {
        Field::new(name, FieldValue::Number(number))
    }

    /// Words that stand in text alone.
    pub(crate) fn words(words: &'a str) -> Field<'a>
        ensures { said result ≡ words_alone words.now }
    {
        Field::named(words, "", FieldValue::Mark(true))
    }

    /// A number that stands in text alone, without a name.
    pub(crate) fn unnamed(number: u64) -> Field<'a> {
        Field::named("", "", FieldValue::Number(number))
    }

    pub(crate) fn key(&self) -> &'a str {
        self.key
    }

    pub(crate) fn value(&self) -> FieldValue {
        self.value
    }

    /// Returns whether the field stands in text.
    pub(crate) fn is_in_text(&self) -> bool {
        !matches!(
            self.value,
            FieldValue::End(None) | FieldValue::Count(0) | FieldValue::Mark(false)
        )
    }

    /// Returns whether the field stands in JSON.
    pub(crate) fn is_in_json(&self) -> bool {
        !self.key.is_empty() && !matches!(self.value, FieldValue::Count(0))
    }
}

/// A level: `all`, or a fraction as it is kept.
#[derive(Clone, Copy)]
pub(crate) struct LevelText(pub(crate) Level);

impl Display for LevelText {
    fn fmt<W: Write>(&self, f: &mut Formatter<W>) -> fmt::Result {
        match &self.0 {
            Level::All => f.write_str("all"),
            Level::At(rate) => {
                let (num, den) = (rate.num(), rate.den());
                write!(f, "{num}/{den}")
            }
        }
    }
}

// Writes a number, or `-`.
fn write_maybe<W: Write>(number: Option<u64>, f: &mut Formatter<W>) -> fmt::Result {
    match number {
        Some(number) => write!(f, "{number}"),
        None => f.write_str("-"),
    }
}

// Writes the line time of a number of maps, in seconds with six decimal places.
fn write_seconds<W: Write>(maps: u64, f: &mut Formatter<W>) -> fmt::Result {
    let time = maps.saturating_mul(FRAME_MICROSECONDS);
    let (seconds, rest) = (time / MICROSECONDS_OF_SECOND, time % MICROSECONDS_OF_SECOND);
    write!(f, "{seconds}.{rest:06}")
}

// Writes the line time of a number of maps, in milliseconds with three decimal places.
fn write_milliseconds<W: Write>(maps: u64, f: &mut Formatter<W>) -> fmt::Result {
    let time = maps.saturating_mul(FRAME_MICROSECONDS);
    let (whole, rest) = (
        time / MICROSECONDS_OF_MILLISECOND,
        time % MICROSECONDS_OF_MILLISECOND,
    );
    write!(f, "{whole}.{rest:03}")
}

impl Display for FieldValue {
    fn fmt<W: Write>(&self, f: &mut Formatter<W>) -> fmt::Result {
        match *self {
            FieldValue::Number(number) | FieldValue::Count(number) => write!(f, "{number}"),
            FieldValue::Maybe(number) | FieldValue::End(number) => write_maybe(number, f),
            FieldValue::Chapters(first, last) => write!(f, "{first} to {last} missing"),
            FieldValue::Bit(bit) => write!(f, "{}", u8::from(bit)),
            FieldValue::Mark(_) => Ok(()),
            FieldValue::Class(class) => f.write_str(class_word(class)),
            FieldValue::Level(level) => write!(f, "{}", LevelText(level)),
            FieldValue::Reason(why) => write!(f, "{why}"),
            FieldValue::Seconds(maps) => write_seconds(maps, f),
            FieldValue::Milliseconds(None) => f.write_str("-"),
            FieldValue::Milliseconds(Some(maps)) => write_milliseconds(maps, f),
            FieldValue::Rates { sum, maps } => write!(f, "{}", Mean::of_rates(sum, maps)),
            FieldValue::Words { sum, maps } => write!(f, "{}", Mean::of_words(sum, maps)),
        }
    }
}

impl Display for Field<'_> {
    fn fmt<W: Write>(&self, f: &mut Formatter<W>) -> fmt::Result {
        let (words, value) = (self.words, self.value);
        match value {
            FieldValue::Mark(_) => f.write_str(words),
            _ if words.is_empty() => write!(f, "{value}"),
            _ => write!(f, "{words} {value}"),
        }
    }
}
