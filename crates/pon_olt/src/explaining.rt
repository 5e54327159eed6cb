//! Why management lines are refused, for a person.

ghost use Rattle.std.specs.Prelude.{◌≡◌, true};

use crate::commands::{Takes, nearest};
use crate::refusals::{Refused, refused_event};
use crate::refused_row::{RefusedRow, refused_rates};
use pon_descr::Refusal;
use pon_line::{Command, Field, FieldAt, LineFault, LineRefusal, Reading, read_line};
use pon_manage::Notes;
use pon_plant::Plant;
use pon_text::{first_word, number_of};
use std::alloc::Global;
use std::fmt::{self, Display, Formatter, Write};
use std::str;

/// The index of the command in a line, and of the first word after it.
const COMMAND: usize = 1;

const FIRST: usize = 2;

/// Why a line is refused.
#[derive(Clone, Copy)]
enum Reason<'a> {
    /// A word is not what its place requires.
    Word {
        at: FieldAt,
        word: &'a str,
    },
    /// The second word is no command; it may be meant for this one.
    Command {
        word: &'a str,
        meant: Option<&'static str>,
    },
    /// The command takes these words.
    Words {
        command: &'static str,
        takes: Takes,
    },
    /// There is no command.
    OneWord,
    /// There is no such port; there are this many.
    NoPort(usize),
    /// The port has made no map.
    NoMap,
    /// The line is too long.
    Long,
    /// A byte of the line is none of a text.
    NoText,
    /// The port refuses the event.
    Event(Refused),
    /// The fault says all.
    Fault(LineFault),
}

impl Display for Reason<'_> {
    fn fmt<W: Write>(&self, f: &mut Formatter<W>) -> fmt::Result {
        match *self {
            Reason::Word { at, word } => {
                write!(
                    f,
                    "word {} \"{word}\" is no {}",
                    at.word.saturating_add(1),
                    at.field
                )
            }
            Reason::Command {
                word,
                meant: Some(meant),
            } => write!(f, "no command \"{word}\"; did you mean {meant}?"),
            Reason::Command { word, meant: None } => {
                write!(f, "no command \"{word}\"; <port> help lists the commands")
            }
            Reason::Words { command, takes } => write!(f, "{command} takes {takes}"),
            Reason::OneWord => f.write_str("a line has a port and a command, as 0 help"),
            Reason::NoPort(count) => write!(f, "word 1 is no port, of {count} from 0 on"),
            Reason::NoMap => f.write_str("the port has made no map in its chapter"),
            Reason::Long => f.write_str("the line is too long"),
            Reason::NoText => f.write_str("a byte is no tab and no printable ASCII character"),
            Reason::Event(refused) => write!(f, "{refused}"),
            Reason::Fault(fault) => write!(f, "{fault}"),
        }
    }
}

// Returns the word of a line at an index.
fn word_at(line: &[u8], index: usize) -> Option<&str> {
    let mut rest = line;
    for _before in 0..index {
        rest = first_word(rest)?.rest;
    }
    str::from_utf8(first_word(rest)?.word).ok()
}

// Returns why a word of a line is not what it is to be.
fn reason_of_word(alloc: Global, line: &[u8], at: FieldAt) -> Option<Reason<'_>> {
    let word = word_at(line, at.word)?;
    match at.field {
        Field::Command => Some(Reason::Command {
            word,
            meant: nearest(alloc, word),
        }),
        Field::Port if word_at(line, COMMAND).is_none() => None,
        _ => Some(Reason::Word { at, word }),
    }
}

// Returns why a line has too few or too many words.
fn reason_of_count<'a>(line: &[u8]) -> Option<Reason<'a>> {
    let Some(word) = word_at(line, COMMAND) else {
        return Some(Reason::OneWord);
    };
    let form = Command::of_word(word.as_bytes())?.form();
    Some(Reason::Words {
        command: form.word,
        takes: Takes(form.fields),
    })
}

// Returns the number that a word of a line writes.
fn number_at(line: &[u8], index: usize) -> Option<u64> {
    number_of(word_at(line, index)?.as_bytes())
}

// Returns the fixed, the assured and the maximum rate of a line.
fn rates_of(line: &[u8]) -> Option<[u64; 3]> {
    let form = Command::of_word(word_at(line, COMMAND)?.as_bytes())?.form();
    let first = form.fields.iter().position(|field| *field == Field::Fixed)?;
    let first = first.checked_add(FIRST)?;
    Some([
        number_at(line, first)?,
        number_at(line, first + 1)?,
        number_at(line, first + 2)?,
    ])
}

// Returns why the port of a line refuses what it asks for.
fn reason_of_event(alloc: Global, plant: &Plant, line: &[u8], refusal: Refusal) -> Option<Refused> {
    match read_line(plant.count(), line) {
        Reading::Asks { port, event } => refused_event(alloc, refusal, plant, port, &event),
        Reading::AsksWhy { alloc_id, .. } | Reading::AsksSure { alloc_id, .. } => {
            let alloc = alloc_id.get();
            Some(Refused::Row(RefusedRow::NotAdmitted { alloc }))
        }
        _ => refused_rates(refusal, rates_of(line)?).map(Refused::Row),
    }
}

// Returns why a line is refused. `None` if the fault says all, or memory is refused.
fn reason_of<'a>(
    alloc: Global,
    plant: &Plant,
    line: &'a [u8],
    refusal: LineRefusal,
) -> Option<Reason<'a>> {
    if refusal.fault == LineFault::NoSuchPort {
        return Some(Reason::NoPort(plant.count()));
    }
    if let Some(at) = refusal.at {
        return reason_of_word(alloc, line, at);
    }
    match refusal.fault {
        LineFault::WordCount => reason_of_count(line),
        LineFault::NoMap => Some(Reason::NoMap),
        LineFault::LineLong => Some(Reason::Long),
        LineFault::NotText => Some(Reason::NoText),
        LineFault::Port(refusal) => {
            Some(Reason::Event(reason_of_event(alloc, plant, line, refusal)?))
        }
        _ => None,
    }
}

// Returns the code of a fault, the first word of its text.
fn code_of(text: &str) -> &str {
    match text.split_once(' ') {
        Some((code, _)) => code,
        None => text,
    }
}

/// Notes whether a line is refused, and prints a line to standard error for each refused line, with its number and the
/// reason, if that is wanted.
#[derive(Drop)]
pub(crate) struct Explainer<'a, R> {
    pub(crate) rt: &'a R,
    pub(crate) alloc: Global,
    pub(crate) verbose: bool,
    /// A line is refused.
    pub(crate) refused: bool,
}

impl<'a, R: Eprint> Explainer<'a, R> {
    // Prints why the line of this number is refused.
    fn explain(&self, number: u64, plant: &Plant, line: &[u8], refusal: LineRefusal) {
        let fault = refusal.fault;
        let Ok(text) = format!(in self.alloc; "{fault}") else {
            return;
        };
        let code = code_of(&text);
        let reason = match reason_of(self.alloc, plant, line, refusal) {
            Some(reason) => reason,
            None => Reason::Fault(fault),
        };
        let _ = eprintln!(self.rt; "line {number}: {code}: {reason}");
    }
}

impl<'a, R: Eprint> Notes for Explainer<'a, R> {
    ghost noted = { λ explainer. explainer.refused };

    fn note(&mut self, number: u64, plant: &Plant, line: &[u8], refusal: LineRefusal) {
        self.refused = true;
        if self.verbose {
            self.explain(number, plant, line, refusal);
        }
    }
}
