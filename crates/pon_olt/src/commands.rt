//! The commands of management lines, for a person who mistook one.

use pon_line::{COMMANDS, Field};
use std::alloc::Global;
use std::fmt::{self, Display, Formatter, Write};
use strsim::levenshtein;

/// The most letters in which a word differs from the command that is meant.
const MAX_DIFFERENCE: usize = 2;

/// The words that a command takes after the port.
#[derive(Clone, Copy)]
pub(crate) struct Takes(pub(crate) &'static [Field]);

// Returns the name of a field, as a refusal of the number of words has it.
fn name_of(field: Field) -> &'static str {
    match field {
        Field::Port => "port",
        Field::Command => "command",
        Field::Onu => "onu",
        Field::Alloc => "alloc",
        Field::Fixed => "fixed",
        Field::Assured => "assured",
        Field::Max => "max",
        Field::Class => "class",
        Field::Frame => "frame",
        Field::Occupancy => "and 1 to 16 occupancies",
        Field::Cause => "cause",
    }
}

impl Display for Takes {
    fn fmt<W: Write>(&self, f: &mut Formatter<W>) -> fmt::Result {
        let Some((first, others)) = self.0.split_first() else {
            return f.write_str("no further word");
        };
        f.write_str(name_of(*first))?;
        for field in others {
            let name = name_of(*field);
            write!(f, " {name}")?;
        }
        Ok(())
    }
}

/// Returns the command that is meant by a word. `None` if it is like none, or memory is refused.
pub(crate) fn nearest(alloc: Global, word: &str) -> Option<&'static str> {
    let mut best = None;
    let mut least = MAX_DIFFERENCE + 1;
    for command in COMMANDS {
        let name = command.form().word;
        let difference = levenshtein(alloc, word, name).ok()?;
        if difference < least {
            best = Some(name);
            least = difference;
        }
    }
    best
}
