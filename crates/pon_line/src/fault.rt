use crate::field::Field;
use pon_descr::Refusal;
use std::error::Error;
use std::fmt;

/// The fault of a refused line. Each has a number, L1 to L7, and a name, which the reply prints; a refusal has its own.
#[derive(Clone, Copy, Debug, PartialEq, Eq)]
pub enum LineFault {
    /// L1: the second word is no command.
    UnknownCommand,
    /// L2: the command is missing, or has more or fewer words than it takes.
    WordCount,
    /// L3: a word is not the number (1 to 20 digits, below 2^64), class, occupancy or cause that its place requires.
    BadField,
    /// L4: no port has that number.
    NoSuchPort,
    /// L5: the certificate or the explanation of the last map is requested, and the kept chapter has no map yet.
    NoMap,
    /// L6: the line has more than 4,096 bytes.
    LineLong,
    /// L7: a byte is neither a tab nor a printable character of ASCII.
    NotText,
    /// The numbers are refused (E03 to E08), or the port refuses the event.
    Port(Refusal),
}

impl fmt::Display for LineFault {
    ghost use Rattle.std.specs.Prelude.{Some};
    ghost use Rattle.pon_line.specs.Faults.{line_fault_text};

    ghost output = { λ fault. Some (line_fault_text fault) };

    fn fmt<W: fmt::Write>(&self, f: &mut fmt::Formatter<W>) -> fmt::Result {
        match *self {
            LineFault::UnknownCommand => write!(f, "L1 UnknownCommand"),
            LineFault::WordCount => write!(f, "L2 WordCount"),
            LineFault::BadField => write!(f, "L3 BadField"),
            LineFault::NoSuchPort => write!(f, "L4 NoSuchPort"),
            LineFault::NoMap => write!(f, "L5 NoMap"),
            LineFault::LineLong => write!(f, "L6 LineLong"),
            LineFault::NotText => write!(f, "L7 NotText"),
            LineFault::Port(refusal) => write!(f, "{refusal}"),
        }
    }
}

impl Error for LineFault {}

/// A word of a line, and what it is to be.
#[derive(Clone, Copy, Debug, PartialEq, Eq)]
pub struct FieldAt {
    /// The number of words before it; the port is word 0.
    pub word: usize,
    /// What the word is to be.
    pub field: Field,
}

/// Why a line is refused: the fault, and the word that has it.
#[derive(Clone, Copy, Debug, PartialEq, Eq)]
pub struct LineRefusal {
    /// The fault that the reply prints.
    pub fault: LineFault,
    /// The word that has the fault, for L1, L3, L4 and E03 to E05.
    pub at: Option<FieldAt>,
}

impl From<LineFault> for LineRefusal {
    ghost use Rattle.std.specs.Prelude.{◌≡◌};
    ghost use Rattle.pon_line.specs.Places.{of_line};

    ghost from_gives = { λ fault refusal. refusal ≡ of_line fault };

    fn from(fault: LineFault) -> Self {
        LineRefusal { fault, at: None }
    }
}

impl LineRefusal {
    ghost use Rattle.std.specs.Prelude.{◌≡◌};
    ghost use Rattle.pon_line.specs.Places.{no_command};

    /// Returns the refusal of a line whose second word is no command.
    pub fn no_command() -> LineRefusal
        ensures { result ≡ no_command }
    {
        LineFault::UnknownCommand.at(1, Field::Command)
    }
}

impl LineFault {
    ghost use Rattle.std.specs.Prelude.{◌≡◌};
    ghost use Rattle.pon_line.specs.Places.{at_word};

    /// Returns the refusal of a line in which the word at an index, which is to be this field, has the fault.
    pub(crate) fn at(self, word: usize, field: Field) -> LineRefusal
        ensures { result ≡ at_word self word field }
    {
        LineRefusal {
            fault: self,
            at: Some(FieldAt { word, field }),
        }
    }
}
