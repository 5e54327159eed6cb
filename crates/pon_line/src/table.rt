//! The commands of management lines: the word of each, its fields, and its line in the help.

ghost use Rattle.std.specs.Prelude.{◌≡◌};
ghost use Rattle.pon_line.specs.Table.{command_of, line_of, word_of};

use crate::field::Field::{self, Alloc, Assured, Cause, Class, Fixed, Frame, Max, Occupancy, Onu};
use Command::{
    Admit, Cert, Change, Fail, Help, List, Map, Remove, Report, Restore, Show, Stop, Sure, Why,
};

/// What a line requests of its port: the word after the port.
#[derive(Clone, Copy, Debug, PartialEq, Eq)]
pub enum Command {
    Admit,
    Change,
    Remove,
    Report,
    Map,
    Fail,
    Restore,
    Cert,
    Show,
    List,
    Why,
    Sure,
    Help,
    Stop,
}

/// The commands of each port, in the order in which the help lists them: all but [`Command::Stop`], which stops a run.
pub const COMMANDS: [Command; 13] = [
    Admit, Change, Remove, Report, Map, Fail, Restore, Cert, Show, List, Why, Sure, Help,
];

/// How a command is written.
#[derive(Clone, Copy)]
pub struct Form {
    /// The word of the command.
    pub word: &'static str,
    /// What the words after it are; a report has 1 to 16 of its last one.
    pub fields: &'static [Field],
    /// The words after the port, as the help lists them.
    pub line: &'static str,
}

// Returns how a command with this word is written.
fn written(word: &'static str, fields: &'static [Field], line: &'static str) -> Form
    ensures word { result.word.now ≡ word.now }
    ensures line { result.line.now ≡ line.now }
{
    Form { word, fields, line }
}

const ADMIT: &[Field] = &[Onu, Alloc, Fixed, Assured, Max, Class];

const CHANGE: &[Field] = &[Alloc, Fixed, Assured, Max, Class];

const REPORT: &[Field] = &[Frame, Onu, Occupancy];

impl Command {
    /// Returns how the command is written.
    pub fn form(self) -> Form
        ensures word { result.word.now ≡ word_of self }
        ensures line { result.line.now ≡ line_of self }
    {
        match self {
            Admit => written(
                "admit",
                ADMIT,
                "admit <onu> <alloc> <fixed> <assured> <max> <class>",
            ),
            Change => written(
                "change",
                CHANGE,
                "change <alloc> <fixed> <assured> <max> <class>",
            ),
            Remove => written("remove", &[Alloc], "remove <alloc>"),
            Report => written("report", REPORT, "report <frame> <onu> <occupancy> .."),
            Map => written("map", &[], "map"),
            Fail => written("fail", &[Cause], "fail <cause>"),
            Restore => written("restore", &[], "restore"),
            Cert => written("cert", &[], "cert"),
            Show => written("show", &[], "show"),
            List => written("list", &[], "list"),
            Why => written("why", &[Alloc], "why <alloc>"),
            Sure => written("sure", &[Alloc], "sure <alloc>"),
            Help => written("help", &[], "help"),
            Stop => written("stop", &[], "stop"),
        }
    }

    /// Returns the command of a word. `None` if it is the word of none.
    #[tactic(auto, unfolding(crate::specs::Table::command_of))]
    pub fn of_word(word: &[u8]) -> Option<Command>
        ensures { result ≡ command_of word.now }
    {
        for command in COMMANDS {
            if word == command.form().word.as_bytes() {
                return Some(command);
            }
        }
        if word == Stop.form().word.as_bytes() {
            return Some(Stop);
        }
        None
    }
}
