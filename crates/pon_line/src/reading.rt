//! What a management line requests of a port, or why it is refused.

ghost use Rattle.std.specs.Prelude.{◌≡◌, [], ℕ, List, MatchOption, take};
ghost use Rattle.std.specs.List.{list_all};
ghost use Rattle.pon_line.specs.Reading.{read_line, port_of, is_text};
ghost use Rattle.pon_line.specs.Parts.{IsOtherReading, asks_in, goes_on};

use crate::command::{frame_line_of, request_of};
use crate::fault::{LineFault, LineRefusal};
use crate::field::Field;
use crate::fields::number_field;
use pon_admit::Event;
use pon_dbru::Occupancies;
use pon_text::{first_word, without_return};
use pon_units::{AllocId, FrameNo, OnuId};

/// The greatest length of a line in bytes, including its carriage return.
const LONGEST: usize = 4096;

/// A line that each frame brings: a request for the next map, or a report, whose occupancies are in a list of the caller.
#[derive(Clone, Copy, Debug, PartialEq, Eq)]
pub enum FrameCommand {
    /// The line requests that the port make the next map.
    Map {
        port: usize,
    },
    /// The line brings the port a report of an ONU for the map of a frame.
    Report {
        port: usize,
        frame: FrameNo,
        onu: OnuId,
    },
}

/// The result of reading a line.
#[derive(Drop)]
pub enum Reading {
    /// The line is blank or a comment: there is no reply.
    Nothing,
    /// The line is refused.
    Refused(LineRefusal),
    /// The line requests that the port take the event.
    Asks { port: usize, event: Event },
    /// The line requests the certificate of the port's last map.
    AsksCert { port: usize },
    /// The line requests the state of the port.
    AsksState { port: usize },
    /// The line requests the admitted Alloc-IDs of the port.
    AsksRows { port: usize },
    /// The line requests the list of all lines.
    AsksHelp { port: usize },
    /// The end of the run, after the turn of each port.
    AsksStop { port: usize },
    /// The line requests the explanation of the port's last map for an Alloc-ID.
    AsksWhy { port: usize, alloc_id: AllocId },
    /// The line requests what is sure for an Alloc-ID of the port.
    AsksSure { port: usize, alloc_id: AllocId },
}

// Returns the port that a word names, `BadField` if the word is no number, or `NoSuchPort` if no port has it.
#[tactic(auto, unfolding(crate::specs::Reading::port_of))]
fn port_of(ports: usize, word: &[u8]) -> Result<usize, LineRefusal>
    ensures { result ≡ port_of ports word.now }
{
    let number = number_field(0, Field::Port, word)?;
    if number < ports as u64 {
        Ok(number as usize)
    } else {
        Err(LineFault::NoSuchPort.at(0, Field::Port))
    }
}

fn is_text_byte(byte: u8) -> bool
    ensures { result ≡ is_text byte }
{
    byte == b'\t' || (byte >= 0x20 && byte <= 0x7e)
}

// Returns whether each byte is text. It looks at all bytes: a loop without an early end is faster on text.
fn is_text(line: &[u8]) -> bool
    ensures { result ≡ list_all is_text line.now }
{
    let mut all = true;
    for byte in line {
        all = is_text_byte(*byte) & all;
    }
    all
}

// The front of a line: it requests nothing, or is refused, or it names a port and goes on after it.
enum Front<'a> {
    Nothing,
    Refused(LineRefusal),
    Names { port: usize, rest: &'a [u8] },
}

// Reads the front of a line.
#[tactic(auto, unfolding(crate::specs::Reading::read_line))]
fn front_of(ports: usize, line: &[u8]) -> Front<'_>
    ensures { read_line ports line.now ≡ goes_on result }
{
    if line.len() > LONGEST {
        return Front::Refused(LineRefusal::from(LineFault::LineLong));
    }
    let line = without_return(line);
    let Some(first) = first_word(line) else {
        return Front::Nothing;
    };
    if first.word.first() == Some(&b'#') {
        return Front::Nothing;
    }
    if !is_text(line) {
        return Front::Refused(LineRefusal::from(LineFault::NotText));
    }
    match port_of(ports, first.word) {
        Err(refusal) => Front::Refused(refusal),
        Ok(port) => Front::Names {
            port,
            rest: first.rest,
        },
    }
}

/// Reads a line for a number of ports. The line has no line feed; a carriage return at its end is dropped.
///
/// `<port> admit <onu> <alloc> <fixed> <assured> <max> <class>` admits an Alloc-ID, `<port> change <alloc> <fixed>
/// <assured> <max> <class>` gives it another descriptor, `<port> remove <alloc>` removes it, `<port> report <frame>
/// <onu> <occ> ..` reports the occupancies of an ONU's structures in a frame's map, `<port> map` makes the next map,
/// `<port> cert` requests the certificate of the last map, `<port> show` the state of the port, `<port> list` its
/// admitted Alloc-IDs, `<port> why <alloc>` the explanation of the last map, `<port> sure <alloc>` what is sure for an
/// Alloc-ID and `<port> help` the list of all lines, `<port> fail <cause>` reports that the line has failed
/// and `<port> restore` that it is restored. Words are separated by spaces and tabs; a number is 1 to 20 decimal digits
/// with a value below 2^64; rates are in kbit/s; a class is `none`, `na` or `be`; there are 1 to 16 occupancies, each 0
/// to 16,777,215 words of 4 bytes, or `x` if it is garbled; a cause is 1 to 9.
///
/// Refused, in this order: `LineLong` above 4,096 bytes, including the carriage return; `NotText` for a byte that is no
/// text, unless the line is blank or a comment, which begins with `#`; `BadField` if the first word is no number and
/// `NoSuchPort` if no port has it; `WordCount` without a second word and `UnknownCommand` if it is no command;
/// `WordCount` if the command takes more or fewer words; `BadField` at the first word that is no number, no class, no
/// occupancy or no cause;
/// `AllocRange` outside 1024 to 16383, `OnuRange` above 1022, and what [`Descriptor::new`] refuses.
pub fn read_line(ports: usize, line: &[u8]) -> Reading
    ensures { result ≡ read_line ports line.now }
{
    match front_of(ports, line) {
        Front::Nothing => Reading::Nothing,
        Front::Refused(refusal) => Reading::Refused(refusal),
        Front::Names { port, rest } => request_of(port, rest),
    }
}

/// Reads a line that requests a map or brings a report, of which it appends the occupancies to the empty list. `None` for
/// any other line, and for one that is refused: then [`read_line`] reads it. An event is large, so these lines, which come
/// in each frame, are read without one.
pub fn read_frame_line(ports: usize, line: &[u8], occ: &mut Occupancies) -> Option<FrameCommand>
    requires { occ.old ≡ [] }
    ensures { MatchOption result
        (IsOtherReading (read_line ports line.now))
        (λ asked. read_line ports line.now ≡ asks_in asked occ.new) }
{
    match front_of(ports, line) {
        Front::Names { port, rest } => frame_line_of(port, rest, occ),
        Front::Nothing | Front::Refused(_) => None,
    }
}

/// A line reads the same as its first 4,097 bytes, so a reader may drop the rest.
pub fn long_lines()
    ensures { (ports : ℕ) (line : List ℕ) → read_line ports (take 4097 line)
        ≡ read_line ports line }
{}
