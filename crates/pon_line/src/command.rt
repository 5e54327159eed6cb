//! The commands of management lines: what the words after the port request.

ghost use Rattle.std.specs.Prelude.{◌≡◌, [], Ok, Err, MatchOption, MatchResult, ◌≤◌};
ghost use Rattle.std.specs.Option.{SomeIff};
ghost use Rattle.pon_text.specs.Lines.{words_of};
ghost use Rattle.pon_line.specs.Commands.{admit, admit_of, alloc_of, change, change_of, fail_of, no_arguments, remove_of, report_of};
ghost use Rattle.pon_line.specs.Reading.{asks_sure, asks_why, by_command, request_of, shows, takes};
ghost use Rattle.pon_line.specs.Parts.{IsOtherReading, asks_in};
ghost use Rattle.pon_line.specs.Written.{rates_in};

use crate::fault::{LineFault, LineRefusal};
use crate::field::Field;
use crate::fields::{
    FIRST, Rates, alloc_in, descriptor_in, descriptor_words, next_word, number_field, onu_in,
    rate_fields,
};
use crate::occupancies::{NoOccupancies, occupancy_fields};
use crate::reading::{FrameCommand, Reading};
use crate::table::Command;
use pon_admit::{Event, Row};
use pon_dbru::Occupancies;
use pon_descr::Cause;
use pon_text::first_word;
use pon_units::{AllocId, FrameNo, OnuId};

// Returns the event of an `admit`, or the first refusal of its numbers.
#[tactic(auto, unfolding(crate::specs::Commands::admit))]
fn admit(onu: u64, alloc: u64, rates: &Rates) -> Result<Event, LineRefusal>
    ensures { result ≡ admit onu alloc (rates_in rates.now) }
{
    let alloc_id = alloc_in(FIRST + 1, alloc)?;
    let onu = onu_in(FIRST, onu)?;
    let descriptor = descriptor_in(FIRST + 2, rates)?;
    Ok(Event::Admit(Row::new(onu, alloc_id, descriptor)))
}

// Returns the event of a `change`, or the first refusal of its numbers.
#[tactic(auto, unfolding(crate::specs::Commands::change))]
fn change(alloc: u64, rates: &Rates) -> Result<Event, LineRefusal>
    ensures { result ≡ change alloc (rates_in rates.now) }
{
    let alloc_id = alloc_in(FIRST, alloc)?;
    let descriptor = descriptor_in(FIRST + 1, rates)?;
    Ok(Event::Change {
        alloc_id,
        descriptor,
    })
}

// Returns the event that the words after `admit` request.
#[tactic(auto, unfolding(crate::specs::Commands::admit_of))]
fn admit_of(text: &[u8]) -> Result<Event, LineRefusal>
    ensures { result ≡ admit_of (words_of text.now) }
{
    let onu = next_word(text)?;
    let alloc = next_word(onu.rest)?;
    let words = descriptor_words(alloc.rest)?;
    let onu = number_field(FIRST, Field::Onu, onu.word)?;
    let alloc = number_field(FIRST + 1, Field::Alloc, alloc.word)?;
    let rates = rate_fields(FIRST + 2, words)?;
    admit(onu, alloc, &rates)
}

// Returns the event that the words after `change` request.
#[tactic(auto, unfolding(crate::specs::Commands::change_of))]
fn change_of(text: &[u8]) -> Result<Event, LineRefusal>
    ensures { result ≡ change_of (words_of text.now) }
{
    let alloc = next_word(text)?;
    let words = descriptor_words(alloc.rest)?;
    let alloc = number_field(FIRST, Field::Alloc, alloc.word)?;
    let rates = rate_fields(FIRST + 1, words)?;
    change(alloc, &rates)
}

// Returns the Alloc-ID that the words after `remove`, `why` or `sure` name.
#[tactic(auto, unfolding(crate::specs::Commands::alloc_of))]
fn alloc_of(text: &[u8]) -> Result<AllocId, LineRefusal>
    ensures { result ≡ alloc_of (words_of text.now) }
{
    let alloc = next_word(text)?;
    if first_word(alloc.rest).is_some() {
        return Err(LineRefusal::from(LineFault::WordCount));
    }
    alloc_in(FIRST, number_field(FIRST, Field::Alloc, alloc.word)?)
}

// Returns the event that the words after `remove` request.
#[tactic(auto, unfolding(crate::specs::Commands::remove_of))]
fn remove_of(text: &[u8]) -> Result<Event, LineRefusal>
    ensures { result ≡ remove_of (words_of text.now) }
{
    let alloc_id = alloc_of(text)?;
    Ok(Event::Remove { alloc_id })
}

// The frame and the ONU of a report.
struct Reporter {
    frame: FrameNo,
    onu: OnuId,
}

// Reads the words after `report`: appends the occupancies to the empty list, and returns the frame and the ONU.
#[tactic(auto, unfolding(crate::specs::Commands::report_of, crate::specs::Commands::report))]
fn read_report(text: &[u8], occ: &mut Occupancies) -> Result<Reporter, LineRefusal>
    requires { occ.old ≡ [] }
    ensures { MatchResult result
        (λ by. report_of (words_of text.now) ≡ Ok (Event.Report by.frame by.onu occ.new))
        (λ refusal. report_of (words_of text.now) ≡ Err refusal) }
{
    let frame = next_word(text)?;
    let onu = next_word(frame.rest)?;
    let read = occupancy_fields(onu.rest, occ);
    if let Err(NoOccupancies::Count) = read {
        return Err(LineRefusal::from(LineFault::WordCount));
    }
    let frame = number_field(FIRST, Field::Frame, frame.word)?;
    let number = number_field(FIRST + 1, Field::Onu, onu.word)?;
    if let Err(NoOccupancies::Word(refusal)) = read {
        return Err(refusal);
    }
    let onu = onu_in(FIRST + 1, number)?;
    Ok(Reporter {
        frame: FrameNo::new(frame),
        onu,
    })
}

// Returns the request of the words after `report`.
fn report_request(port: usize, text: &[u8]) -> Reading
    ensures { result ≡ takes port (report_of (words_of text.now)) }
{
    let mut occ = Occupancies::new();
    match read_report(text, &mut occ) {
        Ok(Reporter { frame, onu }) => Reading::Asks {
            port,
            event: Event::Report { frame, onu, occ },
        },
        Err(refusal) => Reading::Refused(refusal),
    }
}

// Returns the cause of a failure of a number, or `None` outside 1 to 9.
fn cause_of(number: u64) -> Option<Cause>
    ensures { SomeIff result ((1 ≤ number) × (number ≤ 9)) number }
{
    Cause::new(u8::try_from(number).ok()?)
}

// Returns the event that the words after `fail` request.
#[tactic(auto, unfolding(crate::specs::Commands::fail_of))]
fn fail_of(text: &[u8]) -> Result<Event, LineRefusal>
    ensures { result ≡ fail_of (words_of text.now) }
{
    let cause = next_word(text)?;
    if first_word(cause.rest).is_some() {
        return Err(LineRefusal::from(LineFault::WordCount));
    }
    match cause_of(number_field(FIRST, Field::Cause, cause.word)?) {
        Some(cause) => Ok(Event::Fail { cause }),
        None => Err(LineFault::BadField.at(FIRST, Field::Cause)),
    }
}

// Returns the event, or `WordCount` if a word follows.
fn no_arguments(text: &[u8], event: Event) -> Result<Event, LineRefusal>
    ensures { result ≡ no_arguments event (words_of text.now) }
{
    match first_word(text) {
        None => Ok(event),
        Some(_) => Err(LineRefusal::from(LineFault::WordCount)),
    }
}

// Returns the request that a port take the event, or the refusal of the line.
fn takes(port: usize, event: Result<Event, LineRefusal>) -> Reading
    ensures { result ≡ takes port event }
{
    match event {
        Ok(event) => Reading::Asks { port, event },
        Err(refusal) => Reading::Refused(refusal),
    }
}

// Returns the request, or `WordCount` if a word follows.
fn shows(text: &[u8], asked: Reading) -> Reading
    ensures { result ≡ shows asked (words_of text.now) }
{
    match first_word(text) {
        None => asked,
        Some(_) => Reading::Refused(LineRefusal::from(LineFault::WordCount)),
    }
}

// Returns the request of the words after `why`.
fn asks_why(port: usize, text: &[u8]) -> Reading
    ensures { result ≡ asks_why port (alloc_of (words_of text.now)) }
{
    match alloc_of(text) {
        Ok(alloc_id) => Reading::AsksWhy { port, alloc_id },
        Err(refusal) => Reading::Refused(refusal),
    }
}

// Returns the request of the words after `sure`.
fn asks_sure(port: usize, text: &[u8]) -> Reading
    ensures { result ≡ asks_sure port (alloc_of (words_of text.now)) }
{
    match alloc_of(text) {
        Ok(alloc_id) => Reading::AsksSure { port, alloc_id },
        Err(refusal) => Reading::Refused(refusal),
    }
}

// Returns the request of a command and the words after it, or their first refusal. An event is large, so `report` builds it
// within the request.
fn by_command(port: usize, command: Command, text: &[u8]) -> Reading
    ensures { result ≡ by_command port command (words_of text.now) }
{
    match command {
        Command::Admit => takes(port, admit_of(text)),
        Command::Change => takes(port, change_of(text)),
        Command::Remove => takes(port, remove_of(text)),
        Command::Report => report_request(port, text),
        Command::Map => takes(port, no_arguments(text, Event::MakeMap)),
        Command::Fail => takes(port, fail_of(text)),
        Command::Restore => takes(port, no_arguments(text, Event::Restore)),
        Command::Cert => shows(text, Reading::AsksCert { port }),
        Command::Show => shows(text, Reading::AsksState { port }),
        Command::List => shows(text, Reading::AsksRows { port }),
        Command::Why => asks_why(port, text),
        Command::Sure => asks_sure(port, text),
        Command::Help => shows(text, Reading::AsksHelp { port }),
        Command::Stop => shows(text, Reading::AsksStop { port }),
    }
}

/// Returns the request of the words after the port, or their first refusal.
#[tactic(auto, unfolding(crate::specs::Reading::request_of))]
pub(crate) fn request_of(port: usize, text: &[u8]) -> Reading
    ensures { result ≡ request_of port (words_of text.now) }
{
    let Some(name) = first_word(text) else {
        return Reading::Refused(LineRefusal::from(LineFault::WordCount));
    };
    match Command::of_word(name.word) {
        Some(command) => by_command(port, command, name.rest),
        None => Reading::Refused(LineRefusal::no_command()),
    }
}

// Returns the request for a map, or `None` if a word follows.
fn map_line(port: usize, text: &[u8]) -> Option<FrameCommand>
    ensures { MatchOption result
        (IsOtherReading (takes port (no_arguments Event.MakeMap (words_of text.now))))
        (λ asked. (asked ≡ FrameCommand.Map port) × (words_of text.now ≡ [])) }
{
    match first_word(text) {
        None => Some(FrameCommand::Map { port }),
        Some(_) => None,
    }
}

// Returns the report of the words after `report`, or `None` if they write none.
fn report_line(port: usize, text: &[u8], occ: &mut Occupancies) -> Option<FrameCommand>
    requires { occ.old ≡ [] }
    ensures { MatchOption result
        (IsOtherReading (takes port (report_of (words_of text.now))))
        (λ asked. takes port (report_of (words_of text.now)) ≡ asks_in asked occ.new) }
{
    match read_report(text, occ) {
        Ok(Reporter { frame, onu }) => Some(FrameCommand::Report { port, frame, onu }),
        Err(_) => None,
    }
}

/// Returns the request for a map or the report that the words after the port are, and appends the occupancies to the empty
/// list; `None` for any other words.
#[tactic(auto, unfolding(crate::specs::Reading::request_of))]
pub(crate) fn frame_line_of(port: usize, text: &[u8], occ: &mut Occupancies) -> Option<FrameCommand>
    requires { occ.old ≡ [] }
    ensures { MatchOption result
        (IsOtherReading (request_of port (words_of text.now)))
        (λ asked. request_of port (words_of text.now) ≡ asks_in asked occ.new) }
{
    let name = first_word(text)?;
    match Command::of_word(name.word)? {
        Command::Map => map_line(port, name.rest),
        Command::Report => report_line(port, name.rest, occ),
        _ => None,
    }
}
