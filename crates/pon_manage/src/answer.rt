//! The text that one line gives at a plant.

ghost use Rattle.std.specs.Prelude.{◌≡◌, ◌<◌, ◌++◌, IfOk, IsSome, None, OnOk, OnErr, Some, length, slice_get};
ghost use Rattle.pon_history.specs.Chapters.{present_state};
ghost use Rattle.pon_history.specs.Last.{last_map};
ghost use Rattle.pon_line.specs.Parts.{asks_in};
ghost use Rattle.pon_line.specs.Places.{of_line};
ghost use Rattle.pon_line.specs.Reading.{AsksWithin};
ghost use Rattle.pon_plant.specs.Turning.{KeepsChapters};
ghost use Rattle.pon_manage.specs.Text.{AddsAnswer, cert_line, last_reply, refusal_line, state_line};
ghost use Rattle.pon_manage.specs.Help.{help_text};
ghost use Rattle.pon_manage.specs.Refusals.{cert_refusal, event_refusal, refusal_in, sure_refusal, why_refusal};
ghost use Rattle.pon_manage.specs.Rows.{list_text};
ghost use Rattle.pon_manage.specs.Sures.{sure_in, sure_line};
ghost use Rattle.pon_manage.specs.Whys.{why_line};
ghost use Rattle.pon_why.specs.Lasts.{why_of};

use crate::help::append_help;
use crate::list::append_rows;
use crate::show::{append_shown, shown_of};
use crate::sure::{append_sure, sure_in};
use crate::texts::{append_cert, append_refusal, append_reply};
use crate::why::append_why;
use pon_dbru::Occupancies;
use pon_descr::Refusal;
use pon_line::{FrameCommand, LineFault, LineRefusal, Reading};
use pon_plant::{Plant, Step, StepFault};
use pon_port::{Entry, Event, Port};
use pon_sure::Sure;
use pon_units::{AllocId, MAX_PORTS, PortNo};
use pon_why::{LastWhy, explain_last, row_views};
use std::alloc::AllocError;

// Returns the last entry of a port.
fn last_entry(plant: &Plant, port: PortNo) -> &Entry
    requires { IsSome (last_reply (slice_get plant.now port)) }
    ensures { last_reply (slice_get plant.now port) ≡ Some result.now.reply }
{
    plant.port(port).unwrap().history().last().unwrap()
}

/// Returns the number of the port at an index.
pub(crate) fn port_no(plant: &Plant, place: usize) -> PortNo
    requires { place < length plant.now }
    ensures { result ≡ place }
{
    prove!(plant.count() <= MAX_PORTS);
    PortNo::at(place)
}

// Appends the refusal of a line, and returns it.
fn refuse_line(
    replies: &mut Vec<u8>,
    refusal: LineRefusal,
) -> Result<Option<LineRefusal>, AllocError>
    ensures ok { OnOk result (replies.new.items
        ≡ replies.old.items ++ refusal_line refusal.fault) }
    ensures err { OnErr result (replies.new.items ≡ replies.old.items) }
    ensures refusal { IfOk result (λ told. told ≡ Some refusal) }
{
    append_refusal(replies, refusal.fault)?;
    Ok(Some(refusal))
}

// Appends the refusal for a fault of no single word, and returns it.
fn refuse(replies: &mut Vec<u8>, fault: LineFault) -> Result<Option<LineRefusal>, AllocError>
    ensures ok { OnOk result (replies.new.items ≡ replies.old.items ++ refusal_line fault) }
    ensures err { OnErr result (replies.new.items ≡ replies.old.items) }
    ensures refusal { IfOk result (λ told. told ≡ Some (of_line fault)) }
{
    refuse_line(replies, LineRefusal::from(fault))
}

// Passes an event to a port, and appends its reply or its refusal.
fn answer_event(
    plant: &mut Plant,
    port: usize,
    event: Event,
    room: &mut Vec<u8>,
    replies: &mut Vec<u8>,
) -> Result<Option<LineRefusal>, AllocError>
    requires { port < length plant.old }
    ensures ok { OnOk result (AddsAnswer plant.old (Reading.Asks port event)
        plant.new replies.old.items replies.new.items) }
    ensures err { OnErr result (replies.new.items ≡ replies.old.items) }
    ensures refusal { IfOk result (λ told. told ≡ event_refusal (slice_get plant.old port) event) }
    ensures path { KeepsChapters plant.old plant.new }
{
    let port = port_no(plant, port);
    match plant.keep(Step { port, event }) {
        Ok(index) => {
            append_reply(replies, room, index, last_entry(plant, port))?;
            Ok(None)
        }
        Err(StepFault::Refused(refusal)) => match refusal {
            Refusal::OutOfMemory => Err(AllocError),
            told => refuse(replies, LineFault::Port(told)),
        },
        Err(StepFault::NoSuchPort) => refuse(replies, LineFault::NoSuchPort),
    }
}

// Appends the certificate of the last map, or `NoMap`.
fn show_cert(port: &Port, replies: &mut Vec<u8>) -> Result<Option<LineRefusal>, AllocError>
    ensures ok { OnOk result (replies.new.items
        ≡ replies.old.items ++ cert_line (last_map port.now)) }
    ensures err { OnErr result (replies.new.items ≡ replies.old.items) }
    ensures refusal { IfOk result (λ told. told ≡ cert_refusal (last_map port.now)) }
{
    match port.last() {
        None => refuse(replies, LineFault::NoMap),
        Some((made, na, be)) => {
            append_cert(replies, made, na, be)?;
            Ok(None)
        }
    }
}

// Appends the present state. It is never refused.
fn show_state(port: &Port, replies: &mut Vec<u8>) -> Result<Option<LineRefusal>, AllocError>
    ensures ok { OnOk result (replies.new.items
        ≡ replies.old.items ++ state_line (present_state port.now)) }
    ensures err { OnErr result (replies.new.items ≡ replies.old.items) }
    ensures refusal { IfOk result (λ told. told ≡ None) }
{
    append_shown(replies, &shown_of(port.state()))?;
    Ok(None)
}

// Appends the list of the admitted Alloc-IDs. It is never refused.
fn show_rows(port: &Port, replies: &mut Vec<u8>) -> Result<Option<LineRefusal>, AllocError>
    ensures ok { OnOk result (replies.new.items
        ≡ replies.old.items ++ list_text (present_state port.now)) }
    ensures err { OnErr result (replies.new.items ≡ replies.old.items) }
    ensures refusal { IfOk result (λ told. told ≡ None) }
{
    let views = row_views(*replies.allocator(), port.state())?;
    append_rows(replies, &views)?;
    Ok(None)
}

// Appends the list of all lines. It is never refused.
fn show_help(replies: &mut Vec<u8>) -> Result<Option<LineRefusal>, AllocError>
    ensures ok { OnOk result (replies.new.items ≡ replies.old.items ++ help_text) }
    ensures err { OnErr result (replies.new.items ≡ replies.old.items) }
    ensures refusal { IfOk result (λ told. told ≡ None) }
{
    append_help(replies)?;
    Ok(None)
}

// Returns the refusal of an explanation, if it is one.
fn why_refusal(why: &LastWhy) -> Option<LineRefusal>
    ensures { result ≡ why_refusal why.now }
{
    match why {
        LastWhy::NoMap => Some(LineRefusal::from(LineFault::NoMap)),
        LastWhy::NoSuchAlloc => Some(LineRefusal::from(LineFault::Port(Refusal::NoSuchAlloc))),
        LastWhy::Explained(_) => None,
    }
}

// Appends the explanation of the last map for an Alloc-ID.
fn show_why(
    port: &Port,
    alloc_id: AllocId,
    replies: &mut Vec<u8>,
) -> Result<Option<LineRefusal>, AllocError>
    ensures ok { OnOk result (replies.new.items ≡ replies.old.items
        ++ why_line (why_of port.now.opening port.now.entries alloc_id)) }
    ensures err { OnErr result (replies.new.items ≡ replies.old.items) }
    ensures refusal { IfOk result (λ told. told
        ≡ why_refusal (why_of port.now.opening port.now.entries alloc_id)) }
{
    let alloc = *replies.allocator();
    match explain_last(alloc, port.opening(), port.history(), alloc_id) {
        Ok(why) => {
            append_why(replies, &why)?;
            Ok(why_refusal(&why))
        }
        Err(_) => Err(AllocError),
    }
}

// Returns the refusal of what is sure, if it is one.
fn sure_refusal(sure: &Option<Sure>) -> Option<LineRefusal>
    ensures { result ≡ sure_refusal sure.now }
{
    match sure {
        None => Some(LineRefusal::from(LineFault::Port(Refusal::NoSuchAlloc))),
        Some(_) => None,
    }
}

// Appends what is sure for an Alloc-ID.
fn show_sure(
    port: &Port,
    alloc_id: AllocId,
    replies: &mut Vec<u8>,
) -> Result<Option<LineRefusal>, AllocError>
    ensures ok { OnOk result (replies.new.items ≡ replies.old.items
        ++ sure_line alloc_id (sure_in (present_state port.now) alloc_id)) }
    ensures err { OnErr result (replies.new.items ≡ replies.old.items) }
    ensures refusal { IfOk result (λ told. told
        ≡ sure_refusal (sure_in (present_state port.now) alloc_id)) }
{
    let sure = sure_in(port.state(), alloc_id);
    append_sure(replies, alloc_id, &sure)?;
    Ok(sure_refusal(&sure))
}

// Returns the port at an index.
fn port_at(plant: &Plant, place: usize) -> &Port
    requires { place < length plant.now }
    ensures { slice_get plant.now place ≡ Some result.now }
{
    plant.port(port_no(plant, place)).unwrap()
}

/// Appends the text of a reading, and returns the refusal if it is one; `room` is a buffer for the bytes of a map. `Err` only
/// if memory is refused; then the replies are unchanged, and of the plant it is only known that each port keeps its chapter,
/// perhaps with one more entry.
pub(crate) fn answer(
    plant: &mut Plant,
    reading: Reading,
    room: &mut Vec<u8>,
    replies: &mut Vec<u8>,
) -> Result<Option<LineRefusal>, AllocError>
    requires { AsksWithin (length plant.old) reading }
    ensures ok { OnOk result (AddsAnswer plant.old reading plant.new
        replies.old.items replies.new.items) }
    ensures err { OnErr result (replies.new.items ≡ replies.old.items) }
    ensures refusal { IfOk result (λ told. told ≡ refusal_in plant.old reading) }
    ensures path { KeepsChapters plant.old plant.new }
{
    match reading {
        Reading::Nothing => Ok(None),
        Reading::Refused(refusal) => refuse_line(replies, refusal),
        Reading::Asks { port, event } => answer_event(plant, port, event, room, replies),
        Reading::AsksCert { port } => show_cert(port_at(plant, port), replies),
        Reading::AsksState { port } => show_state(port_at(plant, port), replies),
        Reading::AsksRows { port } => show_rows(port_at(plant, port), replies),
        Reading::AsksHelp { port: _ } => show_help(replies),
        Reading::AsksStop { port: _ } => refuse_line(replies, LineRefusal::no_command()),
        Reading::AsksWhy { port, alloc_id } => show_why(port_at(plant, port), alloc_id, replies),
        Reading::AsksSure { port, alloc_id } => show_sure(port_at(plant, port), alloc_id, replies),
    }
}

/// Appends the text of a line that each frame brings, with the occupancies of its report, and returns the refusal if it is
/// one; `room` is a buffer for the bytes of a map. `Err` as that of [`answer`].
pub(crate) fn answer_frame_line(
    plant: &mut Plant,
    asked: FrameCommand,
    occ: Occupancies,
    room: &mut Vec<u8>,
    replies: &mut Vec<u8>,
) -> Result<Option<LineRefusal>, AllocError>
    requires { AsksWithin (length plant.old) (asks_in asked occ) }
    ensures ok { OnOk result (AddsAnswer plant.old (asks_in asked occ) plant.new
        replies.old.items replies.new.items) }
    ensures err { OnErr result (replies.new.items ≡ replies.old.items) }
    ensures refusal { IfOk result (λ told. told ≡ refusal_in plant.old (asks_in asked occ)) }
    ensures path { KeepsChapters plant.old plant.new }
{
    match asked {
        FrameCommand::Map { port } => answer_event(plant, port, Event::MakeMap, room, replies),
        FrameCommand::Report { port, frame, onu } => {
            let event = Event::Report { frame, onu, occ };
            answer_event(plant, port, event, room, replies)
        }
    }
}
