//! Views of a recording, which is audited by the way.

ghost use Rattle.std.specs.Prelude.{◌≡◌, ◌≢◌, IfOk};
ghost use Rattle.pon_audit.specs.Verdicts.{IsVerdict};
ghost use Rattle.pon_web.specs.Handing.{HandsNothing};
ghost use Rattle.pon_web.specs.Views.{TellsView};
ghost use Rattle.pon_web.specs.declared.status.TheConstants.{MEMORY, NO_ALLOC};

use crate::asked::{Asked, Maps, curves_of, format_of, reasons_of};
use crate::handing::hand_out;
use crate::status::{BAD, GOOD, MEMORY, MISSING, NO_ALLOC};
use pon_audit::KeptEnds;
use pon_device::{DevWrite, DeviceFault, MemWrite, write_text};
use pon_look::{
    Answer, LoadsQuery, Missing, Picture, RatesQuery, Viewed, info_in_order, loads_in_order,
    rates_in_order, why_in_order,
};
use std::alloc::{AllocError, Global};

/// A view of a recording, and its text.
#[derive(Drop)]
struct View {
    viewed: Viewed<Answer>,
    text: MemWrite,
}

// Returns the drawing of a picture, or its lines.
fn text_of(picture: &Picture, is_drawn: bool) -> &[u8] {
    if is_drawn {
        picture.svg.as_bytes()
    } else {
        picture.text.as_bytes()
    }
}

// Writes the curves of an Alloc-ID, as lines or as a drawing.
fn write_curves<W: DevWrite>(
    alloc: Global,
    kept: KeptEnds,
    recording: &[u8],
    query: LoadsQuery,
    is_drawn: bool,
    writer: &mut W,
) -> Result<Viewed<Answer>, DeviceFault>
    ensures { IfOk result (λ viewed. IsVerdict recording.now viewed.verdict) }
{
    let Viewed { verdict, shown } = loads_in_order(alloc, kept, recording, query)?;
    let shown = match shown {
        Ok(picture) => {
            write_text(writer, text_of(&picture, is_drawn))?;
            Answer::Shown
        }
        Err(missing) => Answer::NotFound(missing),
    };
    Ok(Viewed { verdict, shown })
}

// Writes a view of a recording, whose audit keeps these ends. Returns its verdict, and what is missing.
fn write_view<W: DevWrite>(
    alloc: Global,
    kept: KeptEnds,
    recording: &[u8],
    asked: &Asked,
    writer: &mut W,
) -> Result<Viewed<Answer>, DeviceFault>
    ensures { IfOk result (λ viewed. IsVerdict recording.now viewed.verdict) }
{
    match *asked {
        Asked::Chapters(format) => info_in_order(alloc, kept, recording, format, writer),
        Asked::Rates(query, format) => {
            rates_in_order(alloc, kept, recording, query, format, writer)
        }
        Asked::Reasons(query, format) => {
            why_in_order(alloc, kept, recording, query, format, writer)
        }
        Asked::Curves(query) => write_curves(alloc, kept, recording, query, false, writer),
        Asked::Drawing(query) => write_curves(alloc, kept, recording, query, true, writer),
    }
}

// Makes a view of a recording, whose audit keeps these ends.
fn view_keeping(
    alloc: Global,
    kept: KeptEnds,
    recording: &[u8],
    asked: &Asked,
) -> Result<View, DeviceFault>
    ensures { IfOk result (λ view. IsVerdict recording.now view.viewed.verdict) }
{
    let mut text = MemWrite::new(alloc, usize::MAX, Vec::new(alloc));
    let viewed = write_view(alloc, kept, recording, asked, &mut text)?;
    Ok(View { viewed, text })
}

// Makes a view of a recording. `Err` only if memory is refused, or a sum is 2^64 or more.
fn view_of(alloc: Global, recording: &[u8], asked: &Asked) -> Result<View, AllocError>
    ensures { IfOk result (λ view. IsVerdict recording.now view.viewed.verdict) }
{
    if let Ok(view) = view_keeping(alloc, KeptEnds::OfPorts, recording, asked) {
        return Ok(view);
    }
    match view_keeping(alloc, KeptEnds::OfChapters, recording, asked) {
        Ok(view) => Ok(view),
        Err(_) => Err(AllocError),
    }
}

// Makes the line about what a recording does not have.
fn missing_line(alloc: Global, missing: &Missing) -> Result<String, AllocError> {
    format!(in alloc; "{missing}\n")
}

// Hands out a view of a recording, or the line about what the recording does not have.
fn tell_view(
    alloc: Global,
    recording: &[u8],
    asked: &Asked,
    room: &mut [u8],
    length: &mut usize,
) -> u8
    ensures told { result ≢ MEMORY → TellsView recording.now result room.old room.new length.new }
    ensures memory { result ≡ MEMORY → HandsNothing room.old room.new length.old length.new }
{
    let Ok(View { viewed, text }) = view_of(alloc, recording, asked) else {
        return MEMORY;
    };
    match viewed.shown {
        Answer::Shown => {
            hand_out(text.bytes(), room, length);
            if viewed.verdict.is_good() { GOOD } else { BAD }
        }
        Answer::NotFound(missing) => {
            let Ok(line) = missing_line(alloc, &missing) else {
                return MEMORY;
            };
            hand_out(line.as_bytes(), room, length);
            MISSING
        }
    }
}

/// Shows the chapters of a recording, up to the first fault of its format. The answer is what `olt info` prints, with
/// `form` 0 as text, with 1 as JSON. Returns `GOOD` if the recording is good, `BAD` if not, or `MEMORY`.
#[unsafe(no_mangle)]
pub extern "C" fn pon_web_info(
    alloc: Global,
    recording: &[u8],
    form: u8,
    room: &mut [u8],
    length: &mut usize,
) -> u8
    ensures told { result ≢ MEMORY → TellsView recording.now result room.old room.new length.new }
    ensures memory { result ≡ MEMORY → HandsNothing room.old room.new length.old length.new }
{
    tell_view(
        alloc,
        recording,
        &Asked::Chapters(format_of(form)),
        room,
        length,
    )
}

/// Sums up the maps of a recording for each Alloc-ID. The answer is what `olt rates` prints for a port, or for each if `port`
/// is 64 or more, an Alloc-ID, or each for 0, and the frames `from` to `to`; with `form` 0 as text, with 1 as JSON. Returns
/// `GOOD` if the recording is good, `BAD` if not; `MISSING` with a line of text if it has no such map; or `MEMORY`, also
/// for a sum of 2^64 or more.
#[unsafe(no_mangle)]
pub extern "C" fn pon_web_rates(
    alloc: Global,
    recording: &[u8],
    port: u8,
    alloc_id: u16,
    from: u64,
    to: u64,
    form: u8,
    room: &mut [u8],
    length: &mut usize,
) -> u8
    ensures told { result ≢ MEMORY → TellsView recording.now result room.old room.new length.new }
    ensures memory { result ≡ MEMORY → HandsNothing room.old room.new length.old length.new }
{
    let query = RatesQuery::from(Maps {
        port,
        alloc_id,
        from,
        to,
    });
    tell_view(
        alloc,
        recording,
        &Asked::Rates(query, format_of(form)),
        room,
        length,
    )
}

/// Explains a map of a recording. The answer is what `olt why` prints for a port, or the lowest one with such a map if `port`
/// is 64 or more, a frame, or the last map for 2^64 - 1, and an Alloc-ID, or each for 0; with `form` 0 as text, with 1 as
/// JSON. Returns as [`pon_web_rates`] does.
#[unsafe(no_mangle)]
pub extern "C" fn pon_web_why(
    alloc: Global,
    recording: &[u8],
    port: u8,
    frame: u64,
    alloc_id: u16,
    form: u8,
    room: &mut [u8],
    length: &mut usize,
) -> u8
    ensures told { result ≢ MEMORY → TellsView recording.now result room.old room.new length.new }
    ensures memory { result ≡ MEMORY → HandsNothing room.old room.new length.old length.new }
{
    tell_view(
        alloc,
        recording,
        &reasons_of(port, frame, alloc_id, form),
        room,
        length,
    )
}

/// Draws what an Alloc-ID was guaranteed and granted, and the words that waited. The answer is what `olt loads` prints for a
/// port, or the lowest one that has the Alloc-ID if `port` is 64 or more, and the frames `from` to `to`; with `form` 2 it is
/// the SVG that `olt loads` writes. Returns as [`pon_web_rates`] does, or `NO_ALLOC` if no Alloc-ID has this number.
#[unsafe(no_mangle)]
pub extern "C" fn pon_web_loads(
    alloc: Global,
    recording: &[u8],
    port: u8,
    alloc_id: u16,
    from: u64,
    to: u64,
    form: u8,
    room: &mut [u8],
    length: &mut usize,
) -> u8
    ensures told { result ≢ MEMORY → result ≢ NO_ALLOC
        → TellsView recording.now result room.old room.new length.new }
    ensures memory { result ≡ MEMORY → HandsNothing room.old room.new length.old length.new }
    ensures none { result ≡ NO_ALLOC → HandsNothing room.old room.new length.old length.new }
{
    match curves_of(
        &Maps {
            port,
            alloc_id,
            from,
            to,
        },
        form,
    ) {
        Some(asked) => tell_view(alloc, recording, &asked, room, length),
        None => NO_ALLOC,
    }
}
