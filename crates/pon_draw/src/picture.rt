//! The time line of a map.

ghost use Rattle.std.specs.Prelude.{◌≡◌, IfOk, IsNone, IsSome};
ghost use Rattle.pon_draw.specs.Pictures.{IsMapAt};

use crate::drawing::{Drawing, FRAME_WORDS};
use crate::owners::Owners;
use crate::parts::{bursts_of, grant_places};
use crate::svg::svg_text;
use crate::timeline::{parts_text, rows_text};
use pon_record::RawChapter;
use pon_state::EntryRef;
use pon_units::FrameNo;
use std::alloc::{AllocError, Global};

/// A picture.
#[derive(Debug, Drop)]
pub struct Picture {
    /// The picture as text of at most 80 columns.
    pub text: String,
    /// The picture as SVG.
    pub svg: String,
}

// Returns the line about the whole map.
fn heading_of(
    alloc: Global,
    chapter: &RawChapter,
    drawing: &Drawing<'_>,
    frame: FrameNo,
) -> Result<String, AllocError> {
    let (port, number) = (chapter.port.get(), chapter.number);
    let (frame, gap) = (frame.get(), drawing.gap);
    let (bursts, structures) = (drawing.bursts.len(), drawing.structures.len());
    let used = drawing.used();
    format!(in alloc;
        "port {port} chapter {number} frame {frame} gap {gap} bursts {bursts} structures {structures} words {used} of {FRAME_WORDS}"
    )
}

// Returns the picture of a map that is drawn, under its heading.
fn picture_of(alloc: Global, heading: &str, drawing: &Drawing<'_>) -> Result<Picture, AllocError> {
    let svg = svg_text(alloc, heading, drawing)?;
    let rows = rows_text(alloc, drawing)?;
    let parts = parts_text(alloc, drawing)?;
    let text = format!(in alloc; "{heading}\n\n{rows}\n{parts}")?;
    Ok(Picture { text, svg })
}

/// Draws the map at the place `entry` of a chapter, counted from 0. `None` exactly if there is no map.
///
/// # Errors
///
/// If memory is refused.
pub fn picture_at(
    alloc: Global,
    chapter: &RawChapter,
    entry: usize,
) -> Result<Option<Picture>, AllocError>
    ensures drawn { IfOk result (λ drawn. IsSome drawn → IsMapAt chapter.now.body.entries entry) }
    ensures none { IfOk result (λ drawn. IsNone drawn → IsMapAt chapter.now.body.entries entry → ⊥) }
{
    let Some(found) = chapter.entries.get(entry) else {
        return Ok(None);
    };
    let EntryRef::Map(made) = found.as_ref() else {
        return Ok(None);
    };
    let structures = made.map.rows();
    let places = grant_places(alloc, &made.map)?;
    let bursts = bursts_of(alloc, structures, &places)?;
    let owners = Owners::before(alloc, chapter, entry)?;
    let drawing = Drawing {
        structures,
        places: &places,
        bursts: &bursts,
        gap: u64::from(chapter.opening.gap.get()),
        owners: &owners,
    };
    let heading = heading_of(alloc, chapter, &drawing, made.frame)?;
    Ok(Some(picture_of(alloc, heading.as_str(), &drawing)?))
}
