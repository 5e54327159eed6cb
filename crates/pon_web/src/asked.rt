//! What the host asks of a recording.

use pon_look::{Format, LoadsQuery, RatesQuery, WhyQuery};
use pon_units::{AllocId, FrameNo, PortNo};

/// An answer in lines of text. Each other form but `PICTURE` is a JSON object on each line.
const TEXT: u8 = 0;

/// A drawing in SVG.
const PICTURE: u8 = 2;

/// The number of the frame for the last map.
const LAST_MAP: u64 = u64::MAX;

/// A view of a recording, with its query.
#[derive(Clone, Copy)]
pub(crate) enum Asked {
    /// Its chapters.
    Chapters(Format),
    /// What its maps add up to for each Alloc-ID.
    Rates(RatesQuery, Format),
    /// From what the words of a map follow.
    Reasons(WhyQuery, Format),
    /// What one Alloc-ID was guaranteed and granted, in lines.
    Curves(LoadsQuery),
    /// The same as a drawing.
    Drawing(LoadsQuery),
}

/// The maps of a recording that the host names: a port, or 64 or more for each port; an Alloc-ID, or 0 for each; the first and
/// the last frame.
#[derive(Clone, Copy)]
pub(crate) struct Maps {
    pub port: u8,
    pub alloc_id: u16,
    pub from: u64,
    pub to: u64,
}

impl From<Maps> for RatesQuery {
    fn from(maps: Maps) -> RatesQuery {
        RatesQuery {
            port: PortNo::new(maps.port),
            alloc: AllocId::new(maps.alloc_id),
            from: Some(maps.from),
            to: Some(maps.to),
        }
    }
}

/// Returns the form that the host names.
pub(crate) fn format_of(form: u8) -> Format {
    if form == TEXT {
        Format::Text
    } else {
        Format::Json
    }
}

/// Returns the view of the curves of an Alloc-ID; `None` if the maps name no Alloc-ID.
pub(crate) fn curves_of(maps: &Maps, form: u8) -> Option<Asked> {
    let query = LoadsQuery {
        port: PortNo::new(maps.port),
        alloc_id: AllocId::new(maps.alloc_id)?,
        from: Some(maps.from),
        to: Some(maps.to),
    };
    if form == PICTURE {
        return Some(Asked::Drawing(query));
    }
    Some(Asked::Curves(query))
}

/// Returns the view of a map: of a port, or the lowest one for 64 or more; of a frame, or the last one for `LAST_MAP`; for one
/// Alloc-ID, or for each for 0.
pub(crate) fn reasons_of(port: u8, frame: u64, alloc_id: u16, form: u8) -> Asked {
    let query = WhyQuery {
        port: PortNo::new(port),
        frame: if frame == LAST_MAP {
            None
        } else {
            Some(FrameNo::new(frame))
        },
        alloc: AllocId::new(alloc_id),
    };
    Asked::Reasons(query, format_of(form))
}
