//! What a picture of a map is made of.

use crate::owners::Owners;
use crate::parts::{Burst, HEADER_WORDS};
use pon_admit::Row;
use pon_bwmap::Alloc;
use pon_descr::Class;
use std::fmt::{self, Display, Formatter, Write};

/// Words of a frame.
pub(crate) const FRAME_WORDS: u64 = pon_units::FRAME_WORDS as u64;

/// Nanoseconds of a frame.
const FRAME_NANOSECONDS: u64 = 125_000;

/// The grant of an Alloc-ID: its first word, and its words.
#[derive(Clone, Copy)]
pub(crate) struct Grant {
    pub(crate) id: u16,
    pub(crate) first: u64,
    pub(crate) words: u64,
}

/// A map that is drawn: its structures, the places of their grants, its bursts, the gap before each, and the rows before it.
#[derive(Clone, Copy)]
pub(crate) struct Drawing<'a> {
    pub(crate) structures: &'a [Alloc],
    pub(crate) places: &'a [u64],
    pub(crate) bursts: &'a [Burst],
    pub(crate) gap: u64,
    pub(crate) owners: &'a Owners,
}

impl Drawing<'_> {
    /// The row of a structure, counted from 0; `None` if its Alloc-ID is not admitted.
    pub(crate) fn row_of(&self, place: usize) -> Option<Row> {
        self.owners.row_of(self.structures.get(place)?.id())
    }

    /// The grant of a structure, counted from 0.
    pub(crate) fn grant(&self, place: usize) -> Option<Grant> {
        let structure = self.structures.get(place)?;
        Some(Grant {
            id: structure.id(),
            first: *self.places.get(place)?,
            words: u64::from(structure.grant()),
        })
    }

    /// The words that the map assigns: those before the end of the last burst.
    pub(crate) fn used(&self) -> u64 {
        match self.bursts.last() {
            Some(burst) => burst.trailer.saturating_add(HEADER_WORDS),
            None => 0,
        }
    }
}

/// A time from the beginning of the frame, in microseconds with three decimal places, rounded half up.
#[derive(Clone, Copy)]
pub(crate) struct Micros(pub(crate) u64);

impl Micros {
    /// The nanoseconds of the words.
    pub(crate) fn nanoseconds(self) -> u64 {
        let words = self.0.saturating_mul(FRAME_NANOSECONDS);
        words.saturating_add(FRAME_WORDS / 2) / FRAME_WORDS
    }
}

impl Display for Micros {
    fn fmt<W: Write>(&self, f: &mut Formatter<W>) -> fmt::Result {
        let nanoseconds = self.nanoseconds();
        let (micros, rest) = (nanoseconds / 1_000, nanoseconds % 1_000);
        write!(f, "{micros:>3}.{rest:03}")
    }
}

/// The name of the ONU of a row, or of one that is not known.
#[derive(Clone, Copy)]
pub(crate) struct OnuName(pub(crate) Option<Row>);

impl Display for OnuName {
    fn fmt<W: Write>(&self, f: &mut Formatter<W>) -> fmt::Result {
        match self.0 {
            Some(row) => {
                let onu = row.onu.get();
                write!(f, "ONU {onu}")
            }
            None => f.write_str("no ONU"),
        }
    }
}

/// The class of a row in words.
pub(crate) fn class_name(row: Option<Row>) -> &'static str {
    match row {
        None => "not admitted",
        Some(row) => match row.descriptor.class() {
            Class::Plain => "guaranteed only",
            Class::NonAssured => "non-assured",
            Class::BestEffort => "best effort",
        },
    }
}
