use pon_units::{LINE_RATE, MAX_ALLOC_ID, MAX_OCCUPANCY, MAX_ONU_ID, MIN_ALLOC_ID};
use std::fmt;

/// What a word of a management line is. Its text says so with the range, as `ONU-ID, 0 to 1022`.
#[derive(Clone, Copy, Debug, PartialEq, Eq)]
pub enum Field {
    Port,
    Command,
    Onu,
    Alloc,
    Fixed,
    Assured,
    Max,
    Class,
    Frame,
    /// One of the 1 to 16 occupancies that end a report.
    Occupancy,
    Cause,
}

impl fmt::Display for Field {
    fn fmt<W: fmt::Write>(&self, f: &mut fmt::Formatter<W>) -> fmt::Result {
        match *self {
            Field::Port => f.write_str("number of a port"),
            Field::Command => f.write_str("command"),
            Field::Onu => write!(f, "ONU-ID, 0 to {MAX_ONU_ID}"),
            Field::Alloc => write!(f, "Alloc-ID, {MIN_ALLOC_ID} to {MAX_ALLOC_ID}"),
            Field::Fixed | Field::Assured | Field::Max => {
                write!(f, "rate in kbit/s, 0 to {LINE_RATE}")
            }
            Field::Class => f.write_str("class, none, na or be"),
            Field::Frame => f.write_str("number of a frame"),
            Field::Occupancy => { write!(f, "occupancy in words, 0 to {MAX_OCCUPANCY}, or x") }
            Field::Cause => f.write_str("cause, 1 to 9"),
        }
    }
}
