// The numbers that C gets: 0 if a call did what it is for, otherwise that of the reason.
ghost use Rattle.std.specs.Prelude.{◌≡◌, ◌<◌, ◌≤◌};
ghost use Rattle.pon_c.specs.Numbers.{number_of};

use pon_descr::Refusal;

/// The version of the library, 0.3.0.
pub const VERSION: u32 = 768;

/// The version of the interface.
pub const ABI: u32 = 0;

/// The Alloc-ID is not admitted.
pub const NO_SUCH_ALLOC: u32 = 1;

/// The Alloc-ID is admitted already.
pub const ALLOC_TAKEN: u32 = 2;

/// The Alloc-ID is outside 1024 to 16383.
pub const ALLOC_RANGE: u32 = 3;

/// The ONU-ID is above 1022.
pub const ONU_RANGE: u32 = 4;

/// A rate is above 2,488,320 kbit/s.
pub const RATE_RANGE: u32 = 5;

/// The maximum is below fixed and assured rate together.
pub const MAX_BELOW_GUARANTEED: u32 = 6;

/// The non-assured class needs a fixed or an assured rate.
pub const NEEDS_GUARANTEE: u32 = 7;

/// A class that shares surplus needs a maximum above fixed and assured rate.
pub const NO_SURPLUS_ROOM: u32 = 8;

/// The port has 512 Alloc-IDs.
pub const TOO_MANY_ALLOCS: u32 = 9;

/// The port has 128 ONUs.
pub const TOO_MANY_ONUS: u32 = 10;

/// The ONU has 16 Alloc-IDs.
pub const SERIES_FULL: u32 = 11;

/// The guaranteed rates and the overhead would not fit the line.
pub const CAPACITY: u32 = 12;

/// The frame of the report is in no map of the window.
pub const STALE_FRAME: u32 = 13;

/// The map of that frame did not poll the ONU.
pub const NOT_POLLED: u32 = 14;

/// The ONU had another number of structures in that map.
pub const REPORT_COUNT: u32 = 15;

/// The ONU has reported for that frame.
pub const ALREADY_REPORTED: u32 = 16;

/// The line is failed.
pub const PORT_DOWN: u32 = 17;

/// The line is not failed.
pub const PORT_UP: u32 = 18;

/// No frame number is left.
pub const FRAME_LIMIT: u32 = 19;

/// The port keeps 65,536 entries.
pub const CHAPTER_FULL: u32 = 20;

/// Memory is refused.
pub const OUT_OF_MEMORY: u32 = 21;

/// The handle is closed.
pub const CLOSED: u32 = 32;

/// The handle that a call opens is open already.
pub const IS_OPEN: u32 = 33;

/// The gap is outside 1 to 256.
pub const BAD_GAP: u32 = 34;

/// The burst profile is above 3.
pub const BAD_PROFILE: u32 = 35;

/// The class is above 2.
pub const BAD_CLASS: u32 = 36;

/// The cause is outside 1 to 9.
pub const BAD_CAUSE: u32 = 37;

/// More than 16 occupancies.
pub const BAD_COUNT: u32 = 38;

/// An occupancy is above 16,777,215, and does not stand for a garbled report.
pub const BAD_OCCUPANCY: u32 = 39;

/// The number of the port is above 63.
pub const BAD_PORT: u32 = 40;

/// The room of the caller is too small.
pub const NO_ROOM: u32 = 41;

/// There is no map in the kept chapter.
pub const NO_MAP: u32 = 42;

/// There is no Alloc-ID at this place.
pub const NO_ROW: u32 = 43;

/// There are fewer bytes than are needed.
pub const SHORT: u32 = 44;

/// A word is more than two bits away from every codeword.
pub const BAD_CODE: u32 = 45;

/// A field of a header is out of its range.
pub const BAD_HEADER: u32 = 46;

/// The check byte of a report is wrong.
pub const BAD_REPORT: u32 = 47;

/// A map has more than 512 structures.
pub const TOO_MANY: u32 = 48;

/// The first structure of a map has no start.
pub const SERIES_START: u32 = 49;

/// A structure starts beyond the frame.
pub const START_RANGE: u32 = 50;

/// A burst has more than 16 structures.
pub const SERIES_LONG: u32 = 51;

/// Items and surplus are no class problem: more than 512 items, or a weight, a cap or the surplus out of its range.
pub const BAD_PROBLEM: u32 = 52;

/// The level is none: neither 1, nor 2 with a denominator above 0.
pub const BAD_LEVEL: u32 = 53;

/// A certificate has another number of flags than items.
pub const CERT_LENGTH: u32 = 54;

/// The denominator of a level is not the weight of the unsaturated items.
pub const CERT_DENOMINATOR: u32 = 55;

/// An item is saturated, and its cap is above its share.
pub const CERT_SATURATED: u32 = 56;

/// An item is not saturated, and its cap is at most its share.
pub const CERT_UNSATURATED: u32 = 57;

/// The rates are less than the surplus, and the level is a fraction.
pub const CERT_NOT_EXHAUSTED: u32 = 58;

/// The rates are more than the surplus.
pub const CERT_OVERSPENT: u32 = 59;

/// The recording is not good.
pub const NOT_GOOD: u32 = 60;

/// No chapter of the recording is of the port.
pub const NO_CHAPTER: u32 = 61;

/// No port of this version goes on from the state at the end of the recording.
pub const BAD_STATE: u32 = 62;

/// In place of the first word of a burst: the structure continues the burst before it.
pub const NO_START: u16 = u16::MAX;

/// In place of an occupancy: the report is garbled.
pub const GARBLED: u32 = u32::MAX;

/// Returns the number of a refusal, 1 to 21.
pub(crate) fn number(refusal: Refusal) -> u32
    ensures value { result ≡ number_of refusal }
    ensures range { (0 < result) × (result ≤ OUT_OF_MEMORY) }
{
    match refusal {
        Refusal::NoSuchAlloc => NO_SUCH_ALLOC,
        Refusal::AllocTaken => ALLOC_TAKEN,
        Refusal::AllocRange => ALLOC_RANGE,
        Refusal::OnuRange => ONU_RANGE,
        Refusal::RateRange => RATE_RANGE,
        Refusal::MaxBelowGuaranteed => MAX_BELOW_GUARANTEED,
        Refusal::NeedsGuarantee => NEEDS_GUARANTEE,
        Refusal::NoSurplusRoom => NO_SURPLUS_ROOM,
        Refusal::TooManyAllocs => TOO_MANY_ALLOCS,
        Refusal::TooManyOnus => TOO_MANY_ONUS,
        Refusal::SeriesFull => SERIES_FULL,
        Refusal::Capacity => CAPACITY,
        Refusal::StaleFrame => STALE_FRAME,
        Refusal::NotPolled => NOT_POLLED,
        Refusal::ReportCount => REPORT_COUNT,
        Refusal::AlreadyReported => ALREADY_REPORTED,
        Refusal::PortDown { .. } => PORT_DOWN,
        Refusal::PortUp => PORT_UP,
        Refusal::FrameLimit => FRAME_LIMIT,
        Refusal::ChapterFull => CHAPTER_FULL,
        Refusal::OutOfMemory => OUT_OF_MEMORY,
    }
}
