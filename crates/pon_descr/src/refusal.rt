use crate::cause::Cause;
use std::alloc::AllocError;
use std::error::Error;
use std::fmt;

/// Why a descriptor or an event is refused. Each refusal has a number, E01 to E21, and a name, as printed in output
/// lines.
#[derive(Clone, Copy, Debug, PartialEq, Eq)]
pub enum Refusal {
    /// E01: the Alloc-ID is not admitted on this port.
    NoSuchAlloc,
    /// E02: the Alloc-ID is admitted already, for whatever ONU.
    AllocTaken,
    /// E03: the Alloc-ID is outside 1024 to 16383; returned when the number is read.
    AllocRange,
    /// E04: the ONU-ID is outside 0 to 1022; returned when the number is read.
    OnuRange,
    /// E05: a rate is above 2,488,320 kbit/s.
    RateRange,
    /// E06: the maximum rate is below fixed and assured rate together.
    MaxBelowGuaranteed,
    /// E07: a non-assured Alloc-ID has neither fixed nor assured rate.
    NeedsGuarantee,
    /// E08: an Alloc-ID that shares surplus has no maximum rate above fixed and assured rate together.
    NoSurplusRoom,
    /// E09: the port has the maximum number of Alloc-IDs.
    TooManyAllocs,
    /// E10: the port has 128 ONUs, and this ONU is new.
    TooManyOnus,
    /// E11: the ONU has 16 Alloc-IDs.
    SeriesFull,
    /// E12: the set after the step would not fit the frame.
    Capacity,
    /// E13: no map of the window has the frame.
    StaleFrame,
    /// E14: that map has no structure of the ONU.
    NotPolled,
    /// E15: the report has more or fewer occupancies than the ONU has structures in that map.
    ReportCount,
    /// E16: a report of that frame and ONU was accepted already.
    AlreadyReported,
    /// E17: the port is failed.
    PortDown { cause: Cause },
    /// E18: the port is not failed.
    PortUp,
    /// E19: the next frame is 18,446,744,073,709,551,615.
    FrameLimit,
    /// E20: 65,536 entries are kept, or the number of entries is at its maximum.
    ChapterFull,
    /// E21: an allocation was refused.
    OutOfMemory,
}

impl From<AllocError> for Refusal {
    ghost use Rattle.std.specs.Prelude.{◌≡◌};
    ghost use Rattle.pon_descr.specs.declared.refusal.Refusal.TheVariants.{OutOfMemory};

    ghost from_gives = { λ _ refusal. refusal ≡ OutOfMemory };

    fn from(_e: AllocError) -> Refusal {
        Refusal::OutOfMemory
    }
}

impl fmt::Display for Refusal {
    ghost use Rattle.std.specs.Prelude.{Some};
    ghost use Rattle.pon_descr.specs.Refusal.{refusal_text};

    ghost output = { λ r. Some (refusal_text r) };

    fn fmt<W: fmt::Write>(&self, f: &mut fmt::Formatter<W>) -> fmt::Result {
        let text = match *self {
            Refusal::NoSuchAlloc => "E01 NoSuchAlloc",
            Refusal::AllocTaken => "E02 AllocTaken",
            Refusal::AllocRange => "E03 AllocRange",
            Refusal::OnuRange => "E04 OnuRange",
            Refusal::RateRange => "E05 RateRange",
            Refusal::MaxBelowGuaranteed => "E06 MaxBelowGuaranteed",
            Refusal::NeedsGuarantee => "E07 NeedsGuarantee",
            Refusal::NoSurplusRoom => "E08 NoSurplusRoom",
            Refusal::TooManyAllocs => "E09 TooManyAllocs",
            Refusal::TooManyOnus => "E10 TooManyOnus",
            Refusal::SeriesFull => "E11 SeriesFull",
            Refusal::Capacity => "E12 Capacity",
            Refusal::StaleFrame => "E13 StaleFrame",
            Refusal::NotPolled => "E14 NotPolled",
            Refusal::ReportCount => "E15 ReportCount",
            Refusal::AlreadyReported => "E16 AlreadyReported",
            Refusal::PortDown { cause } => return write!(f, "E17 PortDown {}", cause.get()),
            Refusal::PortUp => "E18 PortUp",
            Refusal::FrameLimit => "E19 FrameLimit",
            Refusal::ChapterFull => "E20 ChapterFull",
            Refusal::OutOfMemory => "E21 OutOfMemory",
        };
        f.write_str(text)
    }
}

impl Error for Refusal {}
