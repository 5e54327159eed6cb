//! Why a port refuses a row, with its numbers, for a person.

use pon_descr::{Class, Descriptor, Refusal};
use pon_port::Port;
use pon_units::{AllocId, OnuId, WORD_RATE};
use std::alloc::Global;
use std::fmt::{self, Display, Formatter, Write};

/// Why a port refuses to admit, change or remove a row. Rates are in kbit/s.
#[derive(Clone, Copy)]
pub(crate) enum RefusedRow {
    /// The Alloc-ID is not admitted.
    NotAdmitted { alloc: u16 },
    /// An ONU has the Alloc-ID already.
    Taken { alloc: u16, onu: u16 },
    /// The maximum rate is below the fixed and the assured rate together.
    MaxBelow { max: u64, promised: u64 },
    /// A class needs a fixed or an assured rate.
    NoGuarantee,
    /// The maximum rate leaves the class nothing to share.
    NoRoom { max: u64, promised: u64 },
    /// The port has as many Alloc-IDs as it can have.
    PortFull,
    /// The port has as many ONUs as it can have.
    OnusFull,
    /// The ONU has as many Alloc-IDs as it can have.
    SeriesFull { onu: u16 },
    /// More is asked for than is free.
    Capacity { asked: u64, free: u64 },
}

impl Display for RefusedRow {
    fn fmt<W: Write>(&self, f: &mut Formatter<W>) -> fmt::Result {
        match *self {
            RefusedRow::NotAdmitted { alloc } => write!(f, "Alloc-ID {alloc} is not admitted"),
            RefusedRow::Taken { alloc, onu } => write!(f, "Alloc-ID {alloc}: ONU {onu} has it"),
            RefusedRow::MaxBelow { max, promised } => {
                write!(
                    f,
                    "max {max} is below fixed and assured together, {promised}"
                )
            }
            RefusedRow::NoGuarantee => f.write_str("class na needs a fixed or an assured rate"),
            RefusedRow::NoRoom { max, promised } => write!(
                f,
                "max {max} is not above fixed and assured together, {promised}, so the class has nothing to share"
            ),
            RefusedRow::PortFull => f.write_str("the port has as many Alloc-IDs as it can have"),
            RefusedRow::OnusFull => f.write_str("the port has as many ONUs as it can have"),
            RefusedRow::SeriesFull { onu } => {
                write!(f, "ONU {onu} has as many Alloc-IDs as it can have")
            }
            RefusedRow::Capacity { asked, free } => {
                write!(f, "{asked} kbit/s asked, {free} free")
            }
        }
    }
}

/// Returns why a descriptor with these rates, in kbit/s, is refused: fixed, assured and maximum rate.
pub(crate) fn refused_rates(refusal: Refusal, rates: [u64; 3]) -> Option<RefusedRow> {
    let [fixed, assured, max] = rates;
    let promised = fixed.saturating_add(assured);
    match refusal {
        Refusal::MaxBelowGuaranteed => Some(RefusedRow::MaxBelow { max, promised }),
        Refusal::NeedsGuarantee => Some(RefusedRow::NoGuarantee),
        Refusal::NoSurplusRoom => Some(RefusedRow::NoRoom { max, promised }),
        _ => None,
    }
}

/// A row that a port is asked to admit, or to change: then its ONU is that of its Alloc-ID.
#[derive(Clone, Copy)]
pub(crate) struct AskedRow {
    pub(crate) alloc_id: AllocId,
    pub(crate) onu: Option<OnuId>,
    pub(crate) descriptor: Descriptor,
}

// Returns the ONU of an Alloc-ID on a port.
fn onu_of(port: &Port, alloc_id: AllocId) -> Option<OnuId> {
    let roster = port.state().roster();
    let row = roster.rows().get(roster.place_of(alloc_id)?)?;
    Some(row.onu)
}

// Returns what is free on a port for a row, in kbit/s: what the others and the overhead of its burst leave.
fn free_for(alloc: Global, port: &Port, row: AskedRow) -> Option<u64> {
    let mut roster = port.state().roster().try_copy(alloc).ok()?;
    let nothing = Descriptor::new(0, 0, 0, Class::Plain).ok()?;
    if roster.place_of(row.alloc_id).is_some() {
        roster.change(row.alloc_id, nothing).ok()?;
    } else if roster.admit(row.onu?, row.alloc_id, nothing).is_err() {
        return Some(0);
    }
    let capacity = WORD_RATE.saturating_mul(u64::from(roster.capacity().get()));
    Some(capacity.saturating_sub(u64::from(roster.guaranteed_sum().get())))
}

/// Returns why a port refuses a row. `None` if the refusal says all, or memory is refused.
pub(crate) fn of_row(
    alloc: Global,
    refusal: Refusal,
    port: &Port,
    row: AskedRow,
) -> Option<RefusedRow> {
    let number = row.alloc_id.get();
    match refusal {
        Refusal::NoSuchAlloc => Some(RefusedRow::NotAdmitted { alloc: number }),
        Refusal::AllocTaken => Some(RefusedRow::Taken {
            alloc: number,
            onu: onu_of(port, row.alloc_id)?.get(),
        }),
        Refusal::TooManyAllocs => Some(RefusedRow::PortFull),
        Refusal::TooManyOnus => Some(RefusedRow::OnusFull),
        Refusal::SeriesFull => Some(RefusedRow::SeriesFull {
            onu: row.onu?.get(),
        }),
        Refusal::Capacity => Some(RefusedRow::Capacity {
            asked: u64::from(row.descriptor.promised().get()),
            free: free_for(alloc, port, row)?,
        }),
        _ => None,
    }
}
