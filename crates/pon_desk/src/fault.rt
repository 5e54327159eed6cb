use crate::desk::Desk;
use crate::seat::Seat;
use pon_port::Port;
use std::alloc::AllocError;
use std::error::Error;
use std::fmt::{self, Debug, Display, Formatter, Write};
use std::sync::ledger::Ledger;

/// Why a desk could not be closed.
#[derive(Drop)]
pub enum CloseFault<L: Ledger, M: Ledger> {
    /// There are fewer seats than were opened: the desk and these seats are returned, and the desk can be closed later.
    Missing {
        desk: Desk<L, M>,
        seats: Vec<Seat<L, M>>,
    },
    /// Some port took more or fewer entries than the seats count at it: returns the ports, and the sum of the seats'
    /// counts at each.
    Uneven {
        ports: Vec<Port>,
        counts: Vec<u64>,
    },
}

impl<L: Ledger, M: Ledger> Debug for CloseFault<L, M> {
    fn fmt<W: Write>(&self, f: &mut Formatter<W>) -> fmt::Result {
        match self {
            CloseFault::Missing { .. } => f.write_str("Missing"),
            CloseFault::Uneven { .. } => f.write_str("Uneven"),
        }
    }
}

impl<L: Ledger, M: Ledger> Display for CloseFault<L, M> {
    fn fmt<W: Write>(&self, f: &mut Formatter<W>) -> fmt::Result {
        match self {
            CloseFault::Missing { .. } => f.write_str("fewer seats than were opened"),
            CloseFault::Uneven { .. } => f.write_str("ports and seats count other entries"),
        }
    }
}

impl<L: Ledger, M: Ledger> Error for CloseFault<L, M> {}

/// Why ports do not go on at a desk.
#[derive(Clone, Copy, Debug, PartialEq, Eq, thiserror::Error)]
pub enum DeskFault {
    /// There are no ports, or more than 64.
    #[error("no ports, or more than 64")]
    Ports,
    /// The ports took 2^64 entries or more together.
    #[error("the ports took more entries together than can be counted")]
    Entries,
    /// Memory was refused.
    #[error("out of memory")]
    Memory,
}

impl From<AllocError> for DeskFault {
    ghost use Rattle.std.specs.Prelude.{◌≡◌};
    ghost use Rattle.pon_desk.specs.declared.fault.DeskFault.TheVariants.{Memory};

    ghost from_gives = { λ _ fault. fault ≡ Memory };

    fn from(_: AllocError) -> Self {
        DeskFault::Memory
    }
}
