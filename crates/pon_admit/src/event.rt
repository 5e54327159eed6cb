use crate::row::Row;
use pon_dbru::Occupancies;
use pon_descr::{Cause, Descriptor};
use pon_units::{AllocId, FrameNo, OnuId};

/// One of the seven events of a port.
#[derive(Debug, PartialEq, Eq, Drop)]
pub enum Event {
    /// An Alloc-ID of an ONU is admitted with a descriptor.
    Admit(Row),
    /// An admitted Alloc-ID gets another descriptor; it keeps its report.
    Change {
        alloc_id: AllocId,
        descriptor: Descriptor,
    },
    /// An admitted Alloc-ID is removed.
    Remove {
        alloc_id: AllocId,
    },
    /// An ONU reports for the map of a frame: one occupancy for each of its structures in that map.
    Report {
        frame: FrameNo,
        onu: OnuId,
        occ: Occupancies,
    },
    /// The map of the next frame is made.
    MakeMap,
    /// The line has failed: the window and the reports are dropped, and no map is made until the line is restored.
    Fail {
        cause: Cause,
    },
    /// The line is restored: reports count from the next frame on.
    Restore,
}

impl Event {
    ghost use Rattle.std.specs.Prelude.{◌≡◌};

    /// Makes an equal event. It allocates no memory.
    pub fn copy(&self) -> Event
        ensures { result ≡ self.now }
    {
        match self {
            Event::Admit(row) => Event::Admit(*row),
            Event::Change {
                alloc_id,
                descriptor,
            } => Event::Change {
                alloc_id: *alloc_id,
                descriptor: *descriptor,
            },
            Event::Remove { alloc_id } => Event::Remove {
                alloc_id: *alloc_id,
            },
            Event::Report { frame, onu, occ } => Event::Report {
                frame: *frame,
                onu: *onu,
                occ: occ.copy(),
            },
            Event::MakeMap => Event::MakeMap,
            Event::Fail { cause } => Event::Fail { cause: *cause },
            Event::Restore => Event::Restore,
        }
    }
}
