//! The ranges of an event's numbers.

ghost use Rattle.pon_state.specs.Events.{AreOccupancies, IsEvent, IsManaged};

use pon_admit::{Event, Row};
use pon_dbru::Occupancies;
use pon_units::{AllocId, LINE_RATE, MAX_ALLOC_ID, MAX_OCCUPANCY, MAX_ONU_ID, MIN_ALLOC_ID};

// States that an Alloc-ID is in range, by its type.
fn prove_managed(alloc_id: AllocId)
    ensures { IsManaged alloc_id }
{
    prove!(alloc_id.get() >= MIN_ALLOC_ID && alloc_id.get() <= MAX_ALLOC_ID);
}

// States that occupancies are at most 16 and in range, by their types.
fn prove_occupancies(occ: &Occupancies)
    ensures { AreOccupancies occ.now }
{
    for report in occ.as_slice() {
        if let Some(words) = report {
            prove!(words.get() <= MAX_OCCUPANCY);
        }
    }
}

/// States that the numbers of an event are in range, by their types.
pub fn prove_in_range(event: &Event)
    ensures { IsEvent event.now }
{
    match event {
        Event::Admit(row) => {
            let _row = Row::new(row.onu, row.alloc_id, row.descriptor);
        }
        Event::Change {
            alloc_id,
            descriptor,
        } => {
            prove_managed(*alloc_id);
            prove!(u64::from(descriptor.promised().get()) <= LINE_RATE);
        }
        Event::Remove { alloc_id } => prove_managed(*alloc_id),
        Event::Report { frame, onu, occ } => {
            prove!(frame.get() <= u64::MAX && onu.get() <= MAX_ONU_ID);
            prove_occupancies(occ);
        }
        Event::Fail { cause } => prove!(cause.get() >= 1 && cause.get() <= 9),
        Event::MakeMap | Event::Restore => {}
    }
}
