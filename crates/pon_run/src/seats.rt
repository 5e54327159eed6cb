//! The seats of a run besides those of its workers.

ghost use Rattle.std.specs.Prelude.{◌≡◌, ◌≤◌, ◌++◌, ◌∷◌, [], IfOk, map};
ghost use Rattle.std.specs.Vec.{vec_len};

use crate::control::Operated;
use crate::ports::OTHER_SEATS;
use pon_desk::Seat;
use pon_sockets::OperatorStream;
use std::alloc::{AllocError, Global};
use std::sync::ledger::Ledger;

/// The seats besides those of the workers.
#[derive(Drop)]
pub(crate) struct OtherSeats<L: Ledger, M: Ledger> {
    /// Posts the rows of the settings.
    pub(crate) rows: Seat<L, M>,
    /// Posts the lines of the first operator.
    pub(crate) operator: Seat<L, M>,
    /// Post for operators that connect.
    pub(crate) control: Vec<Seat<L, M>>,
}

/// Splits the seats of a desk into those of its workers, which remain, and the others. `Err` only if memory is refused.
pub(crate) fn split_seats<L: Ledger, M: Ledger>(
    seats: &mut Vec<Seat<L, M>>,
    workers: usize,
) -> Result<OtherSeats<L, M>, AllocError>
    requires { OTHER_SEATS ≤ vec_len seats.old }
    ensures { IfOk result (λ others. seats.old.items
        ≡ seats.new.items ++ (others.control.items ++ (others.rows ∷ others.operator ∷ []))) }
{
    let operator = seats.pop().unwrap();
    let rows = seats.pop().unwrap();
    let control = seats.split_off(workers.min(seats.len()))?;
    Ok(OtherSeats {
        rows,
        operator,
        control,
    })
}

/// Returns the seats besides those of the workers, and the connections that are open until the run has ended.
/// `Err` only if memory is refused.
pub(crate) fn join_seats<L: Ledger, M: Ledger>(
    alloc: Global,
    rows: Seat<L, M>,
    operator: Seat<L, M>,
    operators: Vec<Operated<L, M>>,
) -> Result<(Vec<Seat<L, M>>, Vec<OperatorStream>), AllocError>
    ensures { IfOk result (λ joined. joined.0.items
        ≡ rows ∷ operator ∷ map (λ o. o.seat) operators.items) }
{
    let mut seats = Vec::from_array(alloc, [rows, operator])?;
    let mut open = Vec::new(alloc);
    for Operated { seat, last } in operators {
        seats.push(seat)?;
        if let Some(stream) = last {
            open.push(stream)?;
        }
    }
    Ok((seats, open))
}
