//! Management lines at a desk, where each state that is shown is noted, and a line stops the run.

ghost use Rattle.std.specs.Prelude.{OnOk};
ghost use Rattle.pon_device.specs.Device.{IsAtEnd};
ghost use Rattle.pon_device.specs.Streams.{TellsRead, TellsWrite};
ghost use Rattle.pon_text.specs.Planning.{Planned};
ghost use Rattle.pon_manage.specs.Desks.{DeskGives};
ghost use Rattle.pon_manage.specs.FirstBytes.{desk_gives_first};
ghost use Rattle.pon_manage.specs.Paths.{AnyState, any_path};

use crate::at_desk::AtDesk;
use pon_desk::{Desk, Seat};
use pon_device::{DevRead, DevWrite, DeviceFault};
use pon_line::{Reading, read_line};
use pon_text::{Answers, PlanEnd, answer_input};
use std::alloc::{AllocError, Global};
use std::sync::Wait;
use std::sync::ledger::Ledger;

/// Takes part in what an operator asks of a run.
pub trait RunNotes {
    /// Notes that the state of the port of this number was shown.
    fn shown(&self, port: usize);

    /// Stops the run.
    fn stop(&self);
}

/// Answers lines at a desk, and notes each state that it shows.
#[derive(Drop)]
struct NotedDesk<'d, 'n, L: Ledger, M: Ledger, H: Wait, S> {
    at: AtDesk<'d, L, M, H>,
    notes: &'n S,
}

// What a reading asks of a run, beside its port.
#[derive(Clone, Copy)]
enum OfRun {
    Shown(usize),
    Stop,
    Nothing,
}

// Returns what a reading asks of a run.
fn of_run(reading: &Reading) -> OfRun {
    match reading {
        Reading::AsksState { port } => OfRun::Shown(*port),
        Reading::AsksStop { port: _ } => OfRun::Stop,
        _ => OfRun::Nothing,
    }
}

impl<'d, 'n, L: Ledger, M: Ledger, H: Wait, S: RunNotes> Answers<Seat<L, M>>
    for NotedDesk<'d, 'n, L, M, H, S> {
    ghost gives = { DeskGives };

    ghost path = { AnyState };

    fn answer_line(
        &mut self,
        seat: &mut Seat<L, M>,
        line: &[u8],
        replies: &mut Vec<u8>,
    ) -> Result<(), AllocError> {
        prove!(self.at.desk.ports() == seat.counts().len());
        let reading = read_line(self.at.desk.ports(), line);
        let asked = of_run(&reading);
        self.at.answer(seat, reading, replies)?;
        match asked {
            OfRun::Shown(port) => self.notes.shown(port),
            OfRun::Stop => self.notes.stop(),
            OfRun::Nothing => {}
        }
        Ok(())
    }

    ghost reads_first = { desk_gives_first };

    ghost is_path = { any_path };
}

/// Executes management lines at a desk as [`operate`](crate::operate) does, with the same replies. Notes each port whose state is
/// shown, and stops the run at a line that asks for it.
///
/// # Errors
///
/// As those of [`operate`](crate::operate).
pub fn operate_noted<L, M, H, S, R, W>(
    rt: &H,
    alloc: Global,
    desk: &Desk<L, M>,
    seat: &mut Seat<L, M>,
    notes: &S,
    reader: &mut R,
    writer: &mut W,
) -> Result<PlanEnd, DeviceFault>
where
    L: Ledger,
    M: Ledger,
    H: Wait,
    S: RunNotes,
    R: DevRead,
    W: DevWrite,
    ensures text { Planned DeskGives seat.old seat.new (R.remaining reader.old)
        (R.remaining reader.new) (W.contents writer.old) (W.contents writer.new) result }
    ensures end { OnOk result (IsAtEnd (R.remaining reader.new)) }
    ensures read { TellsRead (R.calls reader.old) (R.calls reader.new) (R.failures reader.old)
        (R.failures reader.new) result }
    ensures write { TellsWrite (W.failures writer.old) (W.failures writer.new) result }
{
    let room = Vec::new(alloc);
    let at = AtDesk { rt, desk, room };
    let mut noted = NotedDesk { at, notes };
    answer_input(alloc, &mut noted, seat, reader, writer)
}
