//! Management lines at a desk.

ghost use Rattle.std.specs.Prelude.{OnOk};
ghost use Rattle.pon_device.specs.Device.{IsAtEnd};
ghost use Rattle.pon_device.specs.Streams.{TellsRead, TellsWrite};
ghost use Rattle.pon_text.specs.Planning.{Planned};
ghost use Rattle.pon_manage.specs.Desks.{DeskGives};
ghost use Rattle.pon_manage.specs.FirstBytes.{desk_gives_first};
ghost use Rattle.pon_manage.specs.Paths.{AnyState, any_path};

use crate::at_desk::AtDesk;
use pon_desk::{Desk, Seat};
use pon_device::{DevRead, DevWrite, DeviceFault};
use pon_line::read_line;
use pon_text::{Answers, PlanEnd, answer_input};
use std::alloc::{AllocError, Global};
use std::sync::Wait;
use std::sync::ledger::Ledger;

// Answers lines at a desk, with the seat that posts for them as their state.
impl<'a, L: Ledger, M: Ledger, H: Wait> Answers<Seat<L, M>> for AtDesk<'a, L, M, H> {
    ghost gives = { DeskGives };

    ghost path = { AnyState };

    fn answer_line(
        &mut self,
        seat: &mut Seat<L, M>,
        line: &[u8],
        replies: &mut Vec<u8>,
    ) -> Result<(), AllocError> {
        prove!(self.desk.ports() == seat.counts().len());
        let reading = read_line(self.desk.ports(), line);
        self.answer(seat, reading, replies)
    }

    ghost reads_first = { desk_gives_first };

    ghost is_path = { any_path };
}

/// Reads management lines to the end of the input, posts their events at the desk with this seat, and writes the reply
/// or the refusal of each. Other threads may post at the desk at the same time.
///
/// The text of a line has the form that its reading allows: none for a blank line or a comment, and the refusal of a
/// line that cannot be read. The text of any other line is the reply or the refusal of an event, or the state of some
/// port with a lawful chapter. Which chapter is not stated, since other threads post too.
///
/// An accepted event is posted at the port that its line names, and is one post more of the seat at that port. The seat
/// is given the receipt to keep. Any other line leaves the seat unchanged. No lock is held during a read or a write.
/// The replies to one read are written before the next read. The writer is flushed once, at the end of the input.
///
/// # Errors
///
/// `Read` if the reader failed or 2^64 - 1 reads were made; then the text of all whole lines read is written. `Write`
/// if the writer failed; then a prefix of the text is written. `Memory` if memory was refused; then the text of some
/// first lines is written, and nothing of the next one. A line without its line feed at a fault is not answered.
pub fn operate<L: Ledger, M: Ledger, H: Wait, R: DevRead, W: DevWrite>(
    rt: &H,
    alloc: Global,
    desk: &Desk<L, M>,
    seat: &mut Seat<L, M>,
    reader: &mut R,
    writer: &mut W,
) -> Result<PlanEnd, DeviceFault>
    ensures text { Planned DeskGives seat.old seat.new (R.remaining reader.old)
        (R.remaining reader.new) (W.contents writer.old) (W.contents writer.new) result }
    ensures end { OnOk result (IsAtEnd (R.remaining reader.new)) }
    ensures read { TellsRead (R.calls reader.old) (R.calls reader.new) (R.failures reader.old)
        (R.failures reader.new) result }
    ensures write { TellsWrite (W.failures writer.old) (W.failures writer.new) result }
{
    let room = Vec::new(alloc);
    let mut at = AtDesk { rt, desk, room };
    answer_input(alloc, &mut at, seat, reader, writer)
}
