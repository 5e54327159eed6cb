// How a worker sends a map between the two points of its gate.
ghost use Rattle.std.specs.Prelude.{◌≡◌, ◌+◌, ◌<◌, ◌≤◌, ℕ, List, count_by, length, IfErr, IfOk, OnOk, OnErr};
ghost use Rattle.pon_device.specs.Device.{Appends};
ghost use Rattle.pon_device.specs.Streams.{IsBeginning};
ghost use Rattle.pon_worker.specs.Records.{FailsInRow};
ghost use Rattle.pon_worker.specs.Turns.{CutsSending, FailsSending, begins_burst, bursts_of, map_record};

use crate::causes::{WRITE_FAILED, cause_of};
use crate::counts::StopReason;
use crate::gate::{Gate, Point, pass};
use pon_bwmap::Alloc;
use pon_device::DevWrite;
use pon_link::{Device, DownWriter};
use pon_port::MadeMap;
use pon_units::PortNo;

/// Maximum number of attempts in a row of a write or a read that fails.
pub(crate) const MAX_TRIES: u32 = 3;

// Returns the number of writes in a row that failed, after one more failed: only that one if bytes were written before
// it, so that fewer are left.
fn failed_in_row(before: u32, left: usize, now: usize) -> u32
    requires { before < MAX_TRIES }
    ensures first { now < left → result ≡ 1 }
    ensures again { left ≤ now → result ≡ before + 1 }
{
    if now < left { 1 } else { before + 1 }
}

// Writes the record of a map; or only a prefix of it, if the device failed three times in a row.
pub(crate) fn send<W: DevWrite>(writer: &mut W, made: &MadeMap) -> Result<(), Device>
    ensures sent { OnOk result (Appends (W.contents writer.old) (W.contents writer.new)
        (map_record made.now)) }
    ensures begun { OnErr result ((sent : List ℕ)
        × Appends (W.contents writer.old) (W.contents writer.new) sent
        × IsBeginning sent (map_record made.now)
        × FailsInRow (length sent) (W.failures writer.old) (W.failures writer.new)) }
{
    let mut down = DownWriter::new();
    down.put(made.frame, &made.map).unwrap();
    let mut left = down.left().len();
    let mut failed = 0;
    'tries: while failed < MAX_TRIES {
        match down.push(writer) {
            Ok(()) => return Ok(()),
            Err(_) => {}
        }
        let now = down.left().len();
        failed = failed_in_row(failed, left, now);
        left = now;
    }
    Err(Device)
}

// Returns the number of bursts of a map: the number of structures with a start.
fn bursts_in(rows: &[Alloc]) -> usize
    ensures { result ≡ count_by begins_burst rows.now }
{
    rows.iter().filter(|row| row.start().is_some()).count()
}

// Sends a map once the gate lets the worker pass, and waits for it before the bursts are read. Returns their number;
// otherwise why no burst is read.
pub(crate) fn send_at_gate<G: Gate, W: DevWrite>(
    gate: &G,
    port: PortNo,
    made: &MadeMap,
    writer: &mut W,
) -> Result<usize, StopReason>
    ensures sent { OnOk result (Appends (W.contents writer.old) (W.contents writer.new)
        (map_record made.now)) }
    ensures bursts { IfOk result (λ bursts. bursts ≡ bursts_of made.now) }
    ensures cut { IfErr result (λ why. (sent : List ℕ)
        × Appends (W.contents writer.old) (W.contents writer.new) sent
        × CutsSending why made.now sent
        × FailsSending why (length sent) (W.failures writer.old) (W.failures writer.new)) }
{
    if !pass(gate, port, Point::Send) {
        return Err(StopReason::GateLimit);
    }
    match send(writer, made) {
        Ok(()) => {}
        Err(_) => return Err(StopReason::Gave {
            cause: cause_of(WRITE_FAILED),
        }),
    }
    if !pass(gate, port, Point::Read) {
        return Err(StopReason::GateLimit);
    }
    Ok(bursts_in(made.map.rows()))
}
