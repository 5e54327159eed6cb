//! The end of a run: what the workers left is recorded, the desk is closed, its ports are settled if that is wanted, and
//! the lines about them are written.

ghost use Rattle.std.specs.Prelude.{◌≡◌, ◌↔◌, IfOk, IfSome, OnOk, is_ok, is_some, map, true};
ghost use Rattle.std.specs.Vec.{vec_len};
ghost use Rattle.pon_desk.specs.Counts.{IsEven};
ghost use Rattle.pon_recorder.specs.Whole.{IsWholeRecording, StaysWhole};
ghost use Rattle.pon_run.specs.Runs.{AllSettled, TellsPorts, TellsWorked, WritesLines};

use crate::context::RunContext;
use crate::early::print_early;
use crate::end::write_ends;
use crate::lack::print_lack;
use crate::ports::{all_finished, ends_of, split_results, with_dropped, worker_ends};
use crate::progress::print_summary;
use crate::running::Results;
use crate::settlement_text::write_settlements;
use crate::settling::{
    Account, Settlement, add_receipts, are_settled, open_accounts, settle_ports,
};
use crate::thread::Worked;
use pon_desk::{CloseFault, Closed, Desk, Seat};
use pon_device::DevWrite;
use pon_files::{FileTape, end_recording};
use pon_job::Failure;
use pon_port::Port;
use pon_recorder::{Ended, PortSink, Recording, Rings};
use pon_worker::{Gate, WorkerEnd};
use std::alloc::{AllocError, Global};
use std::fs::OpenFile;
use std::io::Write;
use std::rt::Files;
use std::sync::ledger::Ledger;

/// The ports of a closed desk.
#[derive(Drop)]
struct ClosedRun {
    ports: Vec<Port>,
    // Whether each port took as many entries as the seats count at it.
    even: bool,
    // The settlements of the ports that have accounts, in order.
    settlements: Vec<Settlement>,
}

// Records what the workers left in their sinks, and returns the account of each port if the ports are to be settled.
fn accounts_of<L: Ledger, M: Ledger, K: Rings, W: DevWrite + Drop>(
    alloc: Global,
    seats: &mut [Seat<L, M>],
    sinks: Vec<PortSink<K>>,
    recording: &mut Option<Recording<K, W>>,
    settle: bool,
) -> Result<Vec<Account>, AllocError>
    ensures same { is_some recording.new ≡ is_some recording.old }
    ensures whole { IfSome recording.new (λ new. IfSome recording.old (λ old.
        StaysWhole old.recorder old.whole new.recorder new.whole)) }
{
    let Some(recording) = recording else {
        return Ok(Vec::new(alloc));
    };
    recording.take_left(sinks);
    if !settle {
        return Ok(Vec::new(alloc));
    }
    let taken = recording.taken_chapters(alloc)?;
    let mut accounts = open_accounts(alloc, taken)?;
    add_receipts(alloc, seats, accounts.as_mut_slice())?;
    Ok(accounts)
}

// Settles the ports of a closed desk that have accounts.
fn settle_closed(
    alloc: Global,
    closed: Closed,
    accounts: &[Account],
) -> Result<ClosedRun, AllocError>
    ensures ports { IfOk result (λ run. run.ports.items ≡ closed.ports) }
    ensures even { IfOk result (λ run. run.even ≡ true) }
{
    let settlements = settle_ports(alloc, &closed, accounts)?;
    let ports = closed.into_ports();
    let even = true;
    Ok(ClosedRun {
        ports,
        even,
        settlements,
    })
}

// Closes the desk of a run, and settles the ports that have accounts. `None` if a seat is missing.
fn close<L: Ledger, M: Ledger>(
    alloc: Global,
    desk: Desk<L, M>,
    seats: Vec<Seat<L, M>>,
    accounts: &[Account],
) -> Result<Option<ClosedRun>, AllocError>
    ensures ports { IfOk result (λ run. IfSome run (λ closed. vec_len closed.ports ≡ desk.ports)) }
    ensures even { IfOk result (λ run. IfSome run (λ closed.
        (closed.even ≡ true) ↔ IsEven closed.ports.items seats.items)) }
{
    match desk.close(seats) {
        Ok(closed) => Ok(Some(settle_closed(alloc, closed, accounts)?)),
        Err(CloseFault::Uneven { ports, counts: _ }) => {
            let settlements = Vec::new(alloc);
            let even = false;
            Ok(Some(ClosedRun {
                ports,
                even,
                settlements,
            }))
        }
        Err(CloseFault::Missing { .. }) => Ok(None),
    }
}

// Ends the file of a recording that ended so, if it has one.
fn end_file<G: Gate, F: OpenFile + Write + Drop, R: Files>(
    run: &RunContext<'_, G, R>,
    ended: Ended<FileTape<F>>,
) -> Result<(), Failure>
    ensures { OnOk result (is_ok ended.result ≡ true) }
{
    match run.args.record {
        Some(name) => end_recording(run.rt, run.alloc, name, ended),
        None => Ok(ended.result?),
    }
}

// Records the chapter that each port keeps, sets the numbers of their dropped chapters, and ends the file, if there is a
// recording.
fn record_kept<K: Rings, G: Gate, F: OpenFile + Write + Drop, R: Files>(
    run: &RunContext<'_, G, R>,
    recording: Option<Recording<K, FileTape<F>>>,
    ports: Vec<Port>,
    dropped: &mut [u64],
) -> Result<(), Failure>
    ensures whole { OnOk result (IfSome recording (λ r. IsWholeRecording r.recorder r.whole)) }
{
    match recording {
        None => Ok(()),
        Some(recording) => {
            let ended = recording.finish(ports, dropped);
            end_file(run, ended)
        }
    }
}

// Records the chapter that each port keeps, and writes the lines about the ports and their settlements, also if the
// recording fails. Returns whether the recording lacks a chapter.
fn write_lines<K: Rings, G: Gate, F: OpenFile + Write + Drop, W: DevWrite, R: Files + Eprint>(
    run: &RunContext<'_, G, R>,
    ports: Vec<Port>,
    workers: &[WorkerEnd],
    settlements: &[Settlement],
    recording: Option<Recording<K, FileTape<F>>>,
    writer: &mut W,
) -> Result<bool, Failure>
    ensures lines { OnOk result (WritesLines ports.items workers.now settlements.now
        (W.contents writer.old) (W.contents writer.new)) }
    ensures whole { OnOk result (IfSome recording (λ r. IsWholeRecording r.recorder r.whole)) }
{
    let ends = ends_of(run.alloc, ports.as_slice(), workers)?;
    let mut dropped = vec![in run.alloc; 0; ports.len()]?;
    let recorded = record_kept(run, recording, ports, dropped.as_mut_slice());
    let told = with_dropped(run.alloc, ends.as_slice(), dropped.as_slice())?;
    write_ends(run.alloc, told.as_slice(), writer)?;
    write_settlements(run.alloc, settlements, writer)?;
    recorded?;
    Ok(print_lack(run, dropped.as_slice()))
}

// Returns whether this number of ports is settled, in order, if they are to be settled.
fn is_settled(ports: usize, settle: bool, settlements: &[Settlement]) -> bool
    ensures { result ≡ true → AllSettled ports settle settlements.now }
{
    let wanted = if settle { ports } else { 0 };
    settlements.len() == wanted && are_settled(settlements)
}

// Writes what each port of a closed desk and its worker did, and its settlement if it is to be settled. Returns whether the
// run is done: no worker ended early, no post was lost, and each port that is to be settled is.
fn tell_closed<K: Rings, G: Gate, F: OpenFile + Write + Drop, W: DevWrite, R: Files + Eprint>(
    run: &RunContext<'_, G, R>,
    closed: ClosedRun,
    workers: &[WorkerEnd],
    recording: Option<Recording<K, FileTape<F>>>,
    writer: &mut W,
) -> Result<bool, Failure>
    ensures done { IfOk result (λ done. done ≡ true → TellsPorts closed.ports.items workers.now run.now.args.settle
        (W.contents writer.old) (W.contents writer.new)) }
    ensures even { IfOk result (λ done. done ≡ true → closed.even ≡ true) }
    ensures whole { OnOk result (IfSome recording (λ r. IsWholeRecording r.recorder r.whole)) }
{
    let ClosedRun {
        ports,
        even,
        settlements,
    } = closed;
    let settled = is_settled(ports.len(), run.args.settle, settlements.as_slice());
    let one_each = workers.len() == ports.len();
    if run.args.summary {
        print_summary(run.rt, run.watch, workers);
    }
    print_early(run.rt, workers);
    let lacks = write_lines(
        run,
        ports,
        workers,
        settlements.as_slice(),
        recording,
        writer,
    )?;
    let recorded = !(lacks && run.args.strict_record);
    Ok(recorded && even && settled && one_each && all_finished(workers))
}

// Records what is left of each port, closes the desk, and settles its ports if that is wanted. `None` if a seat is missing.
fn close_run<L: Ledger, M: Ledger, K: Rings, F: DevWrite + Drop>(
    alloc: Global,
    desk: Desk<L, M>,
    others: Vec<Seat<L, M>>,
    worked: Vec<Worked<L, M, K>>,
    recording: &mut Option<Recording<K, F>>,
    settle: bool,
) -> Result<Option<ClosedRun>, AllocError>
    ensures ports { IfOk result (λ run. IfSome run (λ closed. vec_len closed.ports ≡ desk.ports)) }
    ensures same { is_some recording.new ≡ is_some recording.old }
    ensures whole { IfSome recording.new (λ new. IfSome recording.old (λ old.
        StaysWhole old.recorder old.whole new.recorder new.whole)) }
{
    let (mut seats, sinks) = split_results(alloc, others, worked)?;
    let accounts = accounts_of(alloc, seats.as_mut_slice(), sinks, recording, settle)?;
    close(alloc, desk, seats, accounts.as_slice())
}

/// Records what is left of each port, closes the desk, settles its ports if that is wanted, and writes what each port did.
/// Returns whether the run is done: no worker ended early, no post was lost, and each port that is to be settled is.
pub(crate) fn tell<L, M, K, G, F, W, R>(
    run: &RunContext<'_, G, R>,
    desk: Desk<L, M>,
    others: Vec<Seat<L, M>>,
    results: Results<L, M, K, FileTape<F>>,
    writer: &mut W,
) -> Result<bool, Failure>
where
    L: Ledger,
    M: Ledger,
    K: Rings,
    G: Gate,
    F: OpenFile + Write + Drop,
    W: DevWrite,
    R: Files + Eprint,
    ensures done { IfOk result (λ done. done ≡ true
        → TellsWorked (map (λ w. w.end) results.worked.items) desk.ports run.now.args.settle
        (W.contents writer.old) (W.contents writer.new)) }
    ensures whole { IfOk result (λ done. done ≡ true
        → IfSome results.recording (λ r. IsWholeRecording r.recorder r.whole)) }
{
    let mut recording = results.recording;
    let workers = worker_ends(run.alloc, results.worked.as_slice())?;
    let settle = run.args.settle;
    match close_run(
        run.alloc,
        desk,
        others,
        results.worked,
        &mut recording,
        settle,
    )? {
        Some(closed) => tell_closed(run, closed, workers.as_slice(), recording, writer),
        None => Ok(false),
    }
}
