//! The progress of a run, on standard error.

use crate::early::WhyEnded;
use crate::timer::Timer;
use crate::watch::RunWatch;
use pon_worker::{PortCounts, WorkerEnd};
use std::alloc::{AllocError, Global};
use std::sync::atomic::{AtomicBool, Ordering};
use std::time::Clock;

/// Number of looks in a second whether the run has ended.
const LOOKS: u64 = 20;

// Sleeps until the next second. Returns `false` if the flag is set meanwhile.
fn next_second<R: Clock>(looks: &mut Timer<'_, R>, stop: &AtomicBool) -> bool {
    for _look in 0..LOOKS {
        if stop.load(Ordering::SeqCst) {
            return false;
        }
        let _late = looks.wait();
    }
    true
}

// Prints a line for each port, and keeps the number of its maps.
fn print_second<R: Eprint>(rt: &R, watch: &RunWatch, second: u64, before: &mut [u64]) {
    for (port, (seen, maps)) in watch.ports().iter().zip(before).enumerate() {
        let now = seen.numbers();
        let counts = now.counts;
        let made = counts.maps.saturating_sub(*maps);
        *maps = counts.maps;
        let _ = eprintln!(rt;
            "olt: {second} s port {port} maps {} ({made} in this second) reports {} refused {} garbled {} chapters {} dropped {} {}",
            counts.maps,
            counts.reports,
            counts.refused,
            counts.garbled,
            now.recorded,
            now.dropped,
            seen.service()
        );
    }
}

/// Prints once a second a line for each port, with what it did so far, until the flag is set. `Err` only if memory is
/// refused; then it prints nothing.
pub(crate) fn print_progress<R: Clock + Eprint>(
    rt: &R,
    alloc: Global,
    watch: &RunWatch,
    stop: &AtomicBool,
) -> Result<(), AllocError> {
    let mut before = vec![in alloc; 0; watch.ports().len()]?;
    let mut looks = Timer::new(rt, LOOKS);
    let _now = looks.wait();
    for second in 1..u64::MAX {
        if !next_second(&mut looks, stop) {
            break;
        }
        print_second(rt, watch, second, before.as_mut_slice());
    }
    Ok(())
}

/// Prints a line for each port with what the line about it does not say: refused and garbled reports, the late maps, the
/// connections that were served, and why its worker ended.
pub(crate) fn print_summary(rt: &impl Eprint, watch: &RunWatch, workers: &[WorkerEnd]) {
    for (port, (seen, worker)) in watch.ports().iter().zip(workers).enumerate() {
        let now = seen.numbers();
        let PortCounts {
            refused,
            garbled,
            unowned,
            ..
        } = worker.counts;
        let damaged = garbled.saturating_sub(unowned);
        let why = WhyEnded(worker.why);
        let _ = eprintln!(rt;
            "olt: port {port} refused {refused} garbled {garbled} (damaged {damaged}, unowned {unowned}) late {} latest {} us connections {} ended: {why}",
            now.late, now.latest, now.connections
        );
    }
}
