//! What is seen of the ports of a run while it lasts: numbers that its threads write and others read.

use crate::early::{EndNumber, NOT_ENDED};
use pon_units::PortNo;
use pon_worker::PortCounts;
use std::alloc::{AllocError, Global};
use std::fmt::{self, Display, Formatter, Write};
use std::sync::atomic::{AtomicBool, AtomicU64, Ordering};
use std::time::Duration;

/// The numbers of one port. Each is read and written by itself, so that two of them may be of different moments.
#[derive(Drop)]
pub(crate) struct PortWatch {
    maps: AtomicU64,
    reports: AtomicU64,
    garbled: AtomicU64,
    unowned: AtomicU64,
    refused: AtomicU64,
    // The chapters that the sink dropped.
    lost: AtomicU64,
    // The chapters that the recorder took, and those of them that it dropped.
    taken: AtomicU64,
    dropped: AtomicU64,
    // The maps that began late, and the microseconds of the latest.
    late: AtomicU64,
    latest: AtomicU64,
    // The connections with units that were served.
    connections: AtomicU64,
    // Whether the port waits to be restored, or for its units.
    waits: AtomicBool,
    // The number of its worker's end.
    ended: AtomicU64,
}

/// Whether a port is served.
#[derive(Clone, Copy)]
pub(crate) enum Service {
    /// Its worker makes turns.
    Served,
    /// It is down, and its worker waits until it is restored or units connect.
    Waiting,
    /// Its worker has ended.
    Ended(EndNumber),
}

impl Display for Service {
    fn fmt<W: Write>(&self, f: &mut Formatter<W>) -> fmt::Result {
        match *self {
            Service::Served => f.write_str("served"),
            Service::Waiting => f.write_str("waiting"),
            Service::Ended(_) => f.write_str("ended"),
        }
    }
}

/// The numbers of one port at a moment.
#[derive(Clone, Copy)]
pub(crate) struct PortNumbers {
    /// What the port counted for its worker.
    pub(crate) counts: PortCounts,
    /// The chapters that were recorded.
    pub(crate) recorded: u64,
    /// The chapters that were dropped.
    pub(crate) dropped: u64,
    /// The maps that began late.
    pub(crate) late: u64,
    /// How late the latest map began, in microseconds.
    pub(crate) latest: u64,
    /// The connections with units that were served.
    pub(crate) connections: u64,
}

impl PortWatch {
    fn new() -> Self {
        PortWatch {
            maps: AtomicU64::new(0),
            reports: AtomicU64::new(0),
            garbled: AtomicU64::new(0),
            unowned: AtomicU64::new(0),
            refused: AtomicU64::new(0),
            lost: AtomicU64::new(0),
            taken: AtomicU64::new(0),
            dropped: AtomicU64::new(0),
            late: AtomicU64::new(0),
            latest: AtomicU64::new(0),
            connections: AtomicU64::new(0),
            waits: AtomicBool::new(false),
            ended: AtomicU64::new(NOT_ENDED),
        }
    }

    /// Notes that a connection with units is served.
    pub(crate) fn see_connection(&self) {
        self.connections.fetch_add(1, Ordering::Relaxed);
    }

    /// Notes whether the port waits to be restored, or for its units.
    pub(crate) fn set_waiting(&self, waits: bool) {
        self.waits.store(waits, Ordering::SeqCst);
    }

    /// Returns whether the port is served.
    pub(crate) fn service(&self) -> Service {
        let ended = self.ended.load(Ordering::SeqCst);
        if ended != NOT_ENDED {
            return Service::Ended(EndNumber(ended));
        }
        if self.waits.load(Ordering::SeqCst) {
            return Service::Waiting;
        }
        Service::Served
    }

    /// Notes what the port counted for its worker so far, and how many chapters its sink dropped.
    pub(crate) fn see(&self, counts: &PortCounts, dropped: u64) {
        self.see_counts(counts);
        self.lost.store(dropped, Ordering::Relaxed);
    }

    /// Notes what the port counted for its worker so far.
    pub(crate) fn see_counts(&self, counts: &PortCounts) {
        self.maps.store(counts.maps, Ordering::Relaxed);
        self.reports.store(counts.reports, Ordering::Relaxed);
        self.garbled.store(counts.garbled, Ordering::Relaxed);
        self.unowned.store(counts.unowned, Ordering::Relaxed);
        self.refused.store(counts.refused, Ordering::Relaxed);
    }

    // Returns what the port counted for its worker.
    fn counts(&self) -> PortCounts {
        PortCounts {
            maps: self.maps.load(Ordering::Relaxed),
            reports: self.reports.load(Ordering::Relaxed),
            garbled: self.garbled.load(Ordering::Relaxed),
            unowned: self.unowned.load(Ordering::Relaxed),
            refused: self.refused.load(Ordering::Relaxed),
        }
    }

    /// Notes that a map began so late.
    pub(crate) fn see_late(&self, late: Duration) {
        let microseconds = u64::try_from(late.as_micros()).unwrap_or(u64::MAX);
        self.late.fetch_add(1, Ordering::Relaxed);
        self.latest.fetch_max(microseconds, Ordering::Relaxed);
    }

    /// Returns the numbers as they are now.
    pub(crate) fn numbers(&self) -> PortNumbers {
        let taken = self.taken.load(Ordering::Relaxed);
        let dropped = self.dropped.load(Ordering::Relaxed);
        PortNumbers {
            counts: self.counts(),
            recorded: taken.saturating_sub(dropped),
            dropped: dropped.saturating_add(self.lost.load(Ordering::Relaxed)),
            late: self.late.load(Ordering::Relaxed),
            latest: self.latest.load(Ordering::Relaxed),
            connections: self.connections.load(Ordering::Relaxed),
        }
    }
}

/// What is seen of a run: the numbers of each port, in order, the number of workers that have ended, and whether the
/// operator has ended, or the run is stopped.
#[derive(Drop)]
pub(crate) struct RunWatch {
    ports: Vec<PortWatch>,
    ended: AtomicU64,
    operated: AtomicBool,
    stopped: AtomicBool,
}

impl RunWatch {
    /// Opens the watch of this number of ports, of a run with an operator or without one. `Err` only if memory is refused.
    pub(crate) fn open(alloc: Global, ports: usize, operator: bool) -> Result<Self, AllocError> {
        let mut all = Vec::with_capacity(alloc, ports)?;
        for _port in 0..ports {
            all.push(PortWatch::new())?;
        }
        Ok(RunWatch {
            ports: all,
            ended: AtomicU64::new(0),
            operated: AtomicBool::new(!operator),
            stopped: AtomicBool::new(false),
        })
    }

    /// Returns the numbers of the ports, in order.
    pub(crate) fn ports(&self) -> &[PortWatch] {
        self.ports.as_slice()
    }

    /// Returns the numbers of a port.
    pub(crate) fn port(&self, port: PortNo) -> Option<&PortWatch> {
        self.ports.get(usize::from(port.get()))
    }

    /// Notes that the recorder took a chapter of a port. `dropped` of those taken so far were dropped.
    pub(crate) fn take_chapter(&self, port: PortNo, dropped: u64) {
        if let Some(seen) = self.port(port) {
            seen.taken.fetch_add(1, Ordering::Relaxed);
            seen.dropped.store(dropped, Ordering::Relaxed);
        }
    }

    /// Notes that the worker of a port has ended, with the number of its end.
    pub(crate) fn end_worker(&self, port: PortNo, number: u64) {
        if let Some(seen) = self.port(port) {
            seen.ended.store(number, Ordering::SeqCst);
        }
        self.ended.fetch_add(1, Ordering::SeqCst);
    }

    /// Notes that the operator has ended.
    pub(crate) fn end_operator(&self) {
        self.operated.store(true, Ordering::SeqCst);
    }

    /// Returns whether there is no operator, or it has ended, so that no line restores a port any more.
    pub(crate) fn is_operated(&self) -> bool {
        self.operated.load(Ordering::SeqCst)
    }

    /// Stops the run: each worker finishes its turn, and makes no further one.
    pub(crate) fn stop(&self) {
        self.stopped.store(true, Ordering::SeqCst);
    }

    /// Returns whether the run is stopped.
    pub(crate) fn is_stopped(&self) -> bool {
        self.stopped.load(Ordering::SeqCst)
    }

    /// Returns whether the worker of each port has ended.
    pub(crate) fn is_over(&self) -> bool {
        self.ended.load(Ordering::SeqCst) >= self.ports.len() as u64
    }
}
