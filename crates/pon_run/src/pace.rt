//! The turns of a worker in a run: at their times, if it has a pace, and until the run is stopped.

use crate::context::RunContext;
use crate::timer::Timer;
use crate::watch::{PortWatch, RunWatch};
use pon_files::FlushTimer;
use pon_units::PortNo;
use pon_worker::{Gate, Pace, PortCounts, Turns};
use std::time::Clock;

/// A number of turns, made while the run is not stopped, each at its time if there is a timer.
#[derive(Drop)]
pub(crate) struct RunPace<'a, R> {
    turns: Turns,
    run: &'a RunWatch,
    timer: Option<Timer<'a, R>>,
    watch: Option<&'a PortWatch>,
    // What the port counted before.
    before: PortCounts,
    // Says when a chapter of the recording is cut by the clock.
    flush: Option<FlushTimer<'a, R>>,
    // Whether the worker is held back for a cut.
    cut: bool,
}

// Returns the timer of the cuts, if chapters are recorded and cut by the clock.
fn flush_of<'a, G: Gate, R: Clock>(run: &RunContext<'a, G, R>) -> Option<FlushTimer<'a, R>> {
    run.args.record?;
    FlushTimer::new(run.rt, run.args.flush)
}

impl<'a, R: Clock> RunPace<'a, R> {
    /// Makes the pace of the worker of a port for the maps that are left after what it did before.
    pub(crate) fn new<G: Gate>(
        run: &'a RunContext<'a, G, R>,
        port: PortNo,
        before: PortCounts,
    ) -> Self {
        RunPace {
            turns: Turns::new(run.args.maps_left(before.maps)),
            run: run.watch,
            timer: run.args.pace.map(|rate| Timer::new(run.rt, rate)),
            watch: run.watch.port(port),
            before,
            flush: flush_of(run),
            cut: false,
        }
    }

    // Returns whether a chapter is to be cut now.
    fn is_cut_due(&mut self) -> bool {
        match &mut self.flush {
            Some(flush) => flush.is_due(),
            None => false,
        }
    }

    /// Returns whether the worker, which did this before, was held back for a cut, and makes further turns after it.
    pub(crate) fn takes_cut(&mut self, before: PortCounts) -> bool {
        let cut = self.cut;
        self.cut = false;
        self.before = before;
        cut
    }

    // Waits for the time of the next turn, and notes if it is late.
    fn wait(&mut self) {
        let Some(timer) = &mut self.timer else {
            return;
        };
        if let (Some(late), Some(watch)) = (timer.wait(), self.watch) {
            watch.see_late(late);
        }
    }
}

impl<'a, R: Clock> Pace for RunPace<'a, R> {
    fn next(&mut self, counts: &PortCounts, dropped: u64) -> bool {
        if let Some(watch) = self.watch {
            watch.see(&self.before.plus(counts), dropped);
        }
        if self.run.is_stopped() {
            return false;
        }
        self.cut = self.is_cut_due();
        if self.cut || !self.turns.next(counts, dropped) {
            return false;
        }
        self.wait();
        true
    }
}
