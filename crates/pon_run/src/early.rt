//! Why workers ended, and those that ended early.

use pon_descr::Cause;
use pon_worker::{StopReason, WorkerEnd};
use std::fmt::{self, Display, Formatter, Write};

/// The causes with which a worker gives up its link.
const READS_FAILED: u8 = 2;

const WRITES_FAILED: u8 = 3;

const BAD_RECORD: u8 = 4;

const INPUT_ENDED: u8 = 5;

/// Why a worker ended, in words for a person.
#[derive(Clone, Copy)]
pub(crate) struct WhyEnded(pub(crate) StopReason);

/// The number of a worker that has not ended.
pub(crate) const NOT_ENDED: u64 = 0;

/// The numbers of the ends without a cause, and that of the end with cause 0.
const FINISHED: u64 = 1;

const AT_GATE: u64 = 2;

const REFUSED: u64 = 3;

const FIRST_CAUSE: u64 = 4;

impl WhyEnded {
    /// Returns the number of the end, for those who watch the worker.
    pub(crate) fn number(&self) -> u64 {
        match self.0 {
            StopReason::Finished => FINISHED,
            StopReason::GateLimit => AT_GATE,
            StopReason::Refused(_) => REFUSED,
            StopReason::Gave { cause } => FIRST_CAUSE + u64::from(cause.get()),
        }
    }
}

impl Display for WhyEnded {
    fn fmt<W: Write>(&self, f: &mut Formatter<W>) -> fmt::Result {
        match self.0 {
            StopReason::Finished => f.write_str("it has no more maps to make"),
            StopReason::GateLimit => f.write_str("its gate refused it 10,000 times in a row"),
            StopReason::Refused(fault) => write!(f, "{fault}"),
            StopReason::Gave { cause } => match cause.get() {
                READS_FAILED => f.write_str("three reads in a row failed"),
                WRITES_FAILED => f.write_str("three writes in a row failed"),
                BAD_RECORD => f.write_str("what its units sent is no record"),
                INPUT_ENDED => f.write_str("the units closed their end"),
                cause => write!(f, "cause {cause}"),
            },
        }
    }
}

/// Why a worker ended, from its number.
#[derive(Clone, Copy)]
pub(crate) struct EndNumber(pub(crate) u64);

impl EndNumber {
    // Returns the reason that the number stands for. `None` if the number does not tell it all.
    fn reason(self) -> Option<StopReason> {
        match self.0 {
            FINISHED => Some(StopReason::Finished),
            AT_GATE => Some(StopReason::GateLimit),
            REFUSED => None,
            number => {
                let cause = u8::try_from(number.saturating_sub(FIRST_CAUSE)).ok()?;
                Some(StopReason::Gave {
                    cause: Cause::new(cause)?,
                })
            }
        }
    }
}

impl Display for EndNumber {
    fn fmt<W: Write>(&self, f: &mut Formatter<W>) -> fmt::Result {
        match self.reason() {
            Some(reason) => write!(f, "{}", WhyEnded(reason)),
            None => f.write_str("a map or memory was refused"),
        }
    }
}

/// Prints a line to standard error for each worker that ended early, in the order of the ports.
pub(crate) fn print_early(rt: &impl Eprint, workers: &[WorkerEnd]) {
    for (port, worker) in workers.iter().enumerate() {
        if worker.why != StopReason::Finished {
            let why = WhyEnded(worker.why);
            let _ = eprintln!(rt; "  port {port} ended early: {why}");
        }
    }
}
