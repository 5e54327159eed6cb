//! The arguments of a run.

ghost use Rattle.std.specs.Prelude.{◌≤◌};

use crate::ports::{MAX_OTHER_SEATS, OTHER_SEATS};
use pon_job::{Control, DEFAULT_OPERATORS, MAX_OPERATORS, Segments};
use pon_sockets::ExternalUnits;

/// Where the units of the ports of a run are.
#[derive(Clone, Copy, Debug, PartialEq, Eq)]
pub enum UnitsPlace {
    /// In this process: simulated units answer each port. If they grow, an Alloc-ID that is admitted during the run gets an
    /// empty queue at the unit of its ONU.
    Here { grow: bool },
    /// Elsewhere: units connect to each port.
    Elsewhere(ExternalUnits),
}

/// Where the management lines of an operator come from.
#[derive(Clone, Copy, Debug, PartialEq, Eq)]
pub enum LinesFrom<'a> {
    /// A file, whose lines are all executed.
    File(&'a str),
    /// Standard input, until the workers have ended.
    StandardInput,
}

/// The arguments of a run, besides its settings.
#[derive(Clone, Copy, Debug, PartialEq, Eq)]
pub struct RunArgs<'a> {
    /// The address to listen on: an IP address or a host name, a colon and a port; port 0 selects a free one.
    pub listen: &'a str,
    /// Where the units of the ports are.
    pub units: UnitsPlace,
    /// The number of maps that each port makes; `None` if the ports go on until the run is stopped.
    pub maps: Option<u64>,
    /// The number of maps of each port in a second of the clock. `None` if each map is made as soon as the one before is
    /// answered.
    pub pace: Option<u64>,
    /// The file of a recording of the ports' chapters. It is written as its part, and replaced when the recording is whole. With
    /// segments it is their folder.
    pub record: Option<&'a str>,
    /// The segments of the recording.
    pub segments: Segments,
    /// The file or folder of the recording after which the ports go on, which the recording may not replace.
    pub resumed_from: Option<&'a str>,
    /// The seconds after which a chapter that is recorded is cut and written, also if it is not full. 0 for never.
    pub flush: u64,
    /// Whether the run is refused if the file of the recording exists.
    pub no_clobber: bool,
    /// Whether the run fails if its recording lacks a chapter.
    pub strict_record: bool,
    /// The file that the settings were read from, which the recording may not replace.
    pub config: Option<&'a str>,
    /// The management lines that are executed during the run.
    pub operate: Option<LinesFrom<'a>>,
    /// Where further operators connect to the run, and how many at once.
    pub control: Control<'a>,
    /// Whether each port is settled at the end with the receipts of all posts.
    pub settle: bool,
    /// Whether standard error has once a second a line for each port with what it did so far.
    pub progress: bool,
    /// Whether standard error has at the end a line for each port with its refused and garbled reports, its late maps, its
    /// connections, and why its worker ended.
    pub summary: bool,
    /// The address at which the run answers with its metrics; one that is a port alone is of this machine alone.
    pub metrics: Option<&'a str>,
}

impl<'a> RunArgs<'a> {
    /// The number of maps that a port still makes after this number of them.
    pub(crate) fn maps_left(&self, made: u64) -> u64 {
        match self.maps {
            Some(maps) => maps.saturating_sub(made),
            None => u64::MAX,
        }
    }

    /// Whether operators can connect to the run.
    pub(crate) fn is_controlled(&self) -> bool {
        self.control.path.is_some() || self.control.tcp.is_some()
    }

    /// Whether an operator may restore a port.
    pub(crate) fn has_operator(&self) -> bool {
        self.operate.is_some() || self.is_controlled()
    }

    /// The number of seats besides those of the workers: one for the rows of the settings, one for the operator, and one for
    /// each operator that may be connected.
    pub(crate) fn other_seats(&self) -> usize
        ensures least { OTHER_SEATS ≤ result }
        ensures most { result ≤ MAX_OTHER_SEATS }
    {
        if !self.is_controlled() {
            return OTHER_SEATS;
        }
        let operators = self.control.operators.unwrap_or(DEFAULT_OPERATORS);
        OTHER_SEATS + operators.min(MAX_OPERATORS) as usize
    }

    /// The file of the operator's management lines, if they come from one.
    pub(crate) fn lines_file(&self) -> Option<&'a str> {
        match self.operate {
            Some(LinesFrom::File(name)) => Some(name),
            Some(LinesFrom::StandardInput) | None => None,
        }
    }
}
