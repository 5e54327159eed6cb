/// Maximum number of maps of a run at each port.
pub const MAX_MAPS: u64 = 1_000_000_000;

/// Maximum number of maps of a port in a second by the clock.
pub(crate) const MAX_PACE: u64 = 1_000_000;

/// Maximum number of seconds that a port waits for units elsewhere, or they for it.
pub(crate) const MAX_WAIT: u64 = 3_600;

/// Maximum number of operators of a run that may be connected at once.
pub const MAX_OPERATORS: u64 = 32;

/// The number of operators of a run that may be connected at once, if the command line gives none.
pub const DEFAULT_OPERATORS: u64 = 8;

/// Maximum number of seconds after which a chapter of a recording is cut by the clock.
pub(crate) const MAX_FLUSH: u64 = 3_600;

/// Maximum number of segments of a recording that are kept.
pub const MAX_KEPT: u64 = 1_000_000;

/// The greatest number of a port.
pub(crate) const MAX_PORT: u64 = 63;

/// The least and the greatest Alloc-ID that can be admitted (ITU-T G.987.3).
pub(crate) const MIN_ALLOC: u64 = 1_024;

pub(crate) const MAX_ALLOC: u64 = 16_383;

/// The greatest frame of a map.
pub(crate) const MAX_FRAME: u64 = 18_446_744_073_709_551_615;

/// A view of a recording.
#[derive(Clone, Copy, Debug, PartialEq, Eq)]
pub enum View {
    /// What each chapter holds.
    Info,
    /// The rates of each Alloc-ID.
    Rates,
    /// How the numbers of a map follow from the state before it.
    Why,
    /// The events as management lines, each with its reply.
    Dump,
    /// The time line of a map.
    Picture,
    /// The loads and the rates of an Alloc-ID along the frames.
    Loads,
}

/// The part of a recording that a view shows: each number chooses, and `None` leaves the choice open.
#[derive(Clone, Copy, Debug, PartialEq, Eq)]
pub struct Part {
    /// The number of a port, 0 to 63.
    pub port: Option<u64>,
    /// An Alloc-ID, 1,024 to 16,383.
    pub alloc: Option<u64>,
    /// The frame of a map.
    pub frame: Option<u64>,
    /// The first frame of a range.
    pub from: Option<u64>,
    /// The last frame of a range.
    pub to: Option<u64>,
}

/// A view of a part of a recording.
#[derive(Debug, PartialEq, Eq, Drop)]
pub struct Show<'a> {
    /// The view.
    pub view: View,
    /// The files of the recording; without `joined` there is one.
    pub files: Vec<&'a str>,
    /// Whether the files are one recording, in this order.
    pub joined: bool,
    /// The part of the recording.
    pub part: Part,
    /// The file for a picture of the view; `None` for no picture.
    pub svg: Option<&'a str>,
    /// Whether a picture whose file exists is refused.
    pub no_clobber: bool,
    /// Whether the view is JSON; otherwise it is text.
    pub json: bool,
}

/// An audit of recordings.
#[derive(Debug, PartialEq, Eq, Drop)]
pub struct Audit<'a> {
    /// The files of the recordings.
    pub files: Vec<&'a str>,
    /// Whether the files are one recording, in this order; otherwise each is judged by itself.
    pub joined: bool,
    /// Whether an object of each recording is printed in place of a line.
    pub json: bool,
    /// Whether a recording has to be complete: each port from its chapter 0 on without a gap, and a map.
    pub complete: bool,
}

/// Management lines to be answered.
#[derive(Clone, Copy, Debug, PartialEq, Eq)]
pub struct Plan<'a> {
    /// The settings file of the ports; `None` for one port.
    pub config: Option<&'a str>,
    /// Whether a refused line is a refusal of the input.
    pub strict: bool,
    /// Whether each refusal is explained on standard error.
    pub verbose: bool,
    /// The file for a recording of the ports' chapters; `None` for no recording.
    pub record: Option<&'a str>,
    /// Whether a recording whose file exists is refused.
    pub no_clobber: bool,
    /// Whether a full chapter is forgotten if it is not recorded, so that the port goes on.
    pub forget: bool,
    /// The seconds after which chapters are cut and recorded, 0 to 3,600; `None` if not given.
    pub flush: Option<u64>,
}

/// How the ports of a run meet their units.
#[derive(Clone, Copy, Debug, PartialEq, Eq)]
pub struct Meeting {
    /// Whether the units come from elsewhere.
    pub external: bool,
    /// Whether a port takes one connection of units from elsewhere only.
    pub once: bool,
    /// Whether simulated units get a queue for each Alloc-ID that is admitted during the run.
    pub grow: bool,
    /// The seconds that each port waits for units from elsewhere, 1 to 3,600; `None` if not given.
    pub wait: Option<u64>,
    /// The number of maps that each port makes in a second by the clock, 1 to 1,000,000; `None` for no pace.
    pub pace: Option<u64>,
}

/// How operators connect to a run.
#[derive(Clone, Copy, Debug, PartialEq, Eq)]
pub struct Control<'a> {
    /// The path of the Unix socket for operators; `None` for no such socket.
    pub path: Option<&'a str>,
    /// The address of the TCP socket for operators; `None` for no such socket.
    pub tcp: Option<&'a str>,
    /// The number of operators that may be connected at once, 1 to [`MAX_OPERATORS`]; `None` if not given, which means
    /// [`DEFAULT_OPERATORS`].
    pub operators: Option<u64>,
}

/// The segments of a recording in a folder.
#[derive(Clone, Copy, Debug, PartialEq, Eq)]
pub struct Segments {
    /// The number of maps of a port with which a segment ends, 1 to [`MAX_MAPS`]; `None` for a recording in one file.
    pub maps: Option<u64>,
    /// The number of segments that are kept, 1 to [`MAX_KEPT`]; `None` for all.
    pub keep: Option<u64>,
}

/// How the ports of a run go on where a recording ends.
#[derive(Clone, Copy, Debug, PartialEq, Eq)]
pub struct Resume<'a> {
    /// The file of the recording, or the folder of its files; `None` if the ports begin anew.
    pub from: Option<&'a str>,
    /// Whether a recording that ends inside a chapter is taken up to its last whole chapter.
    pub truncated: bool,
    /// Whether the ports keep their reports and their window of maps; otherwise they take a failure of the line and its end.
    pub warm: bool,
    /// Whether Alloc-IDs in which the settings differ from the recording are changed; otherwise they are refused.
    pub apply: bool,
}

/// A run of the ports of a settings file over sockets.
#[derive(Clone, Copy, Debug, PartialEq, Eq)]
pub struct Run<'a> {
    /// The settings file.
    pub config: &'a str,
    /// The address of the sockets.
    pub listen: &'a str,
    /// The number of maps at each port, 1 to [`MAX_MAPS`]; `None` if the ports go on until the run is stopped.
    pub maps: Option<u64>,
    /// How the ports meet their units.
    pub meeting: Meeting,
    /// The file for a recording of the ports' chapters, or with segments their folder; `None` for no recording.
    pub record: Option<&'a str>,
    /// The segments of the recording.
    pub segments: Segments,
    /// How the ports go on where a recording ends.
    pub resume: Resume<'a>,
    /// Whether a recording whose file exists is refused.
    pub no_clobber: bool,
    /// Whether a recording that lacks a chapter fails the run.
    pub strict_record: bool,
    /// The seconds after which a chapter is cut and recorded, 0 to 3,600; `None` if not given.
    pub flush: Option<u64>,
    /// The file of management lines for an operator, or `-` for standard input; `None` for no lines.
    pub operate: Option<&'a str>,
    /// How operators connect to the run.
    pub control: Control<'a>,
    /// Whether each port is settled at the end with the receipts of all posts.
    pub settle: bool,
    /// Whether the run can be followed on standard error.
    pub progress: bool,
    /// Whether each port has a line on standard error at the end.
    pub summary: bool,
    /// The address at which the run answers with its metrics; `None` for no metrics.
    pub metrics: Option<&'a str>,
}

/// Where a run is reached by an operator.
#[derive(Clone, Copy, Debug, PartialEq, Eq)]
pub enum ControlAt<'a> {
    /// At the Unix socket with this path.
    Path(&'a str),
    /// At the TCP socket with this address.
    Tcp(&'a str),
}

/// A recording that is written anew, in the present version of the format.
#[derive(Clone, Copy, Debug, PartialEq, Eq)]
pub struct Migration<'a> {
    /// The file of the recording.
    pub file: &'a str,
    /// The file that is written.
    pub out: &'a str,
    /// Whether a file to write that exists is refused.
    pub no_clobber: bool,
}

/// The simulated units of a settings file, for a terminal elsewhere.
#[derive(Clone, Copy, Debug, PartialEq, Eq)]
pub struct Units<'a> {
    /// The settings file.
    pub config: &'a str,
    /// The address of port 0 of the terminal.
    pub connect: &'a str,
    /// The port that the units are of, 0 to 63; `None` for the units of all ports.
    pub port: Option<u64>,
    /// The seconds for which the units try to connect, 1 to 3,600; `None` if not given.
    pub wait: Option<u64>,
}

/// A job of the program.
#[derive(Debug, PartialEq, Eq, Drop)]
pub enum Job<'a> {
    /// Answer management lines from standard input.
    Plan(Plan<'a>),
    /// Check the certificate of the check file `file`.
    Check { file: &'a str },
    /// Audit recordings.
    Audit(Audit<'a>),
    /// Show a part of a recording.
    Show(Show<'a>),
    /// Write a recording anew, in the present version of the format.
    Migrate(Migration<'a>),
    /// Serve ports over sockets.
    Run(Run<'a>),
    /// Stop a run, and wait until it has ended.
    Stop(ControlAt<'a>),
    /// Send management lines to a run.
    Operate(ControlAt<'a>),
    /// Answer the maps of a terminal elsewhere.
    Units(Units<'a>),
}
