//! The arguments and options of the commands.

ghost use Rattle.std.specs.Prelude.{◌≡◌, false};
ghost use Rattle.clap.specs.Walk.{rule_of};
ghost use Rattle.pon_job.specs.Jobs.{alloc_rule, apply_rule, complete_rule, config_rule, connect_rule, control_rule, control_tcp_rule, file_rule, files_rule, flag_rule, flush_rule, forget_rule, frame_rule, format_rule, from_rule, grow_rule, joined_rule, keep_rule, listen_rule, maps_rule, metrics_rule, no_clobber_rule, number_rule, once_rule, operate_rule, operators_rule, option_rule, out_rule, pace_rule, place_rule, port_rule, progress_rule, record_rule, resume_rule, resume_truncated_rule, segment_rule, settle_rule, strict_record_rule, strict_rule, summary_rule, svg_rule, to_rule, units_rule, verbose_rule, wait_rule, warm_rule};

use crate::task::{
    MAX_ALLOC, MAX_FLUSH, MAX_FRAME, MAX_KEPT, MAX_MAPS, MAX_OPERATORS, MAX_PACE, MAX_PORT,
    MAX_WAIT, MIN_ALLOC,
};
use clap::builder::ValueParser;
use clap::{Arg, ArgAction};
use std::alloc::Global;

/// The help of the option for an Alloc-ID, with its range.
const ALLOC_HELP: &str = "The Alloc-ID, 1024 to 16383";

// Makes an argument that is given by its place, and is required.
fn place_arg<'a>(alloc: Global, id: &'a str, value: &'a str, help: &'a str) -> Arg<'a>
    ensures rule { rule_of result ≡ place_rule id.now }
    ensures local { result.global ≡ false }
{
    Arg::new(alloc, id)
        .value_name(value)
        .help(help)
        .required(true)
}

// Makes an option with a value.
fn option_arg<'a>(alloc: Global, id: &'a str, value: &'a str, help: &'a str) -> Arg<'a>
    ensures rule { rule_of result ≡ option_rule id.now }
    ensures local { result.global ≡ false }
{
    Arg::new(alloc, id).long(id).value_name(value).help(help)
}

// Makes an option whose value is a number in a range.
fn number_arg<'a>(alloc: Global, id: &'a str, low: u64, high: u64, help: &'a str) -> Arg<'a>
    ensures rule { rule_of result ≡ number_rule id.now low high }
    ensures local { result.global ≡ false }
{
    option_arg(alloc, id, "NUMBER", help).value_parser(ValueParser::unsigned(low, high))
}

// Makes a flag.
fn flag_arg<'a>(alloc: Global, id: &'a str, help: &'a str) -> Arg<'a>
    ensures rule { rule_of result ≡ flag_rule id.now }
    ensures local { result.global ≡ false }
{
    Arg::new(alloc, id)
        .long(id)
        .action(ArgAction::SetTrue)
        .help(help)
}

pub(crate) fn check_file_arg<'a>(alloc: Global) -> Arg<'a>
    ensures rule { rule_of result ≡ file_rule }
    ensures local { result.global ≡ false }
{
    let help = "The check file: a surplus, its items and their certificate";
    place_arg(alloc, "file", "FILE", help)
}

pub(crate) fn recording_arg<'a>(alloc: Global) -> Arg<'a>
    ensures rule { rule_of result ≡ file_rule }
    ensures local { result.global ≡ false }
{
    place_arg(alloc, "file", "FILE", "The recording")
}

pub(crate) fn recordings_arg<'a>(alloc: Global, help: &'a str) -> Arg<'a>
    ensures rule { rule_of result ≡ files_rule }
    ensures local { result.global ≡ false }
{
    place_arg(alloc, "file", "FILE", help).action(ArgAction::Append)
}

pub(crate) fn joined_arg<'a>(alloc: Global, help: &'a str) -> Arg<'a>
    ensures rule { rule_of result ≡ joined_rule }
    ensures local { result.global ≡ false }
{
    flag_arg(alloc, "joined", help)
}

pub(crate) fn out_arg<'a>(alloc: Global) -> Arg<'a>
    ensures rule { rule_of result ≡ out_rule }
    ensures local { result.global ≡ false }
{
    let help = "The file of the recording that is written";
    place_arg(alloc, "out", "OUT", help)
}

pub(crate) fn config_arg<'a>(alloc: Global) -> Arg<'a>
    ensures rule { rule_of result ≡ config_rule }
    ensures local { result.global ≡ false }
{
    let help = "The settings of the ports and their Alloc-IDs, in TOML";
    option_arg(alloc, "config", "FILE", help)
}

pub(crate) fn listen_arg<'a>(alloc: Global) -> Arg<'a>
    ensures rule { rule_of result ≡ listen_rule }
    ensures local { result.global ≡ false }
{
    let help = "The socket address that the ports listen on, such as 127.0.0.1:0";
    option_arg(alloc, "listen", "ADDRESS", help).required(true)
}

pub(crate) fn units_arg<'a>(alloc: Global) -> Arg<'a>
    ensures rule { rule_of result ≡ units_rule }
    ensures local { result.global ≡ false }
{
    let help =
        "Where the units are: simulated in this program, or external ones, which connect to each port [default: simulated] [possible values: simulated, external]";
    option_arg(alloc, "units", "PLACE", help)
}

pub(crate) fn wait_arg<'a>(alloc: Global) -> Arg<'a>
    ensures rule { rule_of result ≡ wait_rule }
    ensures local { result.global ≡ false }
{
    let help =
        "Seconds that a connection with external units may keep waiting, 1 to 3600 [default: 10]";
    number_arg(alloc, "wait", 1, MAX_WAIT, help)
}

pub(crate) fn pace_arg<'a>(alloc: Global) -> Arg<'a>
    ensures rule { rule_of result ≡ pace_rule }
    ensures local { result.global ≡ false }
{
    let help =
        "Maps per second on each port, 1 to 1000000 (8000 is the line's rate); unlimited if omitted";
    number_arg(alloc, "pace", 1, MAX_PACE, help)
}

pub(crate) fn progress_arg<'a>(alloc: Global) -> Arg<'a>
    ensures rule { rule_of result ≡ progress_rule }
    ensures local { result.global ≡ false }
{
    let help = "Print a line for each port once a second on standard error";
    flag_arg(alloc, "progress", help)
}

pub(crate) fn summary_arg<'a>(alloc: Global) -> Arg<'a>
    ensures rule { rule_of result ≡ summary_rule }
    ensures local { result.global ≡ false }
{
    let help =
        "Print at the end what each port refused, its late maps and connections on standard error";
    flag_arg(alloc, "summary", help)
}

pub(crate) fn metrics_arg<'a>(alloc: Global) -> Arg<'a>
    ensures rule { rule_of result ≡ metrics_rule }
    ensures local { result.global ≡ false }
{
    let help = "The TCP socket that answers GET /metrics for Prometheus, such as 127.0.0.1:9464";
    option_arg(alloc, "metrics", "ADDRESS", help)
}

pub(crate) fn connect_arg<'a>(alloc: Global) -> Arg<'a>
    ensures rule { rule_of result ≡ connect_rule }
    ensures local { result.global ≡ false }
{
    let help = "The socket address of port 0; each further port has the next TCP port";
    option_arg(alloc, "connect", "ADDRESS", help).required(true)
}

pub(crate) fn maps_arg<'a>(alloc: Global) -> Arg<'a>
    ensures rule { rule_of result ≡ maps_rule }
    ensures local { result.global ≡ false }
{
    let help = "The number of maps that each port makes, 1 to 1000000000; no end if omitted";
    number_arg(alloc, "maps", 1, MAX_MAPS, help)
}

pub(crate) fn record_arg<'a>(alloc: Global) -> Arg<'a>
    ensures rule { rule_of result ≡ record_rule }
    ensures local { result.global ≡ false }
{
    let help = "The file of a recording, which is replaced by a whole one";
    option_arg(alloc, "record", "FILE", help)
}

pub(crate) fn segment_arg<'a>(alloc: Global) -> Arg<'a>
    ensures rule { rule_of result ≡ segment_rule }
    ensures local { result.global ≡ false }
{
    let help =
        "Record in files of the folder --record, each of which ends when a port has this number of maps in it, 1 to 1000000000";
    number_arg(alloc, "segment", 1, MAX_MAPS, help)
}

pub(crate) fn keep_arg<'a>(alloc: Global) -> Arg<'a>
    ensures rule { rule_of result ≡ keep_rule }
    ensures local { result.global ≡ false }
{
    let help =
        "Keep the newest files of --segment, this number, and remove older ones, 1 to 1000000";
    number_arg(alloc, "keep", 1, MAX_KEPT, help)
}

pub(crate) fn resume_arg<'a>(alloc: Global) -> Arg<'a>
    ensures rule { rule_of result ≡ resume_rule }
    ensures local { result.global ≡ false }
{
    let help = "A good recording, or the folder of one, after which the ports go on";
    option_arg(alloc, "resume", "PATH", help)
}

pub(crate) fn resume_truncated_arg<'a>(alloc: Global) -> Arg<'a>
    ensures rule { rule_of result ≡ resume_truncated_rule }
    ensures local { result.global ≡ false }
{
    let help = "Go on after the last whole chapter of a recording that is cut";
    flag_arg(alloc, "resume-truncated", help)
}

pub(crate) fn warm_arg<'a>(alloc: Global) -> Arg<'a>
    ensures rule { rule_of result ≡ warm_rule }
    ensures local { result.global ≡ false }
{
    let help =
        "Keep the reports and the window of the recording; without it the resumed ports take a failure and its end";
    flag_arg(alloc, "warm", help)
}

pub(crate) fn apply_arg<'a>(alloc: Global) -> Arg<'a>
    ensures rule { rule_of result ≡ apply_rule }
    ensures local { result.global ≡ false }
{
    let help =
        "Change the resumed ports as the settings say; without it other Alloc-IDs or descriptors are refused";
    flag_arg(alloc, "apply", help)
}

pub(crate) fn operate_arg<'a>(alloc: Global) -> Arg<'a>
    ensures rule { rule_of result ≡ operate_rule }
    ensures local { result.global ≡ false }
{
    let help = "Management lines for an operator, or - for standard input";
    option_arg(alloc, "operate", "FILE", help)
}

pub(crate) fn control_arg<'a>(alloc: Global, help: &'a str) -> Arg<'a>
    ensures rule { rule_of result ≡ control_rule }
    ensures local { result.global ≡ false }
{
    option_arg(alloc, "control", "PATH", help)
}

pub(crate) fn control_tcp_arg<'a>(alloc: Global, help: &'a str) -> Arg<'a>
    ensures rule { rule_of result ≡ control_tcp_rule }
    ensures local { result.global ≡ false }
{
    option_arg(alloc, "control-tcp", "ADDRESS", help)
}

pub(crate) fn operators_arg<'a>(alloc: Global) -> Arg<'a>
    ensures rule { rule_of result ≡ operators_rule }
    ensures local { result.global ≡ false }
{
    let help = "How many operators may be connected at once, 1 to 32 [default: 8]";
    number_arg(alloc, "operators", 1, MAX_OPERATORS, help)
}

pub(crate) fn settle_arg<'a>(alloc: Global) -> Arg<'a>
    ensures rule { rule_of result ≡ settle_rule }
    ensures local { result.global ≡ false }
{
    let help = "Keep the receipts of all posts, and settle each port with them at the end";
    flag_arg(alloc, "settle", help)
}

pub(crate) fn no_clobber_arg<'a>(alloc: Global) -> Arg<'a>
    ensures rule { rule_of result ≡ no_clobber_rule }
    ensures local { result.global ≡ false }
{
    let help = "Refuse to replace a file that exists";
    flag_arg(alloc, "no-clobber", help)
}

pub(crate) fn forget_arg<'a>(alloc: Global) -> Arg<'a>
    ensures rule { rule_of result ≡ forget_rule }
    ensures local { result.global ≡ false }
{
    let help = "Forget a port's chapter when it is full, and go on, in place of E20";
    flag_arg(alloc, "forget", help)
}

pub(crate) fn flush_arg<'a>(alloc: Global, help: &'a str) -> Arg<'a>
    ensures rule { rule_of result ≡ flush_rule }
    ensures local { result.global ≡ false }
{
    number_arg(alloc, "flush", 0, MAX_FLUSH, help)
}

pub(crate) fn once_arg<'a>(alloc: Global) -> Arg<'a>
    ensures rule { rule_of result ≡ once_rule }
    ensures local { result.global ≡ false }
{
    let help = "Take one connection of external units on each port, and none after it";
    flag_arg(alloc, "once", help)
}

pub(crate) fn grow_arg<'a>(alloc: Global) -> Arg<'a>
    ensures rule { rule_of result ≡ grow_rule }
    ensures local { result.global ≡ false }
{
    let help = "Let simulated units also answer for Alloc-IDs that are admitted during the run";
    flag_arg(alloc, "grow", help)
}

pub(crate) fn strict_record_arg<'a>(alloc: Global) -> Arg<'a>
    ensures rule { rule_of result ≡ strict_record_rule }
    ensures local { result.global ≡ false }
{
    let help = "End with status 3 if the recording lacks a chapter";
    flag_arg(alloc, "strict-record", help)
}

pub(crate) fn strict_arg<'a>(alloc: Global) -> Arg<'a>
    ensures rule { rule_of result ≡ strict_rule }
    ensures local { result.global ≡ false }
{
    let help = "End with status 1 if a line was refused";
    flag_arg(alloc, "strict", help)
}

pub(crate) fn verbose_arg<'a>(alloc: Global) -> Arg<'a>
    ensures rule { rule_of result ≡ verbose_rule }
    ensures local { result.global ≡ false }
{
    let help = "Explain each refused line on standard error";
    flag_arg(alloc, "verbose", help)
}

pub(crate) fn port_arg<'a>(alloc: Global) -> Arg<'a>
    ensures rule { rule_of result ≡ port_rule }
    ensures local { result.global ≡ false }
{
    number_arg(alloc, "port", 0, MAX_PORT, "The port, 0 to 63")
}

pub(crate) fn alloc_arg<'a>(alloc: Global) -> Arg<'a>
    ensures rule { rule_of result ≡ alloc_rule }
    ensures local { result.global ≡ false }
{
    number_arg(alloc, "alloc", MIN_ALLOC, MAX_ALLOC, ALLOC_HELP)
}

pub(crate) fn frame_arg<'a>(alloc: Global) -> Arg<'a>
    ensures rule { rule_of result ≡ frame_rule }
    ensures local { result.global ≡ false }
{
    number_arg(
        alloc,
        "frame",
        0,
        MAX_FRAME,
        "The frame of the map; the last one if it is not given",
    )
}

pub(crate) fn from_arg<'a>(alloc: Global) -> Arg<'a>
    ensures rule { rule_of result ≡ from_rule }
    ensures local { result.global ≡ false }
{
    number_arg(alloc, "from", 0, MAX_FRAME, "The first frame of the maps")
}

pub(crate) fn to_arg<'a>(alloc: Global) -> Arg<'a>
    ensures rule { rule_of result ≡ to_rule }
    ensures local { result.global ≡ false }
{
    number_arg(alloc, "to", 0, MAX_FRAME, "The last frame of the maps")
}

pub(crate) fn format_arg<'a>(alloc: Global) -> Arg<'a>
    ensures rule { rule_of result ≡ format_rule }
    ensures local { result.global ≡ false }
{
    let help =
        "How it is printed: as text, or as JSON, an object a line [default: text] [possible values: text, json]";
    option_arg(alloc, "format", "FORMAT", help)
}

pub(crate) fn complete_arg<'a>(alloc: Global) -> Arg<'a>
    ensures rule { rule_of result ≡ complete_rule }
    ensures local { result.global ≡ false }
{
    let help = "Name each gap in the chapters, and end with status 1 if there is one, or no map";
    flag_arg(alloc, "complete", help)
}

pub(crate) fn svg_arg<'a>(alloc: Global) -> Arg<'a>
    ensures rule { rule_of result ≡ svg_rule }
    ensures local { result.global ≡ false }
{
    option_arg(
        alloc,
        "svg",
        "FILE",
        "The file of the picture as SVG, which is made anew",
    )
}
