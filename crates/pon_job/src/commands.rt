//! The command line of the program.

ghost use Rattle.std.specs.Prelude.{◌≡◌, IfOk, IsOkAnd, map};
ghost use Rattle.clap.specs.Built.{AddsSubcommand};
ghost use Rattle.clap.specs.Walk.{rule_of};
ghost use Rattle.clap.specs.Simple.{App, app_of};
ghost use Rattle.pon_job.specs.Jobs.{AreLocal, IsDefined, leaf, olt_app, shape_with, with_views};
ghost use Rattle.pon_job.specs.Jobs.{audit_shape, check_shape, dump_shape, info_shape, loads_shape, migrate_shape, operate_shape, picture_shape, plan_shape, rates_shape, run_shape, stop_shape, top_shape, units_shape, why_shape};

use crate::options::{
    alloc_arg, apply_arg, check_file_arg, complete_arg, config_arg, connect_arg, control_arg,
    control_tcp_arg, flush_arg, forget_arg, format_arg, frame_arg, from_arg, grow_arg, joined_arg,
    keep_arg, listen_arg, maps_arg, metrics_arg, no_clobber_arg, once_arg, operate_arg,
    operators_arg, out_arg, pace_arg, port_arg, progress_arg, record_arg, recording_arg,
    recordings_arg, resume_arg, resume_truncated_arg, segment_arg, settle_arg, strict_arg,
    strict_record_arg, summary_arg, svg_arg, to_arg, units_arg, verbose_arg, wait_arg, warm_arg,
};
use clap::{Arg, Command};
use std::alloc::{AllocError, Global};

/// The version of the program, and the logic of the kit that its proofs are of.
pub const VERSION: &str = "0.3.0 (Rattle logic dac8208d650f15bf)";

/// The help of `--flush` of lines and of runs.
const PLAN_FLUSH_HELP: &str =
    "Seconds after which the chapters so far are written, 0 to 3600; 0 for full ones only [default: 1]";

const RUN_FLUSH_HELP: &str =
    "Seconds after which a chapter that is not full is written, 0 to 3600; 0 for full ones only [default: 0]";

/// The help of the files and of `--joined` of a view, and of `--joined` of an audit.
const VIEWED_HELP: &str = "The recording, or with --joined the files of one";

const VIEW_JOINED_HELP: &str = "Take the files as one recording, in this order";

const AUDIT_JOINED_HELP: &str = "Judge the files as one recording, in this order";

/// The help of the sockets for operators, at the run and at those that connect to it.
const LISTEN_CONTROL_HELP: &str = "The Unix socket that operators connect to, which is made";

const LISTEN_CONTROL_TCP_HELP: &str =
    "The TCP socket that operators connect to, such as 127.0.0.1:7000";

const CONTROL_HELP: &str = "The Unix socket of the run for operators";

const CONTROL_TCP_HELP: &str = "The TCP socket of the run for operators";

// Makes a subcommand with these arguments; its help ends with an example.
fn command<'a>(
    alloc: Global,
    name: &'a str,
    about: &'a str,
    example: &'a str,
    args: Vec<Arg<'a>>,
) -> Result<Command<'a>, AllocError>
    requires { AreLocal args.items }
    ensures { IfOk result (IsDefined (leaf (shape_with name.now (map rule_of args.entry.items)))) }
{
    Command::new(alloc, name)
        .about(about)
        .after_help(example)
        .args(args)
}

fn plan_command<'a>(alloc: Global) -> Result<Command<'a>, AllocError>
    ensures { IfOk result (IsDefined (leaf plan_shape)) }
{
    let about = "Answer management lines from standard input";
    let args = Vec::from_array(
        alloc,
        [
            config_arg(alloc),
            strict_arg(alloc),
            verbose_arg(alloc),
            record_arg(alloc),
            no_clobber_arg(alloc),
            forget_arg(alloc),
            flush_arg(alloc, PLAN_FLUSH_HELP),
        ],
    )?;
    let example = "Example: olt plan --config ports.toml <lines";
    command(alloc, "plan", about, example, args)
}

fn check_command<'a>(alloc: Global) -> Result<Command<'a>, AllocError>
    ensures { IfOk result (IsDefined (leaf check_shape)) }
{
    let about = "Judge the certificate of a shared surplus";
    let args = Vec::from_array(alloc, [check_file_arg(alloc)])?;
    let example = "Example: olt check problem";
    command(alloc, "check", about, example, args)
}

fn audit_command<'a>(alloc: Global) -> Result<Command<'a>, AllocError>
    ensures { IfOk result (IsDefined (leaf audit_shape)) }
{
    let about = "Judge recordings: each entry and each map of them";
    let args = Vec::from_array(
        alloc,
        [
            recordings_arg(alloc, "The recordings"),
            joined_arg(alloc, AUDIT_JOINED_HELP),
            complete_arg(alloc),
            format_arg(alloc),
        ],
    )?;
    let example = "Example: olt audit recording";
    command(alloc, "audit", about, example, args)
}

fn info_command<'a>(alloc: Global) -> Result<Command<'a>, AllocError>
    ensures { IfOk result (IsDefined (leaf info_shape)) }
{
    let about = "Print what each chapter of a recording holds, in the order of the file";
    let args = Vec::from_array(
        alloc,
        [
            recordings_arg(alloc, VIEWED_HELP),
            joined_arg(alloc, VIEW_JOINED_HELP),
            format_arg(alloc),
        ],
    )?;
    let example = "Example: olt info recording --format json";
    command(alloc, "info", about, example, args)
}

fn rates_command<'a>(alloc: Global) -> Result<Command<'a>, AllocError>
    ensures { IfOk result (IsDefined (leaf rates_shape)) }
{
    let about = "Print the rates of each Alloc-ID of a recording";
    let args = Vec::from_array(
        alloc,
        [
            recordings_arg(alloc, VIEWED_HELP),
            joined_arg(alloc, VIEW_JOINED_HELP),
            port_arg(alloc),
            alloc_arg(alloc),
            from_arg(alloc),
            to_arg(alloc),
            format_arg(alloc),
        ],
    )?;
    let example = "Example: olt rates recording --port 0 --alloc 1024";
    command(alloc, "rates", about, example, args)
}

fn why_command<'a>(alloc: Global) -> Result<Command<'a>, AllocError>
    ensures { IfOk result (IsDefined (leaf why_shape)) }
{
    let about = "Explain why each Alloc-ID got its grant in one map of a recording";
    let args = Vec::from_array(
        alloc,
        [
            recordings_arg(alloc, VIEWED_HELP),
            joined_arg(alloc, VIEW_JOINED_HELP),
            port_arg(alloc),
            frame_arg(alloc),
            alloc_arg(alloc),
            format_arg(alloc),
        ],
    )?;
    let example = "Example: olt why recording --frame 5 --alloc 1024";
    command(alloc, "why", about, example, args)
}

fn dump_command<'a>(alloc: Global) -> Result<Command<'a>, AllocError>
    ensures { IfOk result (IsDefined (leaf dump_shape)) }
{
    let about =
        "Print the events of a recording as management lines with their replies, in the order of the file";
    let args = Vec::from_array(
        alloc,
        [
            recordings_arg(alloc, VIEWED_HELP),
            joined_arg(alloc, VIEW_JOINED_HELP),
            port_arg(alloc),
        ],
    )?;
    let example = "Example: olt dump recording --port 0";
    command(alloc, "dump", about, example, args)
}

fn picture_command<'a>(alloc: Global) -> Result<Command<'a>, AllocError>
    ensures { IfOk result (IsDefined (leaf picture_shape)) }
{
    let about = "Print the time line of a map of a recording";
    let args = Vec::from_array(
        alloc,
        [
            recordings_arg(alloc, VIEWED_HELP),
            joined_arg(alloc, VIEW_JOINED_HELP),
            port_arg(alloc),
            frame_arg(alloc),
            svg_arg(alloc),
            no_clobber_arg(alloc),
        ],
    )?;
    let example = "Example: olt picture recording --frame 5 --svg map.svg";
    command(alloc, "picture", about, example, args)
}

fn loads_command<'a>(alloc: Global) -> Result<Command<'a>, AllocError>
    ensures { IfOk result (IsDefined (leaf loads_shape)) }
{
    let about = "Print what an Alloc-ID requested and got, along the frames of a recording";
    let args = Vec::from_array(
        alloc,
        [
            recordings_arg(alloc, VIEWED_HELP),
            joined_arg(alloc, VIEW_JOINED_HELP),
            alloc_arg(alloc).required(true),
            port_arg(alloc),
            from_arg(alloc),
            to_arg(alloc),
            svg_arg(alloc),
            no_clobber_arg(alloc),
        ],
    )?;
    let example = "Example: olt loads recording --alloc 1024 --svg loads.svg";
    command(alloc, "loads", about, example, args)
}

fn migrate_command<'a>(alloc: Global) -> Result<Command<'a>, AllocError>
    ensures { IfOk result (IsDefined (leaf migrate_shape)) }
{
    let about = "Write a recording of version 1 as one of version 2, with the same chapters";
    let args = Vec::from_array(
        alloc,
        [recording_arg(alloc), out_arg(alloc), no_clobber_arg(alloc)],
    )?;
    let example = "Example: olt migrate old new";
    command(alloc, "migrate", about, example, args)
}

fn run_command<'a>(alloc: Global) -> Result<Command<'a>, AllocError>
    ensures { IfOk result (IsDefined (leaf run_shape)) }
{
    let args = Vec::from_array(
        alloc,
        [
            config_arg(alloc).required(true),
            listen_arg(alloc),
            maps_arg(alloc),
            units_arg(alloc),
            once_arg(alloc),
            grow_arg(alloc),
            wait_arg(alloc),
            pace_arg(alloc),
            record_arg(alloc),
            segment_arg(alloc),
            keep_arg(alloc),
            resume_arg(alloc),
            resume_truncated_arg(alloc),
            warm_arg(alloc),
            apply_arg(alloc),
            no_clobber_arg(alloc),
            strict_record_arg(alloc),
            flush_arg(alloc, RUN_FLUSH_HELP),
            operate_arg(alloc),
            control_arg(alloc, LISTEN_CONTROL_HELP),
            control_tcp_arg(alloc, LISTEN_CONTROL_TCP_HELP),
            operators_arg(alloc),
            settle_arg(alloc),
            progress_arg(alloc),
            summary_arg(alloc),
            metrics_arg(alloc),
        ],
    )?;
    let about = "Make maps at each port, over sockets";
    let example =
        "Example: olt run --config ports.toml --listen 127.0.0.1:0 --maps 8000 --record recording";
    command(alloc, "run", about, example, args)
}

fn stop_command<'a>(alloc: Global) -> Result<Command<'a>, AllocError>
    ensures { IfOk result (IsDefined (leaf stop_shape)) }
{
    let about = "Stop a run through its control socket, and wait until it has ended";
    let args = Vec::from_array(
        alloc,
        [
            control_arg(alloc, CONTROL_HELP),
            control_tcp_arg(alloc, CONTROL_TCP_HELP),
        ],
    )?;
    let example = "Example: olt stop --control /run/olt.sock";
    command(alloc, "stop", about, example, args)
}

fn operate_command<'a>(alloc: Global) -> Result<Command<'a>, AllocError>
    ensures { IfOk result (IsDefined (leaf operate_shape)) }
{
    let about =
        "Send management lines to a run through its control socket; status 1 if one was refused";
    let args = Vec::from_array(
        alloc,
        [
            control_arg(alloc, CONTROL_HELP),
            control_tcp_arg(alloc, CONTROL_TCP_HELP),
        ],
    )?;
    let example = "Example: olt operate --control /run/olt.sock";
    command(alloc, "operate", about, example, args)
}

fn units_command<'a>(alloc: Global) -> Result<Command<'a>, AllocError>
    ensures { IfOk result (IsDefined (leaf units_shape)) }
{
    let about = "Answer the maps of a terminal elsewhere with simulated units";
    let args = Vec::from_array(
        alloc,
        [
            config_arg(alloc).required(true),
            connect_arg(alloc),
            port_arg(alloc),
            wait_arg(alloc),
        ],
    )?;
    let example = "Example: olt units --config ports.toml --connect 127.0.0.1:5000";
    command(alloc, "units", about, example, args)
}

// Makes the program's command without its subcommands.
fn top_command<'a>(alloc: Global) -> Result<Command<'a>, AllocError>
    ensures { IfOk result (λ c. app_of c ≡ leaf top_shape) }
{
    Ok(
        Command::new(alloc, "olt")
            .bin_name("olt")?
            .version(VERSION)
            .about("Upstream bandwidth scheduler of an XG-PON optical line terminal")
            .subcommand_required(true)
            .arg_required_else_help(true),
    )
}

// Adds a subcommand to a command, if both were made. `Err` only if memory is refused.
fn with_subcommand<'a>(
    command: Result<Command<'a>, AllocError>,
    made: Result<Command<'a>, AllocError>,
) -> Result<Command<'a>, AllocError>
    ensures { IfOk result (λ new. IsOkAnd command.entry (λ old.
        IsOkAnd made.entry (λ sub. AddsSubcommand old sub new))) }
{
    command?.subcommand(made?)
}

// Adds the commands that answer from a recording. `Err` only if memory is refused.
fn with_views<'a>(
    alloc: Global,
    command: Result<Command<'a>, AllocError>,
) -> Result<Command<'a>, AllocError>
    ensures { (app : App) → IfOk command.entry (λ old. app_of old ≡ app)
        → IfOk result (λ new. app_of new ≡ with_views app) }
{
    let command = with_subcommand(command, info_command(alloc));
    let command = with_subcommand(command, rates_command(alloc));
    let command = with_subcommand(command, why_command(alloc));
    let command = with_subcommand(command, dump_command(alloc));
    let command = with_subcommand(command, picture_command(alloc));
    with_subcommand(command, loads_command(alloc))
}

/// Makes the program's command, with its subcommands.
pub(crate) fn olt_command<'a>(alloc: Global) -> Result<Command<'a>, AllocError>
    ensures { IfOk result (λ c. app_of c ≡ olt_app) }
{
    let command = with_subcommand(top_command(alloc), plan_command(alloc));
    let command = with_subcommand(command, check_command(alloc));
    let command = with_subcommand(command, audit_command(alloc));
    let command = with_views(alloc, command);
    let command = with_subcommand(command, migrate_command(alloc));
    let command = with_subcommand(command, run_command(alloc));
    let command = with_subcommand(command, stop_command(alloc));
    let command = with_subcommand(command, operate_command(alloc));
    with_subcommand(command, units_command(alloc))
}
