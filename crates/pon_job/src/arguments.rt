//! The words of the command line.

ghost use Rattle.std.specs.Prelude.{◌≡◌, ◌↔◌, true, ℕ, Bool, Option, Some, IfErr, IfOk, IfSome, IsNone, MatchOption, codes, map, option_map, string_bytes};
ghost use Rattle.pon_job.specs.declared.task.Control.{Control};
ghost use Rattle.pon_job.specs.declared.task.ControlAt.{ControlAt};
ghost use Rattle.pon_job.specs.declared.task.Meeting.{Meeting};
ghost use Rattle.pon_job.specs.declared.task.Part.{Part};
ghost use Rattle.pon_job.specs.declared.task.Segments.{Segments};
ghost use Rattle.pon_job.specs.declared.task.View.{View};
ghost use Rattle.clap.specs.Words.{found_of, rows_of, subcommand_rows_of};
ghost use Rattle.clap.specs.Simple.{subcommand_of};
ghost use Rattle.pon_job.specs.Jobs.{AreJoinedOrOne, AreSegments, HasFlag, HasNumber, IsControl, IsControlAt, IsFormat, IsJob, IsMeeting, IsPart, IsPlace, IsResume, MayHave, NamesNoJob, RefusesWords, Spells, olt_app, word_of_view};

use crate::commands::olt_command;
use crate::task::{
    Audit, Control, ControlAt, Job, MAX_ALLOC, MAX_FLUSH, MAX_FRAME, MAX_KEPT, MAX_MAPS,
    MAX_OPERATORS, MAX_PACE, MAX_PORT, MAX_WAIT, MIN_ALLOC, Meeting, Migration, Part, Plan, Resume,
    Run, Segments, Show, Units, View,
};
use clap::error::ErrorKind;
use clap::{ArgMatches, Error};
use std::alloc::{AllocError, Global};

/// What is said of words that clap accepts, and that name no job: a value that is not one of those possible.
const NO_FORMAT: &str = "invalid value for '--format <FORMAT>'\n  [possible values: text, json]";

const NO_PLACE: &str =
    "invalid value for '--units <PLACE>'\n  [possible values: simulated, external]";

/// What is said of several files of a view without the flag, and of a run that is not reached at one place.
const NOT_JOINED: &str = "several files need --joined";

const NOT_ONE_CONTROL: &str = "give one of --control <PATH> and --control-tcp <ADDRESS>";

// Parses a number, which is in a range.
fn number_in(text: &str, low: u64, high: u64) -> Option<u64>
    ensures { MatchOption result ((number : ℕ) → ¬ Spells low high text.now number)
        (Spells low high text.now) }
{
    match text.parse::<u64>() {
        Ok(number) if low <= number && number <= high => Some(number),
        _ => None,
    }
}

// Returns the number of an option, if it was given. `None` if its value is no number in the range.
fn chosen(found: &ArgMatches<'_>, id: &str, low: u64, high: u64) -> Option<Option<u64>>
    ensures some { IfSome result (MayHave id.now low high (rows_of (found_of found.now))) }
    ensures none { IsNone result → (number : Option ℕ)
        → ¬ MayHave id.now low high (rows_of (found_of found.now)) number }
{
    match found.get_str(id) {
        None => Some(None),
        Some(text) => Some(Some(number_in(text, low, high)?)),
    }
}

// Returns whether a flag was given.
fn is_given(found: &ArgMatches<'_>, flag: &str) -> bool
    ensures { HasFlag flag.now (rows_of (found_of found.now)) result }
{
    match found.get_str(flag) {
        Some(text) => text == "true",
        None => false,
    }
}

// Returns whether a format is JSON. `None` if it is no format.
fn is_json(text: Option<&str>) -> Option<bool>
    ensures some { IfSome result (IsFormat (option_map (λ t. t.now) text.entry)) }
    ensures none { IsNone result → (json : Bool) → ¬ IsFormat (option_map (λ t. t.now) text.entry) json }
{
    match text {
        None => Some(false),
        Some(text) => {
            if text == "json" {
                return Some(true);
            }
            if text == "text" { Some(false) } else { None }
        }
    }
}

// Returns the management lines that the matches of their subcommand give.
fn plan_of<'a>(found: &ArgMatches<'a>) -> Option<Job<'a>>
    ensures some { IfSome result (IsJob (Some (codes "plan", rows_of (found_of found.now)))) }
    ensures none { IsNone result → NamesNoJob (Some (codes "plan", rows_of (found_of found.now))) }
{
    let settings = found.get_str("config");
    let strict = is_given(found, "strict");
    let verbose = is_given(found, "verbose");
    let recording = found.get_str("record");
    let keeps = is_given(found, "no-clobber");
    let forget = is_given(found, "forget");
    let flush = chosen(found, "flush", 0, MAX_FLUSH)?;
    Some(Job::Plan(Plan {
        config: settings,
        strict,
        verbose,
        record: recording,
        no_clobber: keeps,
        forget,
        flush,
    }))
}

// Returns whether units are external. `None` if the text is no place of units.
fn is_external(text: Option<&str>) -> Option<bool>
    ensures some { IfSome result (IsPlace (option_map (λ t. t.now) text.entry)) }
    ensures none { IsNone result → (external : Bool) → ¬ IsPlace (option_map (λ t. t.now) text.entry) external }
{
    match text {
        None => Some(false),
        Some(text) => {
            if text == "external" {
                return Some(true);
            }
            if text == "simulated" {
                Some(false)
            } else {
                None
            }
        }
    }
}

// Returns how the ports of a run meet their units.
fn meeting_of(found: &ArgMatches<'_>) -> Option<Meeting>
    ensures some { IfSome result (IsMeeting (rows_of (found_of found.now))) }
    ensures none { IsNone result → (meeting : Meeting) → ¬ IsMeeting (rows_of (found_of found.now)) meeting }
{
    let place = found.get_str("units");
    let external = is_external(place)?;
    let once = is_given(found, "once");
    let grow = is_given(found, "grow");
    let wait = chosen(found, "wait", 1, MAX_WAIT)?;
    let pace = chosen(found, "pace", 1, MAX_PACE)?;
    Some(Meeting {
        external,
        once,
        grow,
        wait,
        pace,
    })
}

// Returns how operators connect to a run.
fn control_of<'a>(found: &ArgMatches<'a>) -> Option<Control<'a>>
    ensures some { IfSome result (IsControl (rows_of (found_of found.now))) }
    ensures none { IsNone result → (control : Control) → ¬ IsControl (rows_of (found_of found.now)) control }
{
    let path = found.get_str("control");
    let tcp = found.get_str("control-tcp");
    let operators = chosen(found, "operators", 1, MAX_OPERATORS)?;
    Some(Control {
        path,
        tcp,
        operators,
    })
}

// Returns the segments of a run's recording.
fn segments_of(found: &ArgMatches<'_>) -> Option<Segments>
    ensures some { IfSome result (AreSegments (rows_of (found_of found.now))) }
    ensures none { IsNone result → (segments : Segments) → ¬ AreSegments (rows_of (found_of found.now)) segments }
{
    let maps = chosen(found, "segment", 1, MAX_MAPS)?;
    let keep = chosen(found, "keep", 1, MAX_KEPT)?;
    Some(Segments { maps, keep })
}

// Returns how the ports of a run go on where a recording ends.
fn resume_of<'a>(found: &ArgMatches<'a>) -> Resume<'a>
    ensures { IsResume (rows_of (found_of found.now)) result }
{
    let from = found.get_str("resume");
    let truncated = is_given(found, "resume-truncated");
    let warm = is_given(found, "warm");
    let apply = is_given(found, "apply");
    Resume {
        from,
        truncated,
        warm,
        apply,
    }
}

// Returns the run that the matches of its subcommand give.
fn run_of<'a>(found: &ArgMatches<'a>) -> Option<Job<'a>>
    ensures some { IfSome result (IsJob (Some (codes "run", rows_of (found_of found.now)))) }
    ensures none { IsNone result → NamesNoJob (Some (codes "run", rows_of (found_of found.now))) }
{
    let config = found.get_str("config")?;
    let listen = found.get_str("listen")?;
    let maps = chosen(found, "maps", 1, MAX_MAPS)?;
    let meeting = meeting_of(found)?;
    let record = found.get_str("record");
    let segments = segments_of(found)?;
    let resume = resume_of(found);
    let no_clobber = is_given(found, "no-clobber");
    let strict_record = is_given(found, "strict-record");
    let flush = chosen(found, "flush", 0, MAX_FLUSH)?;
    let operate = found.get_str("operate");
    let control = control_of(found)?;
    let settle = is_given(found, "settle");
    let progress = is_given(found, "progress");
    let summary = is_given(found, "summary");
    let metrics = found.get_str("metrics");
    Some(Job::Run(Run {
        config,
        listen,
        maps,
        meeting,
        record,
        segments,
        resume,
        no_clobber,
        strict_record,
        flush,
        operate,
        control,
        settle,
        progress,
        summary,
        metrics,
    }))
}

// Returns where a run is reached. `None` if the matches have neither a path nor an address, or both.
fn place_of<'a>(found: &ArgMatches<'a>) -> Option<ControlAt<'a>>
    ensures some { IfSome result (IsControlAt (rows_of (found_of found.now))) }
    ensures none { IsNone result → (at : ControlAt) → ¬ IsControlAt (rows_of (found_of found.now)) at }
{
    match found.get_str("control") {
        Some(path) => match found.get_str("control-tcp") {
            Some(_) => None,
            None => Some(ControlAt::Path(path)),
        },
        None => Some(ControlAt::Tcp(found.get_str("control-tcp")?)),
    }
}

// Returns the lines for a run that the matches of their subcommand give.
fn operate_of<'a>(found: &ArgMatches<'a>) -> Option<Job<'a>>
    ensures some { IfSome result (IsJob (Some (codes "operate", rows_of (found_of found.now)))) }
    ensures none { IsNone result
        → NamesNoJob (Some (codes "operate", rows_of (found_of found.now))) }
{
    Some(Job::Operate(place_of(found)?))
}

// Returns the stop of a run that the matches of its subcommand give.
fn stop_of<'a>(found: &ArgMatches<'a>) -> Option<Job<'a>>
    ensures some { IfSome result (IsJob (Some (codes "stop", rows_of (found_of found.now)))) }
    ensures none { IsNone result → NamesNoJob (Some (codes "stop", rows_of (found_of found.now))) }
{
    Some(Job::Stop(place_of(found)?))
}

// Returns the units that the matches of their subcommand give.
fn units_of<'a>(found: &ArgMatches<'a>) -> Option<Job<'a>>
    ensures some { IfSome result (IsJob (Some (codes "units", rows_of (found_of found.now)))) }
    ensures none { IsNone result → NamesNoJob (Some (codes "units", rows_of (found_of found.now))) }
{
    let config = found.get_str("config")?;
    let connect = found.get_str("connect")?;
    let port = chosen(found, "port", 0, MAX_PORT)?;
    let wait = chosen(found, "wait", 1, MAX_WAIT)?;
    Some(Job::Units(Units {
        config,
        connect,
        port,
        wait,
    }))
}

// Returns the migration that the matches of its subcommand give.
fn migration_of<'a>(found: &ArgMatches<'a>) -> Option<Job<'a>>
    ensures some { IfSome result (IsJob (Some (codes "migrate", rows_of (found_of found.now)))) }
    ensures none { IsNone result
        → NamesNoJob (Some (codes "migrate", rows_of (found_of found.now))) }
{
    let file = found.get_str("file")?;
    let out = found.get_str("out")?;
    let no_clobber = is_given(found, "no-clobber");
    Some(Job::Migrate(Migration {
        file,
        out,
        no_clobber,
    }))
}

// Returns the part of a recording that the matches of a view name.
fn part_of(found: &ArgMatches<'_>) -> Option<Part>
    ensures some { IfSome result (IsPart (rows_of (found_of found.now))) }
    ensures none { IsNone result → (part : Part) → ¬ IsPart (rows_of (found_of found.now)) part }
{
    Some(Part {
        port: chosen(found, "port", 0, MAX_PORT)?,
        alloc: chosen(found, "alloc", MIN_ALLOC, MAX_ALLOC)?,
        frame: chosen(found, "frame", 0, MAX_FRAME)?,
        from: chosen(found, "from", 0, MAX_FRAME)?,
        to: chosen(found, "to", 0, MAX_FRAME)?,
    })
}

// Returns the view of a subcommand.
fn view_of(name: &str) -> Option<View>
    ensures { MatchOption result ((view : View) → ¬ (name.now ≡ word_of_view view))
        (λ view. name.now ≡ word_of_view view) }
{
    if name == "info" {
        return Some(View::Info);
    }
    if name == "rates" {
        return Some(View::Rates);
    }
    if name == "why" {
        return Some(View::Why);
    }
    if name == "dump" {
        return Some(View::Dump);
    }
    if name == "picture" {
        return Some(View::Picture);
    }
    if name == "loads" {
        return Some(View::Loads);
    }
    None
}

// Copies the names of files.
fn files_of<'a>(alloc: Global, names: &[&'a str]) -> Result<Vec<&'a str>, AllocError>
    ensures { IfOk result (λ files. files.items ≡ names.now) }
{
    let mut files = Vec::new(alloc);
    files.extend_from_slice(names)?;
    Ok(files)
}

// Returns whether the files of a view are joined, or there is one.
fn are_joined_or_one(joined: bool, count: usize) -> bool
    ensures { (result ≡ true) ↔ AreJoinedOrOne joined count }
{
    if joined {
        return true;
    }
    count == 1
}

// Returns the view of a recording that the matches of its subcommand give. `Err` only if memory is refused.
fn shown_by<'a>(
    alloc: Global,
    view: View,
    found: &ArgMatches<'a>,
) -> Result<Option<Job<'a>>, AllocError>
    ensures some { IfOk result (λ job. IfSome job
        (IsJob (Some (word_of_view view, rows_of (found_of found.now))))) }
    ensures none { IfOk result (λ job. IsNone job
        → NamesNoJob (Some (word_of_view view, rows_of (found_of found.now)))) }
{
    let names = match found.get_strs("file") {
        Some(names) => names,
        None => return Ok(None),
    };
    let joined = is_given(found, "joined");
    if !are_joined_or_one(joined, names.len()) {
        return Ok(None);
    }
    let part = match part_of(found) {
        Some(part) => part,
        None => return Ok(None),
    };
    let svg = found.get_str("svg");
    let no_clobber = is_given(found, "no-clobber");
    let format = found.get_str("format");
    let json = match is_json(format) {
        Some(json) => json,
        None => return Ok(None),
    };
    let files = files_of(alloc, names)?;
    Ok(Some(Job::Show(Show {
        view,
        files,
        joined,
        part,
        svg,
        no_clobber,
        json,
    })))
}

// Returns the audit that the matches of its subcommand give. `Err` only if memory is refused.
fn audit_of<'a>(alloc: Global, found: &ArgMatches<'a>) -> Result<Option<Job<'a>>, AllocError>
    ensures some { IfOk result (λ job. IfSome job
        (IsJob (Some (codes "audit", rows_of (found_of found.now))))) }
    ensures none { IfOk result (λ job. IsNone job
        → NamesNoJob (Some (codes "audit", rows_of (found_of found.now)))) }
{
    let names = match found.get_strs("file") {
        Some(names) => names,
        None => return Ok(None),
    };
    let format = found.get_str("format");
    let json = match is_json(format) {
        Some(json) => json,
        None => return Ok(None),
    };
    let joined = is_given(found, "joined");
    let complete = is_given(found, "complete");
    let files = files_of(alloc, names)?;
    Ok(Some(Job::Audit(Audit {
        files,
        joined,
        json,
        complete,
    })))
}

// Returns the job that a subcommand other than `audit` and the views gives.
fn other_job_of<'a>(name: &str, found: &ArgMatches<'a>) -> Option<Job<'a>>
    ensures some { IfSome result (IsJob (Some (name.now, rows_of (found_of found.now)))) }
    ensures none { IsNone result → ¬ (name.now ≡ codes "audit")
        → ((view : View) → ¬ (name.now ≡ word_of_view view))
        → NamesNoJob (Some (name.now, rows_of (found_of found.now))) }
{
    if name == "plan" {
        return plan_of(found);
    }
    if name == "check" {
        let file = found.get_str("file")?;
        return Some(Job::Check { file });
    }
    if name == "migrate" {
        return migration_of(found);
    }
    if name == "run" {
        return run_of(found);
    }
    if name == "units" {
        return units_of(found);
    }
    if name == "stop" {
        return stop_of(found);
    }
    if name == "operate" {
        return operate_of(found);
    }
    None
}

// Returns the job that the subcommand of the matches gives. `Err` only if memory is refused.
fn job_of<'a>(alloc: Global, matches: &ArgMatches<'a>) -> Result<Option<Job<'a>>, AllocError>
    ensures some { IfOk result (λ job. IfSome job (IsJob (subcommand_rows_of matches.now))) }
    ensures none { IfOk result (λ job. IsNone job → NamesNoJob (subcommand_rows_of matches.now)) }
{
    match matches.subcommand() {
        None => Ok(None),
        Some((name, found)) => {
            if name == "audit" {
                return audit_of(alloc, found);
            }
            if let Some(view) = view_of(name) {
                return shown_by(alloc, view, found);
            }
            Ok(other_job_of(name, found))
        }
    }
}

// Returns why the subcommand of matches names no job: an option has none of its possible values, several files are not
// joined, or a run has not one place at which it is reached.
fn why_no_job(matches: &ArgMatches<'_>) -> &'static str {
    match matches.subcommand() {
        Some((_, found)) if is_json(found.get_str("format")).is_none() => NO_FORMAT,
        Some((_, found)) if is_external(found.get_str("units")).is_none() => NO_PLACE,
        Some((_, found)) if found.get_strs("file").is_some() => NOT_JOINED,
        _ => NOT_ONE_CONTROL,
    }
}

/// Parses the words of the command line, the program's name first, and returns the job of their subcommand, with the
/// values of its arguments.
///
/// # Errors
///
/// An error of clap: the first fault of the words, the help or the version if they request it, or out of memory. It is
/// `InvalidSubcommand` for words in which clap finds no fault, but whose subcommand names no job.
pub fn job<'a>(alloc: Global, words: &'a [String]) -> Result<Job<'a>, Error>
    ensures job { IfOk result (IsJob (subcommand_of olt_app (map string_bytes words.now))) }
    ensures refused { IfErr result (RefusesWords (map string_bytes words.now)) }
{
    let mut command = olt_command(alloc)?;
    let matches = command.try_get_matches_from_mut(words)?;
    if let Some(job) = job_of(alloc, &matches)? {
        return Ok(job);
    }
    Err(command.error(ErrorKind::InvalidSubcommand, why_no_job(&matches))?)
}
