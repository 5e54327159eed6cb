//! The command line of the program `olt`, its exit status and its failures: the job that the words name, the
//! outcome of a run, and the exit status of an outcome.
//!
//! Nothing here does a job or ends a process; the one text that it prints is that of a failure.
#![tactic(auto)]

mod arguments;
mod commands;
mod failure;
mod options;
mod outcome;
mod task;

pub use arguments::job;
pub use commands::VERSION;
pub use failure::{Failure, Named};
pub use outcome::{
    Outcome, exit_status, outcome_of_check, outcome_of_job, outcome_of_ports, outcome_of_run,
    outcome_of_words,
};
pub use task::{
    Audit, Control, ControlAt, DEFAULT_OPERATORS, Job, MAX_KEPT, MAX_MAPS, MAX_OPERATORS, Meeting,
    Migration, Part, Plan, Resume, Run, Segments, Show, Units, View,
};
