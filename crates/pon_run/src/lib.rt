//! A run of a terminal: each port is served over its own socket for a number of maps, together with simulated units
//! that answer it, or with units elsewhere, and a line about each port is written at the end.
//!
//! Sockets are opened before the first thread is started. Each port has a thread for its worker and one for its simulated
//! units; all threads have ended when a run returns, in every case.
#![tactic(auto)]

mod answering;
mod arguments;
mod connecting;
mod connection;
mod console;
mod context;
mod control;
mod early;
mod end;
mod ending;
mod files;
mod lack;
mod metrics;
mod numbers;
mod opening;
mod operator;
mod pace;
mod ports;
mod progress;
mod recorder_watch;
mod restoring;
mod running;
mod seats;
mod server;
mod serving;
mod settlement_text;
mod settling;
mod start;
mod thread;
mod timer;
mod watch;

pub use arguments::{LinesFrom, RunArgs, UnitsPlace};
pub use serving::run_ports;
pub use start::RunPorts;
