//! Tests of the desk, of the worker of a port and of runs: posts from threads, kept entries, looks and inspections,
//! refused memory, management lines, settlements of receipts, workers over memory and sockets with their chapters, and
//! ports that are served over sockets in threads.
//!
//! They are in a crate above those that they test, so that each of these is proved once.
#![tactic(auto)]

#[cfg(test)]
mod bench;
#[cfg(test)]
mod controlled;
#[cfg(test)]
mod crowded;
#[cfg(test)]
mod desks;
#[cfg(test)]
mod each_port;
#[cfg(test)]
mod failing;
#[cfg(test)]
mod gates;
#[cfg(test)]
mod gathering;
#[cfg(test)]
mod inspecting;
#[cfg(test)]
mod links;
#[cfg(test)]
mod memory;
#[cfg(test)]
mod operating;
#[cfg(test)]
mod outside;
#[cfg(test)]
mod passing;
#[cfg(test)]
mod repeating;
#[cfg(test)]
mod resuming;
#[cfg(test)]
mod running;
#[cfg(test)]
mod serving;
#[cfg(test)]
mod settling;
#[cfg(test)]
mod sockets;
#[cfg(test)]
mod together;
