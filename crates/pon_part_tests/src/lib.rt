//! Tests of the parts below the state of a port: numbers in range, header codes and reports, devices, bursts, the records
//! of a link and simulated units; descriptors and the filling of a class; and texts that are read and judged: management
//! lines, check files, settings, command lines.
//!
//! They are in a crate above those that they test, so that each of these is proved once.
#![tactic(auto)]

#[cfg(test)]
mod bursts;
#[cfg(test)]
mod check_files;
#[cfg(test)]
mod checker;
#[cfg(test)]
mod codes;
#[cfg(test)]
mod descriptors;
#[cfg(test)]
mod devices;
#[cfg(test)]
mod explanations;
#[cfg(test)]
mod fills;
#[cfg(test)]
mod headers;
#[cfg(test)]
mod jobs;
#[cfg(test)]
mod lines;
#[cfg(test)]
mod metrics;
#[cfg(test)]
mod numbers;
#[cfg(test)]
mod records;
#[cfg(test)]
mod reports;
#[cfg(test)]
mod settings;
#[cfg(test)]
mod simulator;
#[cfg(test)]
mod toml_descriptors;
