//! The simulated units of a port, at their end of its connection.

use pon_device::{StdRead, StdWrite};
use pon_link::{Admitted, Unit, UnitsFault, serve_growing_units, serve_units};
use std::alloc::Global;
use std::io::{BufReader, BufWriter};
use std::net::TcpStream;

/// The units of a port, and their end of the connection.
#[derive(Drop)]
pub struct UnitsPart {
    /// The units.
    pub units: Vec<Unit>,
    /// Their end of the connection, which is closed when they end.
    pub stream: TcpStream,
}

/// Answers the maps of a port with its units until the port closes the connection, and closes their end of it.
///
/// # Errors
///
/// As [`serve_units`]; `Memory` also if memory for the buffers is refused.
pub fn answer(alloc: Global, part: UnitsPart) -> Result<(), UnitsFault> {
    let UnitsPart { mut units, stream } = part;
    let input = BufReader::new(alloc, &stream).map_err(|_| UnitsFault::Memory)?;
    let output = BufWriter::new(alloc, &stream).map_err(|_| UnitsFault::Memory)?;
    let mut reader = StdRead::new(input);
    let mut writer = StdWrite::new(output);
    serve_units(alloc, units.as_mut_slice(), &mut reader, &mut writer)
}

/// Answers as [`answer`] does, with units that grow by the Alloc-IDs that their port admits meanwhile.
///
/// # Errors
///
/// As [`answer`]; `Memory` also if memory for a unit is refused.
pub fn answer_growing<A: Admitted>(
    alloc: Global,
    part: UnitsPart,
    admitted: &A,
) -> Result<(), UnitsFault> {
    let UnitsPart { mut units, stream } = part;
    let input = BufReader::new(alloc, &stream).map_err(|_| UnitsFault::Memory)?;
    let output = BufWriter::new(alloc, &stream).map_err(|_| UnitsFault::Memory)?;
    let mut reader = StdRead::new(input);
    let mut writer = StdWrite::new(output);
    serve_growing_units(alloc, &mut units, admitted, &mut reader, &mut writer)
}
