//! The grammar of management lines: a line is read as its request, or as its first fault and the word that has it.
//!
//! A line names a port and an event at it, or requests its last certificate, its state, its Alloc-IDs, the explanation
//! of its last map, what is sure for an Alloc-ID, or the list of all lines. Reading allocates no memory and needs no port: the crates above decide whether the port accepts the event.
#![tactic(auto)]

mod command;
mod fault;
mod field;
mod fields;
mod occupancies;
mod reading;
mod table;

pub use fault::{FieldAt, LineFault, LineRefusal};
pub use field::Field;
pub use reading::{FrameCommand, Reading, long_lines, read_frame_line, read_line};
pub use table::{COMMANDS, Command, Form};
