// Maps as values and as bytes.

mod faults;
mod memory;
mod read;
mod rules;
mod written;
