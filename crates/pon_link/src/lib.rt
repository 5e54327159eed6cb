//! The records of a link between the ends of an XG-PON line, as values and as bytes: upstream the content of a burst (a
//! frame, the burst header and the reported occupancies), downstream the map of a frame. Readers take the bytes in
//! pieces of any size, from memory or from a device; a writer keeps the bytes that are not written yet; a simulated ONU
//! answers maps.
//!
//! Simulated units, of several ONUs, answer the maps that they read from a device: one record for each series of a map,
//! the burst that one ONU is granted. They open no device, start no thread and have no clock.
//!
//! The records are this project's own; the map, the burst header and a report in them are those of ITU-T G.987.3.
//! Nothing here allocates memory except the reader of downstream records.
#![tactic(auto)]

mod buffer;
mod decode;
mod decode_down;
mod direction;
mod down_reader;
mod encode;
mod fault;
mod foreign;
mod form;
mod growing;
mod held;
pub mod laws;
mod owner;
mod pull;
mod reader;
mod record;
mod series;
mod series_answers;
mod serving;
mod unit;
mod units_fault;
mod writer;
mod writing;

pub use direction::Direction;
pub use down_reader::DownReader;
pub use encode::encode_up;
pub use fault::{DownFault, LinkFault};
pub use growing::{Admitted, serve_growing_units};
pub use pull::{PullFault, Pulled};
pub use reader::UpReader;
pub use record::{DownRecord, UpRecord};
pub use serving::serve_units;
pub use unit::Unit;
pub use units_fault::UnitsFault;
pub use writer::{Busy, Device, DownWriter};
