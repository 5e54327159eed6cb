//! The settings of a terminal, in TOML: its ports, and the Alloc-IDs that are admitted before the first line.
//!
//! A [`Document`] is a text, parsed. [`Settings`] has its values, key by key; [`FaultySettings`] has the first fault, its
//! place and the rule that is broken there.
//! Opening a port, running a step and filling a simulated unit are left to other crates.
#![tactic(auto)]

mod document;
mod fault;
mod faulty;
mod fields;
mod floors;
mod place;
mod port;
mod refused;
mod row;
mod rows;
mod terminal;
mod why;

pub use document::{Document, settings};
pub use fault::SettingsFault;
pub use faulty::FaultySettings;
pub use floors::rows_without_floor;
pub use port::PortSettings;
pub use row::SettingsRow;
pub use terminal::Settings;
