//! The management of a line terminal as text: each line is read, passed to its port, and answered.
//!
//! At a plant the text written is determined by the lines read ([`plan`]), also if its ports are recorded
//! ([`plan_recorded`], [`plan_flushed`]). At a desk, where other threads post too ([`operate`]), each text is that of some lawful port. All
//! work over any reader and writer.
#![tactic(auto)]

mod answer;
mod at_desk;
mod at_plant;
mod flushed;
mod flushed_planning;
mod help;
pub mod laws;
mod list;
mod noted_desk;
mod notes;
mod opening;
mod operating;
mod planning;
mod recorded;
mod show;
mod start;
mod sure;
mod texts;
mod why;

pub use flushed::CutTimes;
pub use flushed_planning::plan_flushed;
pub use noted_desk::{RunNotes, operate_noted};
pub use notes::Notes;
pub use opening::Opening;
pub use operating::operate;
pub use planning::{RecordedPlan, plan, plan_recorded};
pub use pon_device::DeviceFault as PlanFault;
pub use pon_line::LineRefusal;
pub use pon_plant::Step;
pub use pon_text::PlanEnd;
