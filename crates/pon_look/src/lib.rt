//! Answers from a recording of the ports of an XG-PON optical line terminal (upstream bandwidth assignment, ITU-T
//! G.987.3): what each chapter holds, adds up to, and follows from.
//!
//! A recording is read once: it is audited by `pon_audit` while it is shown.
#![tactic(auto)]

mod alloc_fields;
mod append;
mod chapters;
mod contents;
mod counted;
mod counts;
mod dump;
mod extent;
mod fault;
mod fault_text;
mod field;
mod finding;
mod frame_range;
mod frames;
mod gaps;
mod in_order;
mod info;
mod info_fields;
mod json;
mod judged;
pub mod laws;
mod lines;
mod loads;
mod onus;
mod picture;
mod port_tallies;
mod printer;
mod query;
mod rates;
mod rates_fields;
mod replay;
mod seen;
mod summary;
mod summing;
mod tally;
mod text;
mod viewed;
mod wanted;
mod why;
mod why_fields;
mod words;

pub use contents::{Contents, audit_contents, write_gaps, write_verdict_line};
pub use counted::CountedBytes;
pub use counts::{
    admission_count, cause_count, failure_count, map_count, removal_count, report_count,
};
pub use dump::write_dump;
pub use fault::{FaultDetail, explain_fault};
pub use fault_text::fault_line;
pub use frame_range::FrameRange;
pub use frames::{first_frame, last_frame};
pub use gaps::{Gap, gap_before};
pub use in_order::{info_in_order, loads_in_order, rates_in_order, why_in_order};
pub use info::write_info;
pub use judged::write_judged;
pub use loads::loads_of;
pub use picture::picture_of;
pub use pon_draw::Picture;
pub use pon_why::{Explanation, Sums, amounts_of};
pub use query::{Answer, Format, LoadsQuery, Missing, RatesQuery, WhyQuery};
pub use rates::write_rates;
pub use replay::MapExplanation;
pub use summary::{Summary, Totals, summary_of, with_chapter};
pub use tally::{Summed, Tally, refused_entry, tally_chapter};
pub use viewed::Viewed;
pub use why::{MapAnswer, explain_entry, write_why};
