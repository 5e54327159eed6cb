//! Why a map of a port of an XG-PON optical line terminal (upstream bandwidth assignment, ITU-T G.987.3) grants what it
//! grants: the numbers of each Alloc-ID, in the state before the map; and what maps add up to.
//!
//! [`explain`] has the numbers for a state and a certificate, [`explain_last`] for the last map of a kept chapter, of which
//! it takes the entries before that map again; [`reports_of`] finds the counted reports as they came. [`row_views`] has what
//! is shown of each admitted Alloc-ID: its ONU and descriptor, its counted report, and the words that the last map granted
//! it. [`rates_under`] has the rates alone. [`AllocTallies`] adds them up map by map, [`Series`] in steps of frames, and
//! [`Changes`] notes when an ONU or a descriptor changes. The crate finds no certificate, formats nothing, and has no clock,
//! device or thread.
#![tactic(auto)]

mod alloc_tallies;
mod changes;
mod copy;
mod followed;
mod idle;
mod last;
mod numbers;
mod rates;
mod reported;
mod retake;
mod series;
mod sums;
mod view;

pub use alloc_tallies::AllocTallies;
pub use changes::{Change, Changes};
pub use copy::{ChapterCopy, copy_chapter};
pub use followed::{Followed, FollowedMap};
pub use last::{LastExplanation, LastWhy, explain_last, level_in};
pub use numbers::{Explanation, explain};
pub use rates::{RowRates, rates_under};
pub use reported::{Reported, Reports, reports_of};
pub use series::Series;
pub use sums::{Sums, amounts_of};
pub use view::{RowView, row_views};
