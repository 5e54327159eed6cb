//! The writer's side of the format: functions that append a chapter, and each part of it, to bytes.

pub(crate) mod chapters;
mod entries;
mod fields;
mod made;
mod openings;
