//! Pictures of the maps and of the loads of the ports of an XG-PON optical line terminal (upstream bandwidth assignment,
//! ITU-T G.987.3), as text and as SVG.
#![tactic(auto)]

mod drawing;
mod loads_svg;
mod loads_text;
mod mean;
mod owners;
mod parts;
mod picture;
mod rows;
mod steps;
mod svg;
mod svg_parts;
mod timeline;

pub use loads_svg::steps_svg;
pub use loads_text::steps_text;
pub use mean::Mean;
pub use parts::grant_places;
pub use picture::{Picture, picture_at};
pub use steps::Steps;
