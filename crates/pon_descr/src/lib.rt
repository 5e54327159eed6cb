//! Traffic descriptors of the rate-proportional reference model of dynamic bandwidth assignment (ITU-T G.987.3), and
//! the refusals of descriptors and events.
//!
//! A [`Descriptor`] has, by its type, exactly the rates and the class that the model allows. A [`Refusal`] has a number
//! and a name. Nothing here allocates memory.
#![tactic(auto)]

mod cause;
mod class;
mod descriptor;
mod refusal;
mod table;

pub use cause::Cause;
pub use class::Class;
pub use descriptor::Descriptor;
pub use refusal::Refusal;
pub use table::{DescrFault, from_toml};
