//! What an instruction of a run does that stays in its method.
#![tactic(auto)]

mod changing;
mod reading;

pub use changing::{change, values_of};
pub use reading::{own_labels, read};
