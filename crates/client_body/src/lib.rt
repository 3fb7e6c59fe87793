//! The body of a submission's request as JSON, which the desk reads as the command to submit that app.
#![tactic(auto)]

mod body;
mod size;

pub use body::{Texts, body_of};
pub use size::least_size;
