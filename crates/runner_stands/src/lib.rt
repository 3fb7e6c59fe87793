//! Where a state of a run stands, and for which cause: what comes next there is not modelled.
#![tactic(auto)]

mod bodies;
mod causes;
mod standing;

pub use standing::{Stand, stands_of};
