//! A call of a library method in a run, as the lists say it: what arrives at sinks, which shared objects
//! are made, what the result is, and what is added to objects.
#![tactic(auto)]

mod adding;
mod arriving;
mod calling;
mod giving;
mod handing;
mod joining;
mod positions;
mod sharing;
mod sorting;

pub use calling::{LibraryCall, call};
pub use positions::{value_at, values};
