//! Which labels a value of a run reaches.
#![tactic(auto)]

mod reach;

pub use reach::reached;
