//! The row that tells each finding: the first arrival of its pair of categories at its place.
#![tactic(auto)]

mod firsts;

pub use firsts::first_arrivals;
