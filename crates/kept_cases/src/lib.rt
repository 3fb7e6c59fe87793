//! The cases of a desk with one of two keepers: its tables or its journal.
#![tactic(auto)]

mod kept;

pub use kept::KeptCases;
