//! The folder of an app: its files read in a fixed order, the parts that they give or the first refusal, and what is
//! due to them.
#![tactic(auto)]

mod folder;

pub use folder::{Halt, dex_count, name_of, parts_in};
