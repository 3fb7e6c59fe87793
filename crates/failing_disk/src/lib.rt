//! A file of a database, for tests, that fails at one call and goes on.
#![tactic(auto)]

mod stumbling;

pub use stumbling::{Stumble, Stumbling};
