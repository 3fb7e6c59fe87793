//! Rules 37 to 39 of the second set in code, of what a library call does to objects, and with them all rules of
//! library calls of that set but those that are kept from the first.
#![tactic(auto)]

mod copies;
mod numbers;
mod pairs;
mod pins;
mod positions;
mod puts;
mod rules;
mod stores;
mod uses;

pub use rules::CellLibraryRules;
