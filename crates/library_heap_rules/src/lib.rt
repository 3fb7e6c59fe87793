//! Rules 37 to 39 in code, of what a library call does to objects, and with them all rules of library
//! calls, 30 to 39.
#![tactic(auto)]

mod copies;
mod numbers;
mod pairs;
mod positions;
mod puts;
mod rules;
mod stores;

pub use rules::LibraryRules;
