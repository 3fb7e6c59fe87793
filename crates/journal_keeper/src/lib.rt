//! A journal that keeps the cases of the desk: a log in a disk with a record for each change, read once into a keeper
//! in memory. A change that was acknowledged stays, whatever a crash takes.
#![tactic(auto)]

mod adding;
mod keeper;
mod looking;
mod readying;

pub use keeper::JournalKeeper;
