//! What a request asks of the desk: the command of a party, or the answer that it gets without one.
#![tactic(auto)]

mod body;
mod command;
mod fault;
mod law;
mod submission;
mod target;

pub use command::{Turn, command_of};
pub use law::routes_are_the_targets_of_pages;
