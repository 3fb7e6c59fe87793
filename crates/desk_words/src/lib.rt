//! The words of the command line: what they ask for, and that words of no form ask for nothing. Nothing here takes
//! memory but the name of a file.
#![tactic(auto)]

mod command;
mod database;
mod number;
mod serving;
mod vetting;

pub use command::{Command, command_in, serving_in, vetting_in};
pub use database::{database_in, database_path};
pub use serving::Serving;
pub use vetting::Vetting;
