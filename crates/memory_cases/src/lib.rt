//! Files of commands and of connections, put to a keeper in memory, for the program that tests the desk of cases.
#![tactic(auto)]

pub mod commands;
pub mod connections;
