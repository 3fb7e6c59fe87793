//! The cases of the desk as tables of a SQLite database: the tables, changes as transactions, rows as cases.
#![tactic(auto)]

mod changing;
mod columns;
mod database;
mod index;
mod opening;
mod reading;
mod refusal;
mod tables;
mod words;

pub use database::Database;
pub use refusal::Refusal;
