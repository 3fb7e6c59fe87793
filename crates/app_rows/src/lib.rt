//! The rows of an app: with which ones a table of facts starts, and which ones it can have, those that
//! name only what the app and the lists have.
#![tactic(auto)]

mod cell_rows;
mod contexts;
mod nodes;
mod rows;
mod sites;
mod starts;

pub use cell_rows::is_in_app_by_cells;
pub use rows::is_in_app;
pub use starts::{StartRows, starts_are_exact};
