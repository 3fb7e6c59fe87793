//! Keepers of the cases of the desk over a SQLite database.
#![tactic(auto)]

mod asking;
mod counting;
mod late_keeper;
mod open_keeper;
mod sql_keeper;

pub use late_keeper::{LateKeeper, Opener};
pub use open_keeper::OpenKeeper;
pub use sql_keeper::{DatabaseFile, SqlKeeper};
