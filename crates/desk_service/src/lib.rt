//! The command `serve OFFICE N`: a desk over the files of an office, a keeper, a door and a clock, which judges by the
//! lists of its office.
#![tactic(auto)]

mod laws;
mod lists_judge;
mod opening;
mod outside;
mod run;
mod saying;
mod texts;

pub use desk_words::database_path;
pub use laws::{a_clear_decision_is_of_a_safe_app, an_added_decision_is_a_verdict};
pub use opening::Paper;
pub use outside::{Outside, Status};
pub use run::{serve, serve_desk};
