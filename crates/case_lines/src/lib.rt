//! Commands to the desk and its replies as lines of text, put
//! to whatever keeper of cases, for programs that test keepers.
#![tactic(auto)]

mod putting;
mod reading;
mod replying;
mod turn;

pub use putting::{due_in, reply_to};
pub use reading::{change_of, numbers_of};
