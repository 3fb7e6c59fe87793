//! The checker: whether a table of rows is good. Whatever made the table, where it is accepted it
//! names only what is there to be named, has the start rows and is closed under the rules.
//!
//! It is proved over any rules and over any rows that can be gone through, and but for its threads it
//! takes no memory.
#![tactic(auto)]

mod checking;
mod defect;
mod found;
mod least;
mod starts;

pub use checking::{check, check_with};
pub use defect::{FoundDefect, Lack, RowDefect, TableDefect};
pub use starts::missing_start;
