//! How a journal of cases is opened: a log in a disk with a record for each change is read from its first record to its
//! last into a keeper in memory, and its end is made one closed gate.
#![tactic(auto)]

mod fault;
mod fitting;
mod opening;
mod replaying;

pub use fault::OpenFault;
pub use fitting::fits;
pub use opening::{Opened, opened_journal};
pub use replaying::make;
