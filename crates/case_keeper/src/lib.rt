//! What keeps the cases of the desk: a trait that tells its list of cases where it can, and a keeper in memory.
#![tactic(auto)]

mod amending;
mod holding;
mod keeper;
mod listing;
mod memory_keeper;
mod placing;
mod viewing;

pub use keeper::{KeepFault, Keeper};
pub use memory_keeper::MemKeeper;
pub use viewing::view_for;
