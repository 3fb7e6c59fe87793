//! Keepers, for tests, over databases in files in memory that are closed, stop or fail; and what a keeper tells, as text.
#![tactic(auto)]

mod faults;
mod keepers;
mod store;
mod telling;

pub use faults::{Fault, Faults, LASTING, stopping, stumbling};
pub use keepers::{FileKeeper, LateOne, SlowOpener};
pub use store::{Faulty, Filed};
pub use telling::{asked, story, tells, tells_end, told, told_by_memory};
