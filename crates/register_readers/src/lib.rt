//! Where the registers of an app are read: for each place at which rules ask, the addresses of the steps
//! that read what stands in the register there. All are found once, method by method.
#![tactic(auto)]

mod acts;
mod budget;
mod finding;
mod places;
mod register_readers;
mod results;
mod search;

pub use register_readers::RegisterReaders;
