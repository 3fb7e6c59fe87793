//! Reads DEX files of version 035: the bytes of one file to a `Dex`, or to the first fault of them.
#![tactic(auto)]

mod class_data;
mod class_defs;
mod classes;
mod law;
mod read;
mod reading;
mod told;

pub use law::one_dex_or_fault;
pub use read::read_dex;
pub use told::DexFault;
