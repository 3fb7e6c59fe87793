//! The ground floor: numbers as they stand in bytes, names, lists in fields, and the outside
//! (files and a sink) as traits that say what a call did and when it failed.
#![tactic(auto)]

mod key_id;
mod memory;
mod memory_files;
mod memory_sink;
mod name;
mod numbers;
mod outside;
mod seq;
mod shared;
mod stop;

pub use key_id::KeyId;
pub use memory::Memory;
pub use memory_files::MemFiles;
pub use memory_sink::MemSink;
pub use name::Name;
pub use numbers::{read_sleb, read_u2, read_u4, read_uleb};
pub use outside::{FailedCall, FileFault, Files, PutFault, Sink};
pub use seq::Seq;
pub use shared::Shared;
pub use stop::Stop;
