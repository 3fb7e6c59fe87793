//! The desk of the programs that test connections, and the bytes of connections as lines of text.
#![tactic(auto)]

mod bytes;
mod judge;
mod office;

pub use bytes::{bytes_of, shown};
pub use judge::FirstByte;
pub use office::desk;
