//! Printed text: bytes, names and numbers at the end of a text, and the limit of what is read of one file. After want
//! of memory a part of what is added may be there.
#![tactic(auto)]

mod adding;
mod limits;

pub use adding::{put, put_name, put_number};
pub use limits::FILE_LIMIT;
