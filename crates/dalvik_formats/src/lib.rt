//! The one table of the opcodes of Dalvik, by which all goes that reads or writes code: the layout of each
//! instruction, which of its operands are pairs of registers, and what it does.
#![tactic(auto)]

mod format;
mod kind;
mod opcodes;
mod pairs;

pub use format::{Format, Pool};
pub use kind::Kind;
pub use opcodes::{OPCODES, format_of, kind_of, pairs_of};
pub use pairs::Pairs;
