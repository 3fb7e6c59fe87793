//! Decodes the code of a method: its 16-bit units to instructions, or to the first fault of them (Android
//! documentation, "Dalvik bytecode" and "Dalvik executable instruction formats", DEX version 035).
#![tactic(auto)]

mod acts;
mod decoder;
mod fault;
mod find;
mod flow;
mod handled;
mod handlers;
mod insn;
mod insn_at;
mod laws;
mod lines;
mod listed;
mod names;
mod next;
mod order;
mod payload_at;
mod registers;
mod shape;
mod tries;
mod units;

pub use acts::act_for;
pub use decoder::{Counts, Decoded, decode};
pub use fault::CodeFault;
pub use handlers::catches_of_lines;
pub use insn::Insn;
pub use laws::code_laws;
pub use names::{Named, Naming};
pub use next::next_of_line;
