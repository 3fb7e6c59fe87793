//! Rules 22, 23, 27 and 28 in code: the bodies that a node enters, and the rows of the lists that it uses.
#![tactic(auto)]

mod enter;
mod names;
mod numbers;
mod receivers;

pub use enter::{argument_register, pass_to};
pub use names::reached;
pub use receivers::{Pointer, is_argument, received};
