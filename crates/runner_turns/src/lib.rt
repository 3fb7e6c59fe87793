//! A step of the running frame of a run: an initialiser begins, the instruction does what it does, or a blank is
//! raised.
#![tactic(auto)]

mod calling;
mod choosing;
mod owning;
mod stepping;

pub use stepping::step_running;
