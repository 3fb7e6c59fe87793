//! What follows where the system calls a body: it begins, and its receiver holds what it is called
//! on. The number of the rule and its premises are the caller's.
#![tactic(auto)]

mod beginning;
mod parameters;
mod receiver;

pub use beginning::begin;
pub use parameters::{Start, first_argument};
pub use receiver::enter;
