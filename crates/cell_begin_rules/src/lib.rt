//! What follows by the second set where the system calls a body: its parameters are objects of their own sites, the
//! sources are labelled, and its receiver holds what it is called on, all where the body reads these. The number of
//! the rule and its premises are the caller's.
#![tactic(auto)]

mod beginning;
mod receiver;
mod registers;

pub use receiver::enter;
pub use registers::Beginning;
