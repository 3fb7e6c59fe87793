//! The outside of a client: callers that dial one link after another, as a trait that says what a call did and when it
//! failed; and one in memory.
#![tactic(auto)]

mod caller;
mod calls;
mod lines;
mod mem_caller;

pub use caller::{Caller, DialFault};
pub use mem_caller::MemCaller;
