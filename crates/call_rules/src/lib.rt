//! Rules 22 to 29 in code: what follows from calls and for them, from results, exceptions and the
//! initialisers of classes.
#![tactic(auto)]

mod arguments;
mod contents;
mod exits;
mod initialised;
mod numbers;
mod rules;

pub use arguments::hangs_on;
pub use initialised::is_initialised;
pub use rules::CallRules;
