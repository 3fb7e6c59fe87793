//! What rows tell of an app: why nothing certain can be said of it, and what is found. And what a flow
//! tells: nothing at all only where the checker accepts its rows.
#![tactic(auto)]

mod by_flow;
mod told;

pub use by_flow::told_by_flow;
pub use told::{Told, told_by_rows};
