//! The ground of the rules of library calls: what the lists say of the call at a node, its positions,
//! and which of a rule's premises are known already.
#![tactic(auto)]

mod call;
mod pins;
mod places;
mod shared;

pub use call::{LibraryCall, call_row};
pub use pins::{Pins, for_each_value, may_stand};
pub use places::{AtPlace, for_each_place};
pub use shared::shared_static;
