//! Changes of cases as bytes, and bytes as changes: each change has one spelling, and bytes are one change or none.
#![tactic(auto)]

mod fault;
mod fields;
mod law;
mod numbers;
mod reading;
mod writing;

pub use fault::NoPayload;
pub use law::{changes_are_found, changes_are_read_again};
pub use reading::change_of;
pub use writing::put_change;
