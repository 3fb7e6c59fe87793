//! Rules 31 to 36 of the second set in code: what a library call does with the values of its positions, and what its
//! result is.
#![tactic(auto)]

mod alone;
mod called;
mod leading;
mod numbers;
mod positions;
mod result;
mod values;

pub use called::Called;
pub use positions::value_rules;
pub use values::may_stand;
