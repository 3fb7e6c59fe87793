//! The store's office: where its desk listens, how it works, who may ask what, and the form of the
//! names that it gives out.
#![tactic(auto)]

mod office;
mod party;
mod reference;

pub use office::Office;
pub use party::{Party, Role};
pub use reference::is_reference;
