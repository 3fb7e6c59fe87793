//! The heap of a run: objects with their elements and fields, what is read of them, and what is put
//! into them.
#![tactic(auto)]

mod entity;
mod getting;
mod heap;

pub use entity::Entity;
pub use getting::got;
pub use heap::Heap;
