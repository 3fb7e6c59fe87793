//! The classes and interfaces above each class: none is above
//! itself, and each class lists the library classes above it.
#![tactic(auto)]

mod circle;
mod depths;
mod filled;
mod hierarchy;
mod order;
mod outer;

pub use filled::filled_classes;
pub use hierarchy::outers_of;
pub use order::order_of;
pub use outer::{Outers, add_all};
