//! The world of a run: the heap, the statics, the components, what the library was handed, and what
//! has arrived.
#![tactic(auto)]

mod arrival;
mod handed;
mod lives;
mod world;

pub use arrival::Arrival;
pub use handed::Handed;
pub use lives::{Life, Lives};
pub use world::World;
