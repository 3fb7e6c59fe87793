//! The outside of a desk that serves: links that give and take bytes, doors that open one link after another, and
//! clocks, as traits that say what a call did and when it failed; and each of them in memory.
#![tactic(auto)]

mod calls;
mod clock;
mod door;
mod link;
mod mem_door;
mod mem_link;
mod tape;

pub use clock::{Clock, FixedClock};
pub use door::{Door, DoorFault};
pub use link::{Link, LinkFault};
pub use mem_door::MemDoor;
pub use mem_link::MemLink;
