//! A trail: all derivable rows in an order in which each comes behind those from which it follows, and
//! how each came. It goes breadth first from the start rows, and is itself one long story.
//!
//! It is proved over any rules, over any facts and over any rows that are found by their places.
#![tactic(auto)]

mod naming;
mod places;
mod step;
mod taking;
mod trail;
mod working;

pub use places::{Ascending, Places};
pub use step::Step;
pub use trail::Trail;
pub use working::trail_of;
