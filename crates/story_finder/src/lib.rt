//! Stories, cut out of the trail of all derivable rows: the lines on which a row rests and no others.
//!
//! One trail serves for all rows. To cut out a story goes through its own lines, and through no more.
#![tactic(auto)]

mod cutting;
mod finding;
mod retelling;
mod stored;
mod wanted;

pub use finding::{find_story, story_in};
pub use stored::Stored;
