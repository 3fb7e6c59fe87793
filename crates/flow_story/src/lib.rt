//! Stories: derivations of a row, line by line. Each line is a start, or follows by its rule from the
//! rows of lines before it. Whether lines are a story is checked without memory, over any rules.
#![tactic(auto)]

mod checking;
mod few;
mod following;
mod law;
mod line;
mod story;

pub use checking::{StoryFault, check_story};
pub use following::follows;
pub use law::{what_a_story_tells_is_derivable, what_is_derivable_has_a_story};
pub use line::{Numbers, StoryLine};
pub use story::Story;
