//! The text of stories: how many lines each has, and a line for each of its lines. What is added goes to the end of a
//! text; after want of memory a part of it may be there.
#![tactic(auto)]

mod telling;

pub use telling::put_stories;
