//! What the parts of an app come to, with a story for each finding: how the row follows that tells it first.
#![tactic(auto)]

mod judged;
mod stories;

pub use judged::{Told, judge_with_stories};
