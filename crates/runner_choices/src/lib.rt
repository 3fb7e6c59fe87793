//! The events that may come to a component of a run: which they are, how many, and each by its index.
#![tactic(auto)]

mod asking;
mod beginning;
mod calling;
mod choice;
mod lives;
mod meeting;
mod summing;
mod table;

ghost use Rattle.runner_choices.specs.Laws.{MenusAreExact};

pub use asking::comings_to;
pub use beginning::may_begin;
pub use choice::{Choice, Met};
pub use summing::sum;
pub use table::ComponentTable;

/// What a component's table lists is what may come to it, in order.
pub fn menus_are_exact()
    ensures { MenusAreExact }
{}
