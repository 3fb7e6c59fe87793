//! The callbacks that may come to objects that the library was handed: they are kept by callback row, and
//! caught up with as more objects are handed, so that no step goes over all of them.
#![tactic(auto)]

mod adding;
mod catching;
mod menu;

ghost use Rattle.runner_handed.specs.Laws.{MenusStay, ReachedAreEvents};

pub use menu::HandedMenu;

/// What is kept by callback row is what may come to handed objects, row by row.
pub fn reached_are_events()
    ensures { ReachedAreEvents }
{}

/// What is kept serves later states: objects keep their classes, and handed places stay in front.
pub fn menus_stay()
    ensures { MenusStay }
{}
