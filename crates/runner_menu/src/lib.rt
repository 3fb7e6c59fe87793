//! The events that may come in a state of a run, and one of them, as a script chooses it.
#![tactic(auto)]

mod menu;
mod tables;

ghost use Rattle.runner_menu.specs.Laws.{MenusStay};

pub use menu::Menu;

/// A menu serves later states: objects keep their classes, and handed places stay in front.
pub fn menus_stay()
    ensures { MenusStay }
{}
