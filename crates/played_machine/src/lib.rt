//! The machine that is played by a script: each choice that the machine leaves open is made by the
//! script's bytes. What is played is a run of the machine.
#![tactic(auto)]

ghost use Rattle.played_machine.specs.Laws.{
  DrawnIsRun,
  DrawnToItsEnd,
  SafeAppsAreQuiet,
  StandsAreExact,
  StepsAsMachine,
};

use app_model::events_are_exact;

/// Each step that is drawn is a step of the machine.
pub fn drawn_steps_are_steps()
    ensures { StepsAsMachine }
{
    events_are_exact();
}

/// Each state that is drawn is the last of a run of the machine.
pub fn a_drawn_run_is_a_run()
    ensures { DrawnIsRun }
{
    events_are_exact();
}

/// The stands that are listed of a state are those of the machine.
pub fn stands_are_exact()
    ensures { StandsAreExact }
{
    events_are_exact();
}

/// The run ends only where the bytes left are too few for a step, or no event may come.
pub fn a_drawn_run_goes_to_its_end()
    ensures { DrawnToItsEnd }
{}

/// Where the app is safe, no script brings an undeclared label to a sink, and none comes to what is
/// not modelled.
pub fn safe_apps_are_quiet()
    ensures { SafeAppsAreQuiet }
{
    events_are_exact();
}
