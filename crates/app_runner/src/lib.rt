//! The run of an app by a script: each choice that the machine leaves open is made by the script's bytes.
#![tactic(auto)]

mod running;
mod stepping;

ghost use Rattle.app_runner.specs.Laws.{PlayedIsRun, QuietWhereSafe};

use played_machine::{a_drawn_run_is_a_run, safe_apps_are_quiet, stands_are_exact};
pub use runner_stands::Stand;
pub use runner_world::Arrival;
pub use running::{Played, play};

/// What is told is told of a run of the machine: all that arrived in it, and where it stands.
pub fn what_is_played_is_a_run()
    ensures { PlayedIsRun }
{
    a_drawn_run_is_a_run();
    stands_are_exact();
}

/// Of a safe app no script makes an undeclared arrival or a stand. So what arrives undeclared is a leak.
pub fn safe_apps_play_quietly()
    ensures { QuietWhereSafe }
{
    safe_apps_are_quiet();
}
