//! Small facts that show that the definitions by which runs and connections end, and by which a desk plans, judges and
//! carries commands out, mean what they should. Each is a theorem over the definitions alone, so that a slip in a
//! definition shows.
#![tactic(auto)]

ghost use Rattle.run_witness.specs.Commands.{CommandsTell};
ghost use Rattle.run_witness.specs.Connections.{ConnectionsEnd};
ghost use Rattle.run_witness.specs.Hearings.{HearingsTell};
ghost use Rattle.run_witness.specs.Judgements.{JudgementsTell};
ghost use Rattle.run_witness.specs.Plans.{PlansTell};
ghost use Rattle.run_witness.specs.Postings.{OnePosting};
ghost use Rattle.run_witness.specs.Programs.{ProgramsEnd};
ghost use Rattle.run_witness.specs.Servings.{ServingsEnd};
ghost use Rattle.run_witness.specs.Submissions.{SubmissionsEnd};
ghost use Rattle.run_witness.specs.Vettings.{VettingsEnd};

use office_forms::one_form_or_fault;
use one_answer::one_client_or_fault;

/// How a run of `serve` does not end.
pub fn the_servings_end()
    ensures { ServingsEnd }
{}

/// How a run of `submit` does not end, and what ends with status 10.
pub fn the_submissions_end()
    ensures { SubmissionsEnd }
{}

/// Where its files are told, a folder gives one client with one app to be sent, or one refusal.
pub fn a_folder_gives_one_posting()
    ensures { OnePosting }
{
    one_client_or_fault();
    one_form_or_fault();
}

/// How a run that vets does not end.
pub fn the_vettings_end()
    ensures { VettingsEnd }
{}

/// How the program does not end, and what its words ask for.
pub fn the_programs_end()
    ensures { ProgramsEnd }
{}

/// What reads gave and what was handed over is not forgotten.
pub fn the_hearings_tell()
    ensures { HearingsTell }
{}

/// What judging by the lists of an office does not give.
pub fn the_judgements_tell()
    ensures { JudgementsTell }
{}

/// What carrying a command out does not give.
pub fn the_commands_tell()
    ensures { CommandsTell }
{}

/// What a command is refused for, by what the cases show for it; and that the same content is the same bytes.
pub fn the_plans_tell()
    ensures { PlansTell }
{}

/// How a connection does not end, and connections over a door.
pub fn the_connections_end()
    ensures { ConnectionsEnd }
{}
